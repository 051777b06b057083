use crate::scene::Scene;

/// The left end of the first line, and the top of the first row.
const LEFT: u64 = 150;

const TOP: u64 = 70;

/// Where things are drawn, in pixels.
#[derive(Clone, Copy)]
pub(crate) struct Layout {
    from: u64,
    lines: u64,
    step: u64,
    rows: u64,
    /// How many bars lie one inside the other, and how many brackets one under the other.
    levels: u64,
    lanes: u64,
    strands: u64,
}

impl Layout {
    /// The layout of a scene. More than four bars or brackets at one place lie over each other.
    pub(crate) fn of(scene: &Scene) -> Layout {
        let from = scene.window.from();
        let last = scene.last.max(from);
        let lines = last.saturating_sub(from).saturating_add(1);
        let levels = scene.bars.iter().map(|bar| bar.depth).max().unwrap_or(0);
        let lanes = scene
            .brackets
            .iter()
            .map(|one| one.depth)
            .max()
            .unwrap_or(0);
        Layout {
            from,
            lines,
            step: (1_100 / lines).clamp(2, 26),
            rows: scene.rows.len() as u64,
            levels: levels.min(3).saturating_add(1),
            lanes: lanes.min(3).saturating_add(1),
            strands: scene.strands.len() as u64,
        }
    }

    pub(crate) fn step(&self) -> u64 {
        self.step
    }

    /// Where a line is drawn.
    pub(crate) fn x(&self, line: u64) -> u64 {
        line.saturating_sub(self.from)
            .saturating_mul(self.step)
            .saturating_add(LEFT)
    }

    /// The left end of what begins at this line, or before all.
    pub(crate) fn left_of(&self, line: Option<u64>) -> u64 {
        match line {
            Some(line) => self.x(line),
            None => LEFT - 8,
        }
    }

    /// The right end of what ends at this line, or behind all.
    pub(crate) fn right_of(&self, line: Option<u64>) -> u64 {
        match line {
            Some(line) => self.x(line),
            None => self.right(),
        }
    }

    /// The right end of the rows.
    pub(crate) fn right(&self) -> u64 {
        self.lines
            .saturating_mul(self.step)
            .saturating_add(LEFT + 8)
    }

    pub(crate) fn row_height(&self) -> u64 {
        self.levels
            .saturating_mul(20)
            .saturating_add(self.lanes.saturating_mul(16))
            .saturating_add(34)
    }

    /// The top of a row.
    pub(crate) fn y(&self, row: usize) -> u64 {
        (row as u64)
            .saturating_mul(self.row_height())
            .saturating_add(TOP)
    }

    /// The top of a bar.
    pub(crate) fn bar_y(&self, row: usize, depth: u64) -> u64 {
        depth
            .min(3)
            .saturating_mul(20)
            .saturating_add(self.y(row))
            .saturating_add(26)
    }

    /// The floor of a bracket.
    pub(crate) fn bracket_y(&self, row: usize, depth: u64) -> u64 {
        depth
            .min(3)
            .saturating_mul(16)
            .saturating_add(self.levels.saturating_mul(20))
            .saturating_add(self.y(row))
            .saturating_add(38)
    }

    /// The floor of the last row.
    pub(crate) fn floor(&self) -> u64 {
        self.rows
            .saturating_mul(self.row_height())
            .saturating_add(TOP)
    }

    /// How many strands the legend names.
    pub(crate) fn named_strands(&self) -> u64 {
        self.strands.min(24)
    }

    pub(crate) fn width(&self) -> u64 {
        self.right().saturating_add(20).max(820)
    }

    pub(crate) fn height(&self) -> u64 {
        self.named_strands()
            .saturating_add(7)
            .saturating_div(4)
            .saturating_mul(22)
            .saturating_add(self.floor())
            .saturating_add(60)
    }

    pub(crate) fn from(&self) -> u64 {
        self.from
    }

    /// The last line.
    pub(crate) fn last(&self) -> u64 {
        self.from.saturating_add(self.lines).saturating_sub(1)
    }
}
