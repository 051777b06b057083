ghost use Rattle.std.specs.Prelude.{◌≡◌, ◌↔◌, IfSome, IsTrue, max, min};
ghost use Rattle.run_picture.specs.Window.{IsInside, last_from};

/// So many lines are drawn at most: what comes behind them is said.
pub const MOST_LINES: u64 = 4_000;

/// Which lines of a run are drawn, counted from 1 with the header and the names.
#[derive(Clone, Copy, Debug, PartialEq, Eq)]
pub struct Window {
    from: u64,
    to: u64,
}

impl Window {
    /// The lines from this one to that one, or as many of them as are drawn at most.
    pub fn of(from: u64, to: u64) -> Window
        ensures from { result.from ≡ max from 1 }
        ensures to { result.to ≡ min to (last_from (max from 1)) }
    {
        let first = from.max(1);
        Window {
            from: first,
            to: to.min(first.saturating_add(MOST_LINES - 1)),
        }
    }

    /// The first line.
    pub fn from(&self) -> u64
        ensures { result ≡ self.now.from }
    {
        self.from
    }

    /// The last line.
    pub fn to(&self) -> u64
        ensures { result ≡ self.now.to }
    {
        self.to
    }

    /// Whether a line is one of them.
    pub fn has(&self, line: u64) -> bool
        ensures { IsTrue result ↔ IsInside self.now line }
    {
        self.from <= line && line <= self.to
    }

    /// This line, if it is one of them.
    pub(crate) fn visible(&self, line: u64) -> Option<u64>
        ensures { IfSome result (λ l. IsInside self.now l) }
    {
        if self.has(line) { Some(line) } else { None }
    }
}
