use asio_types::{ActNo, Code, Event, Lane, NoMemory, OpNo};
use session_script::Script;
use std::alloc::Global;

/// The rows of handlers without a strand that run at once; more share the last one.
const MOST_TRACKS: usize = 16;

/// The least height of an execution that stands inside of none.
const LEAST_BAR: u64 = 24;

/// How much of a row stands over and under such an execution.
const ROW_EDGES: u64 = 16;

/// How much lower an execution is than the one that it stands inside of, and how far its upper edge
/// is from that one's.
const INSET: u64 = 6;

const UPPER_INSET: u64 = 4;

/// The height of the innermost execution where executions nest deep: its number fits.
const INNERMOST_BAR: u64 = 12;

/// Where the first row begins.
const TOP: u32 = 64;

/// Where the first line of the trace stands.
const LEFT: u32 = 190;

/// The room behind the last line.
const RIGHT: u32 = 130;

/// The room below the last row, for the legend.
const BOTTOM: u32 = 96;

/// The lines of an act's events, 0 where there was none, and where its handler is drawn.
#[derive(Clone, Copy)]
pub(super) struct ActSpot {
    pub(super) called: u32,
    pub(super) taken: u32,
    pub(super) told: u32,
    pub(super) begun: u32,
    pub(super) ended: u32,
    pub(super) dropped: u32,
    pub(super) code: Code,
    /// The row, from that of `open`, which is 0.
    pub(super) row: u32,
    /// How many executions it stands inside of.
    pub(super) depth: u32,
}

const NOWHERE: ActSpot = ActSpot {
    called: 0,
    taken: 0,
    told: 0,
    begun: 0,
    ended: 0,
    dropped: 0,
    code: Code::Ok,
    row: 0,
    depth: 0,
};

/// Where everything of a picture stands.
#[derive(Drop)]
pub(super) struct PictureLayout {
    places: Vec<ActSpot>,
    strands: u32,
    /// How many rows handlers without a strand take.
    tracks: u32,
    /// Which of these rows have a running handler, while the events are gone through.
    busy: Vec<bool>,
    /// Whether handlers share the last of these rows.
    crowded: bool,
    /// How many executions one stands inside of at most.
    deepest: u32,
    /// How many lines are drawn.
    lines: u32,
    /// How far two lines are apart.
    step: u32,
}

impl PictureLayout {
    /// The layout of these events.
    pub(super) fn make(
        alloc: Global,
        script: &Script,
        events: &[Event],
    ) -> Result<PictureLayout, NoMemory> {
        let places = vec![in alloc; NOWHERE; script.acts() as usize]?;
        let busy = vec![in alloc; false; MOST_TRACKS]?;
        let mut layout = PictureLayout {
            places,
            strands: script.strands() as u32,
            tracks: 1,
            busy,
            crowded: false,
            deepest: 0,
            lines: 0,
            step: 0,
        };
        for event in events {
            layout.lines = layout.lines.saturating_add(1);
            layout.place_event(script, *event);
        }
        layout.step = step_of(layout.lines);
        Ok(layout)
    }

    /// Where an act is drawn.
    pub(super) fn spot(&self, n: ActNo) -> ActSpot {
        self.places.get(n as usize).copied().unwrap_or(NOWHERE)
    }

    fn put(&mut self, n: ActNo, new: ActSpot) {
        if let Some(spot) = self.places.get_mut(n as usize) {
            *spot = new;
        }
    }

    fn place_event(&mut self, script: &Script, event: Event) {
        let line = self.lines;
        match event {
            Event::Call { act } => {
                let spot = self.spot(act);
                self.put(
                    act,
                    ActSpot {
                        called: line,
                        ..spot
                    },
                );
            }
            Event::Take { act } => {
                let spot = self.spot(act);
                self.put(
                    act,
                    ActSpot {
                        taken: line,
                        ..spot
                    },
                );
            }
            Event::Done { op, code, .. } => {
                let spot = self.spot(op);
                self.put(
                    op,
                    ActSpot {
                        told: line,
                        code,
                        ..spot
                    },
                );
            }
            Event::Begin { op, code, .. } => self.place_begin(script, op, code),
            Event::End { op, .. } => self.place_end(script, op),
            Event::Dropped { op, .. } => self.place_drop(script, op),
            _ => {}
        }
    }

    /// An execution has the row of its strand, a free row of its own, or that of its caller.
    fn place_begin(&mut self, script: &Script, o: OpNo, code: Code) {
        let caller = caller_of(script, o);
        let spot = self.spot(o);
        let (row, depth) = match caller {
            Some(caller) => {
                let outer = self.spot(caller);
                (outer.row, outer.depth.saturating_add(1))
            }
            None => (self.row_of(script, o), 0),
        };
        self.deepest = self.deepest.max(depth);
        let begun = self.lines;
        self.put(
            o,
            ActSpot {
                begun,
                code,
                row,
                depth,
                ..spot
            },
        );
    }

    /// The row of an execution outside a call.
    fn row_of(&mut self, script: &Script, o: OpNo) -> u32 {
        if let Some(strand) = strand_of(script, o) {
            return (strand as u32).saturating_add(1);
        }
        let track = self.free_track();
        self.tracks = self.tracks.max(track.saturating_add(1));
        self.strands.saturating_add(1).saturating_add(track)
    }

    /// The first row in which nothing runs, and from now on something does; the last one if there is
    /// none.
    fn free_track(&mut self) -> u32 {
        let mut track = 0u32;
        for busy in self.busy.as_mut_slice() {
            if !*busy {
                *busy = true;
                return track;
            }
            track = track.saturating_add(1);
        }
        self.crowded = true;
        track.saturating_sub(1)
    }

    fn place_end(&mut self, script: &Script, o: OpNo) {
        let spot = self.spot(o);
        let ended = self.lines;
        self.put(o, ActSpot { ended, ..spot });
        if caller_of(script, o).is_none() && strand_of(script, o).is_none() {
            let track = spot.row.saturating_sub(self.strands.saturating_add(1));
            if let Some(busy) = self.busy.get_mut(track as usize) {
                *busy = false;
            }
        }
    }

    fn place_drop(&mut self, script: &Script, o: OpNo) {
        let row = match strand_of(script, o) {
            Some(strand) => (strand as u32).saturating_add(1),
            None => self.strands.saturating_add(1),
        };
        let spot = self.spot(o);
        let dropped = self.lines;
        self.put(
            o,
            ActSpot {
                dropped,
                row,
                ..spot
            },
        );
    }

    /// How many strands there are.
    pub(super) fn strands(&self) -> u32 {
        self.strands
    }

    /// How many lines are drawn.
    pub(super) fn lines(&self) -> u32 {
        self.lines
    }

    /// How far two lines are apart.
    pub(super) fn step(&self) -> u64 {
        self.step as u64
    }

    /// The row of the reactor, which is the last one.
    pub(super) fn reactor_row(&self) -> u32 {
        self.strands.saturating_add(1).saturating_add(self.tracks)
    }

    /// Whether more handlers without a strand run at once than there are rows for them.
    pub(super) fn is_crowded(&self) -> bool {
        self.crowded
    }

    /// Whether these handlers share a row.
    pub(super) fn is_shared(&self, row: u32) -> bool {
        self.crowded && row.saturating_add(1) == self.reactor_row()
    }

    /// The row of the first handler without a strand.
    pub(super) fn own_row(&self) -> u32 {
        self.strands.saturating_add(1)
    }

    /// The height of an execution that stands inside of none.
    fn outer_height(&self) -> u64 {
        let nested = (self.deepest as u64).saturating_mul(INSET);
        LEAST_BAR.max(INNERMOST_BAR.saturating_add(nested))
    }

    /// The height of a row.
    pub(super) fn row_height(&self) -> u64 {
        self.outer_height().saturating_add(ROW_EDGES)
    }

    /// The upper edge of a row.
    pub(super) fn y(&self, row: u32) -> u64 {
        (TOP as u64).saturating_add((row as u64).saturating_mul(self.row_height()))
    }

    /// The middle of a row.
    pub(super) fn middle(&self, row: u32) -> u64 {
        self.y(row).saturating_add(self.row_height() / 2)
    }

    /// Where it stands that a round closes, and where that the context is restarted, which may come
    /// right behind it.
    pub(super) fn closing_y(&self) -> u64 {
        self.y(0).saturating_add(10)
    }

    pub(super) fn restart_y(&self) -> u64 {
        self.y(1).saturating_sub(4)
    }

    /// Where a line of the trace stands.
    pub(super) fn x(&self, line: u32) -> u64 {
        (LEFT as u64).saturating_add((line as u64).saturating_mul(self.step as u64))
    }

    /// The upper edge of an execution, inside of its row and of those that it stands inside of.
    pub(super) fn bar_top(&self, spot: ActSpot) -> u64 {
        let inset = (spot.depth as u64).saturating_mul(UPPER_INSET);
        self.y(spot.row)
            .saturating_add(ROW_EDGES / 2 + 1)
            .saturating_add(inset)
    }

    /// The height of an execution.
    pub(super) fn bar_height(&self, spot: ActSpot) -> u64 {
        let nested = (spot.depth as u64).saturating_mul(INSET);
        self.outer_height().saturating_sub(nested)
    }

    /// Where the call of an act is marked: in `open`, or over the execution that makes it.
    pub(super) fn call_y(&self, script: &Script, a: ActNo) -> u64 {
        match parent_of(script, a) {
            None => self.middle(0),
            Some(caller) => self.bar_top(self.spot(caller)),
        }
    }

    /// The width of the picture.
    pub(super) fn width(&self) -> u64 {
        self.x(self.lines.max(30)).saturating_add(RIGHT as u64)
    }

    /// The right edge of the rows.
    pub(super) fn right(&self) -> u64 {
        self.width().saturating_sub(20)
    }

    /// The lower edge of the rows.
    pub(super) fn floor(&self) -> u64 {
        self.y(self.reactor_row().saturating_add(1))
    }

    /// The height of the picture.
    pub(super) fn height(&self) -> u64 {
        self.floor().saturating_add(BOTTOM as u64)
    }
}

/// How far lines are apart: the more there are, the nearer.
fn step_of(lines: u32) -> u32 {
    if lines <= 100 {
        22
    } else if lines <= 1_000 {
        12
    } else if lines <= 5_000 {
        5
    } else {
        2
    }
}

fn strand_of(script: &Script, o: OpNo) -> Option<u8> {
    if o >= script.acts() {
        return None;
    }
    match script.lane_of(o) {
        Lane::Strand(strand) => Some(strand),
        _ => None,
    }
}

/// The operation in whose body an act stands.
fn parent_of(script: &Script, a: ActNo) -> Option<OpNo> {
    if a >= script.acts() {
        return None;
    }
    match script.parent_of(a) {
        Some((caller, _)) => Some(caller),
        None => None,
    }
}

/// The operation inside of which an operation executes, if it executes inside its call.
fn caller_of(script: &Script, o: OpNo) -> Option<OpNo> {
    if o < script.acts() && script.is_inline(o) {
        parent_of(script, o)
    } else {
        None
    }
}
