ghost use Rattle.std.specs.Prelude.{◌≡◌, ◌+◌, ◌<◌, length, slice_index, IfOk};
ghost use Rattle.lane_clock.specs.Layout.{total, cell_word};

use asio_types::NoMemory;
use std::alloc::Global;
use std::marker::Model;

// Where the cells of a lane begin among all cells, and how many they are.
#[derive(Clone, Copy)]
pub(crate) struct Row {
    pub(crate) start: usize,
    pub(crate) cells: u32,
}

/// How a clock is laid out: the work at its start, its seats and how many cells each lane has.
#[derive(Drop)]
pub struct ClockPlan {
    guards: u32,
    seats: u32,
    rows: Vec<Row>,
    // how many words there are
    words: usize,
}

impl Model for ClockPlan {
    ghost use Rattle.lane_clock.specs.Layout.{Layout};

    ghost Value = { Layout };

    ghost use Rattle.lane_clock.specs.Rows.{cells_in, AreRows};

    ghost view = { λ p.
        record { guards = p.guards; seats = p.seats; cells = cells_in p.rows.items } };

    ghost invariant = { λ p. AreRows p.rows.items p.words };
}

impl ClockPlan {
    /// Takes memory for a row of each lane.
    pub(crate) fn make(
        alloc: Global,
        cells: &[u32],
        seats: u32,
        guards: u32,
    ) -> Result<ClockPlan, NoMemory>
        ensures { IfOk result
            (λ plan. plan ≡ record { guards = guards; seats = seats; cells = cells.now }) }
    {
        let mut rows = Vec::with_capacity(alloc, cells.len())?;
        let mut start: usize = 0;
        for count in cells {
            rows.push(Row {
                start,
                cells: *count,
            })?;
            start = start.checked_add(*count as usize).ok_or(NoMemory)?;
        }
        let words = start.checked_add(1 + cells.len()).ok_or(NoMemory)?;
        Ok(ClockPlan {
            guards,
            seats,
            rows,
            words,
        })
    }

    pub(crate) fn guards(&self) -> u32
        ensures { result ≡ self.now.guards }
    {
        self.guards
    }

    pub(crate) fn words(&self) -> usize
        ensures { result ≡ 1 + length self.now.cells + total self.now.cells }
    {
        self.words
    }

    pub(crate) fn cells(&self, lane: u32) -> u32
        requires { lane < length self.now.cells }
        ensures { result ≡ slice_index self.now.cells lane }
    {
        self.rows[lane as usize].cells
    }

    // The word of a cell.
    pub(crate) fn cell_word(&self, lane: u32, place: u32) -> usize
        requires { place < slice_index self.now.cells lane }
        ensures { result ≡ cell_word self.now.cells lane place }
    {
        1 + self.rows.len() + self.rows[lane as usize].start + place as usize
    }
}
