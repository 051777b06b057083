use run_lines::Line;

/// A line in another order of a run: which line of the run it is, counted from 0, and how it reads
/// there, on its thread and with its operation numbered anew.
#[derive(Clone, Copy)]
pub struct Step {
    pub place: u64,
    pub line: Line,
}
