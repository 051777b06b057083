use run_joins::Note;

/// A line of a run, with what is known of it.
#[derive(Clone, Copy)]
pub struct Event {
    pub note: Note,
    /// The strand of the execution that writes the line. Of a line that begins an operation, the strand
    /// of that operation, if its thread doesn't hold it.
    pub strand: Option<u64>,
}
