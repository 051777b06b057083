use run_lines::Line;
use run_rules::Frame;

/// A line of a run, with what is known of it.
#[derive(Clone, Copy)]
pub struct Note {
    pub line: Line,
    /// Who writes it.
    pub frame: Frame,
    /// Whether the frame that releases a thing here has it no more then.
    pub gone: bool,
}
