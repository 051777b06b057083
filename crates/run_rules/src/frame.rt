/// Who writes a line: the innermost execution on its thread, or the thread's outside where none runs
/// there.
#[derive(Clone, Copy, Debug, PartialEq, Eq, Hash)]
pub enum Frame {
    /// The execution of this operation's handler.
    Execution { op: u64 },
    /// What this thread does outside of all handlers.
    Outside { thread: u64 },
}
