use asio_types::OpNo;

/// How a task ended.
#[derive(Clone, Copy, Debug, PartialEq, Eq)]
pub enum TaskEnd {
    /// It got all that it wanted.
    Done,
    /// No work was left, and what it wants wasn't found behind that.
    Ended,
    /// The context is stopped, and what it wants wasn't found behind that.
    Stopped,
    /// The reactor failed, and what it wants wasn't found behind that.
    Fault,
    /// It wants this, which is no operation of the script or executes inside its call.
    Unfit(OpNo),
}
