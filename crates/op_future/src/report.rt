use crate::task_end::TaskEnd;
use history_book::History;

/// What a session of tasks comes to. It must be taken apart, since it has the reactor.
pub struct TaskReport<X, T> {
    /// What happened: one legal history of the script.
    pub history: History,
    /// How each task ended, in their order.
    pub ends: Vec<TaskEnd>,
    /// The tasks, in their order.
    pub tasks: Vec<T>,
    /// The reactor, which is set up.
    pub reactor: X,
    /// The sum of the drop marks of all handlers whose operations were never initiated: they were
    /// discarded, which alone tells these marks.
    pub let_go: u128,
}
