use asio_types::Code;
use history_book::History;
use op_future::TaskEnd;

/// What a member of a group completed with.
#[derive(Clone, Copy, Debug, PartialEq, Eq)]
pub struct MemberDone {
    /// Its number.
    pub member: usize,
    /// Its `error_code`.
    pub code: Code,
    /// How many bytes were transferred.
    pub size: u32,
}

/// What a group comes to. It must be taken apart, since it has the reactor.
pub struct GroupReport<X> {
    /// What happened: one legal history of the group's script.
    pub history: History,
    /// The members before the first that didn't complete, in the order of their completions.
    pub order: Vec<MemberDone>,
    /// `Done` where these are all, and `Fault` where one isn't among them.
    pub end: TaskEnd,
    /// The reactor, which is set up.
    pub reactor: X,
    /// The sum of the drop marks of all handlers whose operations were never initiated: they were
    /// discarded, which alone tells these marks.
    pub let_go: u128,
}
