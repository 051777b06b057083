ghost use Rattle.strand_core.specs.Room.{ExecutionsFit, ExecutionsKeepRoom};

/// The events of a whole execution are at most what the handlers show that begin in it: each two
/// for its begin and end, and two for each act of all its branches, three for a stop. So a log with
/// room for all handlers that are held has room for an execution, and keeps it for those that stay.
pub fn executions_keep_room()
    ensures fit { ExecutionsFit }
    ensures kept { ExecutionsKeepRoom }
{}
