ghost use Rattle.group_script.specs.Aborting.{EmitsAbortPendingMembers};

/// In every legal history of a group's script: behind the take of an emit that reaches a pending
/// member the next event that isn't a handler's, nor a stop from outside, is that member's
/// completion with `operation_aborted`, unless the reactor fails.
pub fn emits_abort_pending_members()
    ensures { EmitsAbortPendingMembers }
{}
