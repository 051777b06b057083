ghost use Rattle.parallel_group.specs.Completing.{MembersComplete};

/// In every legal history of a group's script each member completes, unless the reactor fails or
/// somebody stops the context from outside.
pub fn members_complete()
    ensures { MembersComplete }
{}
