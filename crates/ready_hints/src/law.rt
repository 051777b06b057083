//! A law of the rule. It runs nothing.

ghost use Rattle.ready_hints.specs.HintRule.{OthersMayTakeAll};

/// Whatever a pass knows that hasn't all parts, the others may take all that is left while it keeps
/// still. So nothing that it knows can tell whether a hint is left.
pub fn others_may_take_all()
    ensures { OthersMayTakeAll }
{}
