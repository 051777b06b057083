//! Laws of the definitions. These functions run nothing.

ghost use Rattle.std.specs.Prelude.{◌≡◌, ℕ, Some};
ghost use Rattle.session_script.specs.Script.{act_of};
ghost use Rattle.session_script.specs.declared.act.Act.{Act};
ghost use Rattle.composed_ops.specs.StreamOperation.{asking_of, IsSizedAct};
ghost use Rattle.composed_ops.specs.Feeding.{HeldMayBeConsumed, HoldingKeeps, MachinesBegin, MachinesComplete, MachinesFinish, MachinesGoOn, MachinesWait, ReadsMayBeAnswered, RunsAreByTheRules, WritesMayBeAnswered};

use session_script::{Script, acts_fit};

/// Each act of a script asks for at least one byte, and for as many as 32 bits count.
pub fn acts_are_sized(script: &Script)
    ensures { (n : ℕ) (act : Act) → act_of script.now n ≡ Some act → IsSizedAct (asking_of act) }
{
    acts_fit(script);
}

/// A machine gives what the rules of streams give, step by step: where it goes on, the rules give
/// the same of what is left; where it completes, finishes or waits, they give just that. Bytes that
/// are moved behind the held ones change nothing.
pub fn machines_follow_the_rules()
    ensures begin { MachinesBegin }
    ensures go_on { MachinesGoOn }
    ensures complete { MachinesComplete }
    ensures finish { MachinesFinish }
    ensures wait { MachinesWait }
    ensures holding { HoldingKeeps }
{}

/// What a machine gives on the bytes held for it and on further pieces is what the rules of streams
/// give on all these bytes at once, however they were cut: the same code and size, the same bytes
/// moved and the same stream left.
pub fn machines_are_fed_in_any_pieces()
    ensures { RunsAreByTheRules }
{}

/// What a reactor that tells its bytes answers may be answered to a machine.
pub fn told_answers_may_come()
    ensures reads { ReadsMayBeAnswered }
    ensures writes { WritesMayBeAnswered }
    ensures held { HeldMayBeConsumed }
{}
