ghost use Rattle.trace_check.specs.Verdict.{VerdictsAreUnique};
ghost use Rattle.trace_check.specs.ReadBack.{AreFoundWhereLegal};

use history_book::History;

/// Events have one verdict.
pub fn verdicts_are_unique()
    ensures { VerdictsAreUnique }
{}

/// The trace of a legal history is read as that history and no other, and its verdict is that it is
/// legal: of every history that there is, whose trace is no longer than is read.
pub fn legal_traces_are_found_legal(history: &History)
    ensures { AreFoundWhereLegal history.now.events }
{
    history.holds_events();
}
