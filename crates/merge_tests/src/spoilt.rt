//! Logs that no lane leaves. These functions run nothing.

ghost use Rattle.std.specs.Prelude.{◌≡◌, false};
ghost use Rattle.merge_tests.specs.Spoilt.{IsAtFirstPlace, IsStrandLog, OfEachStrand, draws_unseeing, exchanged_entries, exchanged_steps, first_look, unlooked_entries, unlooked_steps};

/// The first look of a strand is at its own place 0.
pub fn strands_look_at_their_first_place()
    ensures { OfEachStrand (λ lane own. IsAtFirstPlace lane (first_look own)) }
{}

/// A strand draws nothing before its first look.
pub fn strands_look_before_they_draw()
    ensures { OfEachStrand (λ lane own. draws_unseeing own ≡ false) }
{}

/// A log in which two places are exchanged, so that the handler at place 1 executes before the one
/// at place 0, is no log of the strand.
pub fn two_places_exchanged_are_no_log()
    ensures { IsStrandLog exchanged_steps exchanged_entries → ⊥ }
{}

/// A log with a begin behind a load, but without the look at the strand's next place, is no log of
/// the strand.
pub fn a_begin_without_its_look_is_no_log()
    ensures { IsStrandLog unlooked_steps unlooked_entries → ⊥ }
{}
