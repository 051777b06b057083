use crate::rule::Rule;

/// What is to be said of a run.
#[derive(Clone, Copy, Debug, PartialEq, Eq)]
pub enum Verdict {
    /// Each line may come, and nothing is under way at the end.
    Legal,
    /// Each line may come, and something is under way.
    LegalSoFar,
    /// The lines before this one may come, and it breaks a rule.
    Illegal {
        /// How many lines stand before it.
        place: u64,
        rule: Rule,
    },
}
