ghost use Rattle.generated_session.specs.PlainSummary.{SummariesArePlain};

/// The summary of a session that a number makes says the same at each run: it is computed from the
/// script alone, where the reactor doesn't fail and nothing outside of the script stops the
/// context.
pub fn summaries_are_plain()
    ensures { SummariesArePlain }
{}
