ghost use Rattle.run_lines.specs.Run.{EntriesAreUnique, EntriesStandOnOneLine, RunsAreUnique};

/// Bytes are the text of one entry at most.
pub fn entries_are_unique()
    ensures { EntriesAreUnique }
{}

/// No text of an entry holds a line feed, so a run is cut at its line feeds.
pub fn entries_stand_on_one_line()
    ensures { EntriesStandOnOneLine }
{}

/// Bytes are the run of one list of entries at most.
pub fn runs_are_unique()
    ensures { RunsAreUnique }
{}
