ghost use Rattle.session_script.specs.Script.{ScriptModel};
ghost use Rattle.session_script.specs.Spelling.{upgraded};
ghost use Rattle.history_rules.specs.Legal.{HaveSameHistories};

/// A script and its upgrade to version 2 have the same legal histories, whether bytes are told or
/// not.
pub fn upgraded_scripts_have_the_same_histories()
    ensures { (script : ScriptModel) → HaveSameHistories script (upgraded script) }
{}
