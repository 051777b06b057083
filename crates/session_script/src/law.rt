ghost use Rattle.std.specs.Prelude.{◌≡◌, ◌≤◌, ℕ, List, length, Some};
ghost use Rattle.session_script.specs.Grammar.{IsScript};
ghost use Rattle.session_script.specs.Script.{ScriptModel, act_of, parent_of};
ghost use Rattle.session_script.specs.WellFormed.{FitsAct, HasParent, IsWellFormed, header_of};
ghost use Rattle.session_script.specs.Writable.{IsWritable};
ghost use Rattle.session_script.specs.Spelling.{spelling_of, upgraded};
ghost use Rattle.session_script.specs.declared.act.Act.{Act};

use crate::script::Script;

/// Every script is within the limits of its version: its counts, numbers, sizes and times, the
/// depth of its bodies, and the places of its acts. Each declared guard is released.
pub fn scripts_are_well_formed(script: &Script)
    ensures { IsWellFormed script.now }
{
    script.reads_back();
}

/// An act stands in `open`, or in a branch that an earlier act has.
pub fn parents_come_first(script: &Script)
    ensures { (n : ℕ) → HasParent script.now.acts n (parent_of script.now n) }
{
    scripts_are_well_formed(script);
}

/// What an act names is declared, and its numbers and bytes are within the limits of the version.
pub fn acts_fit(script: &Script)
    ensures { (n : ℕ) (act : Act) → act_of script.now n ≡ Some act →
        FitsAct (header_of script.now) act }
{
    scripts_are_well_formed(script);
}

/// What is within the limits of its version is within those of version 2.
pub fn upgraded_scripts_are_well_formed()
    ensures { (script : ScriptModel) → IsWellFormed script → IsWellFormed (upgraded script) }
{}

/// A script of version 2 is its own upgrade.
pub fn upgraded_scripts_of_version_2_are_the_same()
    ensures { (script : ScriptModel) → script.version ≡ 2 → upgraded script ≡ script }
{}

/// The upgrade of a script reads back from its canonical text, which is no longer than any text of
/// the script.
pub fn upgraded_scripts_are_read_back()
    ensures { (bytes : List ℕ) (script : ScriptModel) → IsScript bytes script →
        IsScript (spelling_of (upgraded script)) (upgraded script)
        × (length (spelling_of (upgraded script)) ≤ length bytes) }
{}

/// Every script is also what a program that builds one has to show: its version has words for its
/// acts, and they stand in text order.
pub fn scripts_are_writable(script: &Script)
    ensures { IsWritable script.now }
{
    script.reads_back();
}

/// What a script that a program builds has to be: well formed, with words in its version for each
/// act, its acts in text order, and not too long. Then the text that it is written as is a text of
/// it, as `Script::make` asks.
pub fn writable_scripts_are_scripts()
    ensures { (script : ScriptModel) → IsWellFormed script → IsWritable script →
        IsScript (spelling_of script) script }
{}
