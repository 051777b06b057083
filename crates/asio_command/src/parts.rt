ghost use Rattle.std.specs.Prelude.{◌≡◌, false, IsTrue};
ghost use Rattle.std.specs.Option.{option_map};
ghost use Rattle.trace_check.specs.Parting.{HasNoParting};
ghost use Rattle.asio_command.specs.Parts.{HasBothParts, IsFile};
ghost use Rattle.asio_command.specs.Scripts.{IsScriptOf};

use text_places::{ScriptParts, script_parts_of};
use trace_check::part;

/// The parts of a file.
#[derive(Clone, Copy)]
pub struct FileParts<'t> {
    /// The script's text, with its head: the whole file where nothing parts it.
    pub script: &'t [u8],
    /// The trace's text; none where no line is exactly `--`.
    pub trace: Option<&'t [u8]>,
}

/// The parts of a file, round its first line that is exactly `--`. Looks at each byte once.
pub fn parts_of(text: &[u8]) -> FileParts<'_>
    ensures { IsFile text.now result.script.now (option_map (λ text. text.now) result.trace) }
{
    match part(text) {
        Some(parted) => FileParts {
            script: parted.script,
            trace: Some(parted.trace),
        },
        None => FileParts {
            script: text,
            trace: None,
        },
    }
}

/// The script of a file, behind the comments at its head.
pub(crate) fn file_script(text: &[u8]) -> ScriptParts<'_>
    ensures { IsScriptOf text.now result.rest.now }
{
    script_parts_of(parts_of(text).script)
}

/// Whether a line parts a file.
pub(crate) fn is_parted(text: &[u8]) -> bool
    ensures both { IsTrue result → HasBothParts text.now }
    ensures none { result ≡ false → HasNoParting text.now }
{
    part(text).is_some()
}
