ghost use Rattle.std.specs.Prelude.{◌≡◌, IfOk};
ghost use Rattle.session_run.specs.Outcome.{CountsWriting, WroteText};
ghost use Rattle.session_run.specs.Upgrade.{upgraded_text};
ghost use Rattle.text_io.specs.Seen.{seen_by};

use crate::outcome::WorkOutcome;
use asio_types::{NoMemory, Sink, write_all};
use session_script::{Script, upgrade, write_script};
use std::alloc::Global;

/// The text of the script's upgrade and one line feed.
fn upgraded_text(alloc: Global, script: &Script) -> Result<Vec<u8>, NoMemory>
    ensures { IfOk result (λ text. text.items ≡ upgraded_text script.now) }
{
    let new = upgrade(alloc, script)?;
    let mut text = write_script(alloc, &new)?;
    text.push(b'\n')?;
    Ok(text)
}

/// Upgrades a script that was read, and writes the text of its upgrade. Takes all memory before the
/// first byte is written.
pub(crate) fn upgrade_and_write<K: Sink>(alloc: Global, script: &Script, out: &mut K) -> WorkOutcome
    ensures wrote { WroteText (upgraded_text script.now)
        (seen_by K.written K.faults out.old out.new) result }
    ensures quiet { result ≡ WorkOutcome.NoMemory → out.new ≡ out.old }
    ensures counts { CountsWriting result (K.faults out.old) (K.faults out.new) }
{
    let Ok(text) = upgraded_text(alloc, script) else {
        return WorkOutcome::NoMemory;
    };
    match write_all(out, text.as_slice()) {
        Ok(()) => WorkOutcome::Done,
        Err(_) => WorkOutcome::WriteFault,
    }
}
