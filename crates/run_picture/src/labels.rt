ghost use Rattle.std.specs.Prelude.{◌≡◌};
ghost use Rattle.asio_types.specs.Faults.{CountsFaults};

use crate::drawing::{field, words};
use crate::escaped::write_escaped;
use crate::items::{Held, Sign};
use asio_types::{Failed, Sink};
use run_lines::Kind;
use run_names::Names;

/// The word for a kind of thing.
fn word_of(kind: Kind) -> &'static str {
    match kind {
        Kind::Strand => "strand ",
        Kind::Thing => "thing ",
        Kind::Op => "operation ",
        Kind::Thread => "thread ",
        Kind::Context => "context ",
        Kind::Lock => "lock ",
        Kind::Mark => "mark ",
    }
}

/// The name of a thing, or its kind and number where it has none.
pub(crate) fn label<K: Sink>(
    out: &mut K,
    names: &Names,
    kind: Kind,
    number: u64,
) -> Result<(), Failed>
    ensures { CountsFaults result (K.faults out.old) (K.faults out.new) }
{
    match names.of(kind, number) {
        Some(text) => write_escaped(out, text),
        None => field(out, word_of(kind), number),
    }
}

/// A thing in full: its kind and number, and its name if it has one.
pub(crate) fn full_label<K: Sink>(
    out: &mut K,
    names: &Names,
    kind: Kind,
    number: u64,
) -> Result<(), Failed>
    ensures { CountsFaults result (K.faults out.old) (K.faults out.new) }
{
    field(out, word_of(kind), number)?;
    match names.of(kind, number) {
        Some(text) => {
            words(out, " ")?;
            write_escaped(out, text)
        }
        None => Ok(()),
    }
}

/// How many letters the name of a thing has.
pub(crate) fn label_len(names: &Names, kind: Kind, number: u64) -> u64 {
    match names.of(kind, number) {
        Some(text) => text.len() as u64,
        None => 12,
    }
}

/// The kind and number of what is claimed or locked.
pub(crate) fn kind_held(held: Held) -> (Kind, u64) {
    match held {
        Held::Thing { thing } => (Kind::Thing, thing),
        Held::Lock { lock } => (Kind::Lock, lock),
    }
}

/// The kind and number of what a sign is about.
pub(crate) fn kind_of(sign: Sign) -> (Kind, u64) {
    match sign {
        Sign::Call { op } | Sign::Done { op } | Sign::Drop { op } => (Kind::Op, op),
        Sign::Mark { mark } | Sign::After { mark } => (Kind::Mark, mark),
        Sign::Cancel { thing } => (Kind::Thing, thing),
        Sign::Stop { context } | Sign::Restart { context } => (Kind::Context, context),
    }
}

/// The verb of a sign.
pub(crate) fn verb_of(sign: Sign) -> &'static str {
    match sign {
        Sign::Call { .. } => "call of ",
        Sign::Done { .. } => "completion of ",
        Sign::Drop { .. } => "drop of ",
        Sign::Mark { .. } => "mark: ",
        Sign::After { .. } => "after ",
        Sign::Cancel { .. } => "cancel on ",
        Sign::Stop { .. } => "stop of ",
        Sign::Restart { .. } => "restart of ",
    }
}

/// How a sign looks, from a place at the middle of its top.
pub(crate) fn shape_of(sign: Sign) -> &'static str {
    match sign {
        Sign::Call { .. } => "<path class=\"call\" d=\"M@ @v12\"/>",
        Sign::Done { .. } => "<path class=\"done\" d=\"M@ @l5 6l-5 6l-5 -6z\"/>",
        Sign::Drop { .. } => "<path class=\"drop\" d=\"M@ @m-5 1l10 10m0 -10l-10 10\"/>",
        Sign::Mark { .. } => "<path class=\"mark\" d=\"M@ @l5 11h-10z\"/>",
        Sign::After { .. } => "<path class=\"after\" d=\"M@ @m-5 1h10l-5 11z\"/>",
        Sign::Cancel { .. } => "<path class=\"drop\" d=\"M@ @m-4 6h8m-4 -5v10\"/>",
        Sign::Stop { .. } => "<path class=\"stop\" d=\"M@ @m-3 0h6l3 3v6l-3 3h-6l-3 -3v-6z\"/>",
        Sign::Restart { .. } => "<path class=\"after\" d=\"M@ @m-4 0l10 6l-10 6z\"/>",
    }
}
