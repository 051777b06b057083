ghost use Rattle.std.specs.Prelude.{◌≡◌, OnOk, Some};
ghost use Rattle.asio_types.specs.Sink.{Extends};
ghost use Rattle.run_names.specs.Names.{name_at};
ghost use Rattle.run_verdict.specs.Naming.{call_names, kind_of, kind_text, line_names, name_if, name_some, name_text, number_of};

use crate::text::write_number;
use asio_types::{Failed, Sink, write_all};
use run_lines::{Doing, Kind, Line};
use run_names::Names;

/// What stands before the number of a thing.
fn kind_text(kind: Kind) -> &'static str
    ensures { result.now ≡ kind_text kind }
{
    match kind {
        Kind::Strand => " [strand ",
        Kind::Thing => " [thing ",
        Kind::Op => " [op ",
        Kind::Thread => " [thread ",
        Kind::Context => " [context ",
        Kind::Lock => " [lock ",
        Kind::Mark => " [mark ",
    }
}

/// A thing with a name.
fn write_named<K: Sink>(out: &mut K, kind: Kind, number: u64, text: &[u8]) -> Result<(), Failed>
    ensures { OnOk result (Extends (K.written out.old) (name_if kind number (Some text.now)) (K.written out.new)) }
{
    write_number(out, kind_text(kind).as_bytes(), number, b" ")?;
    write_all(out, text)?;
    write_all(out, b"]")
}

/// A thing with its name, if it has one.
fn write_name<K: Sink>(out: &mut K, names: &Names, kind: Kind, number: u64) -> Result<(), Failed>
    ensures { OnOk result (Extends (K.written out.old) (name_text (name_at names.now) kind number) (K.written out.new)) }
{
    match names.of(kind, number) {
        Some(text) => write_named(out, kind, number, text),
        None => Ok(()),
    }
}

/// The same of a thing that there may be.
fn write_name_if<K: Sink>(
    out: &mut K,
    names: &Names,
    kind: Kind,
    number: Option<u64>,
) -> Result<(), Failed>
    ensures { OnOk result (Extends (K.written out.old) (name_some (name_at names.now) kind number) (K.written out.new)) }
{
    match number {
        Some(number) => write_name(out, names, kind, number),
        None => Ok(()),
    }
}

/// The kind of what a line is about.
fn kind_of(does: &Doing) -> Kind
    ensures { result ≡ kind_of does.now }
{
    match *does {
        Doing::Claim { .. } | Doing::Release { .. } | Doing::Cancel { .. } => Kind::Thing,
        Doing::Lock { .. } | Doing::Unlock { .. } => Kind::Lock,
        Doing::Mark { .. } | Doing::After { .. } => Kind::Mark,
        Doing::Work { .. } | Doing::Stop { .. } | Doing::Restart { .. } => Kind::Context,
        _ => Kind::Op,
    }
}

/// The number of what a line is about.
fn number_of(does: &Doing) -> u64
    ensures { result ≡ number_of does.now }
{
    match *does {
        Doing::Call { op, .. }
        | Doing::Back { op }
        | Doing::Done { op, .. }
        | Doing::Begin { op, .. }
        | Doing::End { op }
        | Doing::Throw { op }
        | Doing::Drop { op } => op,
        Doing::Claim { thing } | Doing::Release { thing } | Doing::Cancel { thing } => thing,
        Doing::Lock { lock } | Doing::Unlock { lock } => lock,
        Doing::Mark { mark } | Doing::After { mark } => mark,
        Doing::Work { context } | Doing::Stop { context } | Doing::Restart { context } => context,
    }
}

/// What else a call speaks of.
fn write_call_names<K: Sink>(out: &mut K, names: &Names, does: &Doing) -> Result<(), Failed>
    ensures { OnOk result (Extends (K.written out.old) (call_names (name_at names.now) does.now) (K.written out.new)) }
{
    match *does {
        Doing::Call {
            context,
            strand,
            thing,
            ..
        } => {
            write_name(out, names, Kind::Context, context)?;
            write_name_if(out, names, Kind::Strand, strand)?;
            write_name_if(out, names, Kind::Thing, thing)
        }
        _ => Ok(()),
    }
}

/// The names of what a line speaks of.
pub(crate) fn write_line_names<K: Sink>(
    out: &mut K,
    names: &Names,
    line: &Line,
) -> Result<(), Failed>
    ensures { OnOk result (Extends (K.written out.old) (line_names (name_at names.now) line.now) (K.written out.new)) }
{
    write_name(out, names, Kind::Thread, line.thread)?;
    write_name(out, names, kind_of(&line.does), number_of(&line.does))?;
    write_call_names(out, names, &line.does)
}
