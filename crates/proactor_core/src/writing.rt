ghost use Rattle.std.specs.Prelude.{◌≡◌, ◌≢◌, ◌<◌, ◌+◌, ◌≤◌, ◌^◌, [], IfNone, IfOk, IfSome, IsSome, IsTrue, List, OnOk, length, true, ℕ};
ghost use Rattle.asio_types.specs.Faults.{CountsFaults};
ghost use Rattle.composed_ops.specs.StreamOperation.{most_moved};
ghost use Rattle.composed_ops.specs.Feeding.{bytes_from};
ghost use Rattle.composed_ops.specs.Machine.{progress_of};
ghost use Rattle.proactor_core.specs.Reactor.{tells, ChangesOne, IsServable};
ghost use Rattle.proactor_core.specs.Reading.{exchange_at, may_give, pieces_left, Ends, IsAllowed, IsOpenStill, IsRound};
ghost use Rattle.proactor_core.specs.Writing.{AsksToWrite, MayWrite};

use crate::round::{StreamRound, round_of};
use asio_types::{Code, Failed, Moved, StreamNo};
use composed_ops::{Machine, Want};
use reactor_trait::Reactor;

/// The bytes that a write writes next.
fn next_bytes<'a>(machine: &Machine<'a>, from: u32, count: u32) -> &'a [u8]
    requires writes { AsksToWrite (progress_of machine.now).asks }
    requires within { from + count ≤ most_moved (progress_of machine.now).asks }
    requires counted { most_moved (progress_of machine.now).asks < 2 ^ 32 }
    ensures bytes { result.now ≡ bytes_from (progress_of machine.now).asks from count }
    ensures count { length result.now ≡ count }
{
    match *machine {
        Machine::WriteSome { bytes, .. } | Machine::WriteAll { bytes, .. } => {
            &bytes[from as usize..(from + count) as usize]
        }
        _ => unreachable!(),
    }
}

/// One call of the reactor for a write.
fn write_once<X: Reactor>(
    machine: &mut Machine,
    stream: StreamNo,
    reactor: &mut X,
) -> Result<StreamRound, Failed>
    requires servable { IsServable (X.state reactor.old) (X.told reactor.old) stream }
    requires may_write { MayWrite (progress_of machine.old) }
    ensures keeps { X.state reactor.new ≡ X.state reactor.old }
    ensures counts { CountsFaults result (X.faults reactor.old) (X.faults reactor.new) }
    ensures later { X.faults reactor.old ≤ X.faults reactor.new }
    ensures tells { tells (X.told reactor.new) ≡ tells (X.told reactor.old) }
    ensures told { OnOk result (ChangesOne stream (X.told reactor.old) (X.told reactor.new)) }
    ensures asks { (progress_of machine.new).asks ≡ (progress_of machine.old).asks }
    ensures writes { IfOk result (λ round. IsOpenStill round → MayWrite (progress_of machine.new)) }
    ensures allowed { IfOk result (IsAllowed (progress_of machine.old).asks) }
    ensures follows { (held : List ℕ) →
        IfOk result (λ round.
        IfSome (X.told reactor.old) (λ _.
        IsRound (exchange_at (progress_of machine.old) held (X.told reactor.old) stream)
        (exchange_at (progress_of machine.new) held (X.told reactor.new) stream) round)) }
    ensures smaller { IfOk result (λ round. round ≡ StreamRound.GoesOn →
        pieces_left (progress_of machine.new) [] < pieces_left (progress_of machine.old) []) }
    ensures after_last { IsTrue (X.state reactor.old).last →
        IfOk result (λ round. round ≢ StreamRound.Stays) }
{
    let Want::Write { from, count } = machine.want(&[]) else {
        unreachable!()
    };
    let bytes = next_bytes(machine, from, count);
    let moved = reactor.write_some(stream, bytes)?;
    if let Moved::NotYet = moved {
        return Ok(StreamRound::Stays);
    }
    Ok(round_of(machine.got(moved)))
}

/// Serves a write until it completes, with its code and size, or no room is there for it.
pub(crate) fn serve_write<X: Reactor>(
    machine: &mut Machine,
    stream: StreamNo,
    reactor: &mut X,
) -> Result<Option<(Code, u32)>, Failed>
    requires servable { IsServable (X.state reactor.old) (X.told reactor.old) stream }
    requires may_write { MayWrite (progress_of machine.old) }
    ensures keeps { X.state reactor.new ≡ X.state reactor.old }
    ensures counts { CountsFaults result (X.faults reactor.old) (X.faults reactor.new) }
    ensures later { X.faults reactor.old ≤ X.faults reactor.new }
    ensures tells { tells (X.told reactor.new) ≡ tells (X.told reactor.old) }
    ensures told { OnOk result (ChangesOne stream (X.told reactor.old) (X.told reactor.new)) }
    ensures asks { (progress_of machine.new).asks ≡ (progress_of machine.old).asks }
    ensures writes { IfOk result (λ outcome. IfNone outcome (MayWrite (progress_of machine.new))) }
    ensures allowed { IfOk result (λ outcome. IfSome outcome
        (λ given. may_give (progress_of machine.old).asks given.0 given.1 ≡ true)) }
    ensures follows { (held : List ℕ) →
        IfOk result (λ outcome.
        IfSome (X.told reactor.old) (λ _.
        Ends (exchange_at (progress_of machine.old) held (X.told reactor.old) stream)
        (exchange_at (progress_of machine.new) held (X.told reactor.new) stream)
        outcome)) }
    ensures after_last { IsTrue (X.state reactor.old).last → IfOk result IsSome }
{
    'rounds: loop {
        match write_once(machine, stream, reactor)? {
            StreamRound::GoesOn => {}
            StreamRound::Stays => return Ok(None),
            StreamRound::Completes { code, size } => return Ok(Some((code, size))),
        }
    }
}
