ghost use Rattle.std.specs.Prelude.{◌≡◌, ◌≢◌, ◌<◌, ◌≤◌, ◌-◌, IfNone, IfOk, IfSome, IsSome, IsTrue, OnOk, length, take, true};
ghost use Rattle.asio_types.specs.Faults.{CountsFaults};
ghost use Rattle.std.specs.Option.{option_map};
ghost use Rattle.stream_rules.specs.Moving.{moved_count, read_answer};
ghost use Rattle.stream_rules.specs.Serving.{after_reading, Some_bytes};
ghost use Rattle.composed_ops.specs.StreamOperation.{Reads, most_moved};
ghost use Rattle.composed_ops.specs.Feeding.{held_with, course_of, IsFilled};
ghost use Rattle.composed_ops.specs.Machine.{progress_of};
ghost use Rattle.composed_ops.specs.Progress.{StreamProgress};
ghost use Rattle.composed_ops.specs.Want.{wanted, IsWithin, MayAskAgain};
ghost use Rattle.reactor_trait.specs.Reactor.{IsMoveWithin, with_stream};
ghost use Rattle.proactor_core.specs.Reactor.{tells, told_stream, ChangesOne, IsServable};
ghost use Rattle.proactor_core.specs.Reading.{exchange_at, may_give, pieces_left, Ends, IsAllowed, IsGathered, IsOpenStill, IsRound, MayRead};

use crate::held::HeldBytes;
use crate::round::{StreamRound, round_of};
use asio_types::{Code, Failed, Moved, StreamNo};
use composed_ops::{Machine, Want};
use reactor_trait::Reactor;

/// Reads at most so many bytes of a stream into the front of a buffer.
fn read_piece<X: Reactor>(
    reactor: &mut X,
    stream: StreamNo,
    buffer: &mut [u8],
    most: u32,
) -> Result<Moved, Failed>
    requires servable { IsServable (X.state reactor.old) (X.told reactor.old) stream }
    requires some { 0 < most }
    requires room { most ≤ length buffer.old }
    ensures keeps { X.state reactor.new ≡ X.state reactor.old }
    ensures counts { CountsFaults result (X.faults reactor.old) (X.faults reactor.new) }
    ensures later { X.faults reactor.old ≤ X.faults reactor.new }
    ensures tells { tells (X.told reactor.new) ≡ tells (X.told reactor.old) }
    ensures within { IfOk result (IsMoveWithin most) }
    ensures after_last { IsTrue (X.state reactor.old).last →
        IfOk result (λ moved. moved ≢ Moved.NotYet) }
    ensures told_answer { IfOk result (λ moved. IfSome (X.told reactor.old)
        (λ outside. moved ≡ read_answer most (told_stream (X.told reactor.old) stream))) }
    ensures told_bytes { IfOk result (λ moved.
        IfSome (X.told reactor.old) (λ outside.
        take (moved_count moved) buffer.new
        ≡ take (moved_count moved) (told_stream (X.told reactor.old) stream).arrived)) }
    ensures told_gives { IfOk result (λ moved.
        X.told reactor.new
        ≡ option_map (with_stream stream (after_reading (moved_count moved)))
        (X.told reactor.old)) }
{
    reactor.read_some(stream, &mut buffer[..most as usize])
}

/// Moves what has arrived behind the held bytes, until nothing is there or so many are held.
fn fill<X: Reactor>(
    size: u32,
    held: &mut HeldBytes,
    buffer: &mut [u8],
    stream: StreamNo,
    reactor: &mut X,
) -> Result<(), Failed>
    requires servable { IsServable (X.state reactor.old) (X.told reactor.old) stream }
    requires fits { size ≤ length buffer.old }
    requires holds { size ≤ held.old.room }
    ensures keeps { X.state reactor.new ≡ X.state reactor.old }
    ensures counts { CountsFaults result (X.faults reactor.old) (X.faults reactor.new) }
    ensures later { X.faults reactor.old ≤ X.faults reactor.new }
    ensures tells { tells (X.told reactor.new) ≡ tells (X.told reactor.old) }
    ensures room { held.new.room ≡ held.old.room }
    ensures told { OnOk result (ChangesOne stream (X.told reactor.old) (X.told reactor.new)) }
    ensures same { OnOk result (IfSome (X.told reactor.old) (λ _. (progress : StreamProgress) →
        course_of (exchange_at progress held.new.bytes (X.told reactor.new) stream)
        ≡ course_of (exchange_at progress held.old.bytes (X.told reactor.old) stream))) }
    ensures filled { OnOk result (IfSome (X.told reactor.old) (λ _.
        IsFilled (Reads (Some_bytes size)) held.new.bytes
        (told_stream (X.told reactor.new) stream))) }
{
    while held.len() < size {
        let missing = size - held.len();
        match read_piece(reactor, stream, buffer, missing)? {
            Moved::Took(count) => held.append(&buffer[..count as usize]),
            _ => return Ok(()),
        }
    }
    Ok(())
}

/// A piece that was read for an operation: a read until a delimiter holds it.
fn keep_piece(machine: &Machine, moved: Moved, held: &mut HeldBytes, buffer: &[u8])
    requires there { moved_count moved ≤ length buffer.now }
    requires room { length (held_with (progress_of machine.now).asks held.old.bytes
        (take (moved_count moved) buffer.now)) ≤ held.old.room }
    ensures held { held.new.bytes
        ≡ held_with (progress_of machine.now).asks held.old.bytes
        (take (moved_count moved) buffer.now) }
    ensures room { held.new.room ≡ held.old.room }
{
    if let (Machine::Until { .. }, Moved::Took(count)) = (machine, moved) {
        held.append(&buffer[..count as usize]);
    }
}

/// One call of the reactor for a read that wants at most so many bytes more.
fn read_more<X: Reactor>(
    machine: &mut Machine,
    most: u32,
    held: &mut HeldBytes,
    buffer: &mut [u8],
    stream: StreamNo,
    reactor: &mut X,
) -> Result<StreamRound, Failed>
    requires servable { IsServable (X.state reactor.old) (X.told reactor.old) stream }
    requires may_read { MayRead (length buffer.old) held.old (progress_of machine.old) }
    requires wants { wanted (progress_of machine.old) held.old.bytes ≡ Want.Read most }
    requires within { IsWithin
        (most_moved (progress_of machine.old).asks - (progress_of machine.old).moved)
        (length held.old.bytes) (Want.Read most) }
    requires again { MayAskAgain (progress_of machine.old) held.old.bytes (Want.Read most) }
    ensures keeps { X.state reactor.new ≡ X.state reactor.old }
    ensures counts { CountsFaults result (X.faults reactor.old) (X.faults reactor.new) }
    ensures later { X.faults reactor.old ≤ X.faults reactor.new }
    ensures tells { tells (X.told reactor.new) ≡ tells (X.told reactor.old) }
    ensures room { held.new.room ≡ held.old.room }
    ensures told { OnOk result (ChangesOne stream (X.told reactor.old) (X.told reactor.new)) }
    ensures asks { (progress_of machine.new).asks ≡ (progress_of machine.old).asks }
    ensures reads { IfOk result (λ round.
        IsOpenStill round → MayRead (length buffer.old) held.new (progress_of machine.new)) }
    ensures allowed { IfOk result (IsAllowed (progress_of machine.old).asks) }
    ensures follows { IfOk result (λ round. IfSome (X.told reactor.old) (λ _. IsRound
        (exchange_at (progress_of machine.old) held.old.bytes (X.told reactor.old) stream)
        (exchange_at (progress_of machine.new) held.new.bytes (X.told reactor.new) stream) round)) }
    ensures smaller { IfOk result (λ round.
        round ≡ StreamRound.GoesOn →
        pieces_left (progress_of machine.new) held.new.bytes
        < pieces_left (progress_of machine.old) held.old.bytes) }
    ensures after_last { IsTrue (X.state reactor.old).last →
        IfOk result (λ round. round ≢ StreamRound.Stays) }
{
    let moved = read_piece(reactor, stream, buffer, most)?;
    if let Moved::NotYet = moved {
        return Ok(StreamRound::Stays);
    }
    keep_piece(machine, moved, held, buffer);
    Ok(round_of(machine.got(moved)))
}

/// One step of a read.
fn read_once<X: Reactor>(
    machine: &mut Machine,
    held: &mut HeldBytes,
    buffer: &mut [u8],
    stream: StreamNo,
    reactor: &mut X,
) -> Result<StreamRound, Failed>
    requires servable { IsServable (X.state reactor.old) (X.told reactor.old) stream }
    requires may_read { MayRead (length buffer.old) held.old (progress_of machine.old) }
    requires gathered { IfSome (X.told reactor.old) (λ _.
        IsGathered (progress_of machine.old).asks held.old.bytes
        (told_stream (X.told reactor.old) stream)) }
    ensures keeps { X.state reactor.new ≡ X.state reactor.old }
    ensures counts { CountsFaults result (X.faults reactor.old) (X.faults reactor.new) }
    ensures later { X.faults reactor.old ≤ X.faults reactor.new }
    ensures tells { tells (X.told reactor.new) ≡ tells (X.told reactor.old) }
    ensures room { held.new.room ≡ held.old.room }
    ensures told { OnOk result (ChangesOne stream (X.told reactor.old) (X.told reactor.new)) }
    ensures asks { (progress_of machine.new).asks ≡ (progress_of machine.old).asks }
    ensures reads { IfOk result (λ round.
        IsOpenStill round → MayRead (length buffer.old) held.new (progress_of machine.new)) }
    ensures allowed { IfOk result (IsAllowed (progress_of machine.old).asks) }
    ensures follows { IfOk result (λ round. IfSome (X.told reactor.old) (λ _. IsRound
        (exchange_at (progress_of machine.old) held.old.bytes (X.told reactor.old) stream)
        (exchange_at (progress_of machine.new) held.new.bytes (X.told reactor.new) stream) round)) }
    ensures smaller { IfOk result (λ round.
        round ≡ StreamRound.GoesOn →
        pieces_left (progress_of machine.new) held.new.bytes
        < pieces_left (progress_of machine.old) held.old.bytes) }
    ensures after_last { IsTrue (X.state reactor.old).last →
        IfOk result (λ round. round ≢ StreamRound.Stays) }
    ensures gathered { IfOk result (λ round.
        round ≡ StreamRound.GoesOn →
        IfSome (X.told reactor.old) (λ _.
        IsGathered (progress_of machine.new).asks held.new.bytes
        (told_stream (X.told reactor.new) stream))) }
{
    match machine.want(held.as_slice()) {
        Want::Held(count) => {
            held.consume(count as usize);
            Ok(round_of(machine.got(Moved::Took(count))))
        }
        Want::Read(most) => read_more(machine, most, held, buffer, stream, reactor),
        Want::Finish { code, size } => {
            held.consume(size as usize);
            Ok(StreamRound::Completes { code, size })
        }
        Want::Write { .. } => unreachable!(),
    }
}

/// A read of some bytes gives all that is there: what has arrived is moved behind the bytes that
/// are held.
fn gather<X: Reactor>(
    machine: &Machine,
    held: &mut HeldBytes,
    buffer: &mut [u8],
    stream: StreamNo,
    reactor: &mut X,
) -> Result<(), Failed>
    requires servable { IsServable (X.state reactor.old) (X.told reactor.old) stream }
    requires may_read { MayRead (length buffer.old) held.old (progress_of machine.now) }
    ensures keeps { X.state reactor.new ≡ X.state reactor.old }
    ensures counts { CountsFaults result (X.faults reactor.old) (X.faults reactor.new) }
    ensures later { X.faults reactor.old ≤ X.faults reactor.new }
    ensures tells { tells (X.told reactor.new) ≡ tells (X.told reactor.old) }
    ensures room { held.new.room ≡ held.old.room }
    ensures told { OnOk result (ChangesOne stream (X.told reactor.old) (X.told reactor.new)) }
    ensures reads { OnOk result (MayRead (length buffer.old) held.new (progress_of machine.now)) }
    ensures same { OnOk result (IfSome (X.told reactor.old) (λ _.
        course_of
        (exchange_at (progress_of machine.now) held.new.bytes (X.told reactor.new) stream)
        ≡ course_of (exchange_at (progress_of machine.now) held.old.bytes (X.told reactor.old)
        stream))) }
    ensures gathered { OnOk result (IfSome (X.told reactor.old) (λ _.
        IsGathered (progress_of machine.now).asks held.new.bytes
        (told_stream (X.told reactor.new) stream))) }
{
    match *machine {
        Machine::ReadSome { size, .. } if held.len() > 0 => {
            fill(size, held, buffer, stream, reactor)
        }
        _ => Ok(()),
    }
}

/// Serves a read until it completes, with its code and size, or nothing is there for it.
pub(crate) fn serve_read<X: Reactor>(
    machine: &mut Machine,
    held: &mut HeldBytes,
    buffer: &mut [u8],
    stream: StreamNo,
    reactor: &mut X,
) -> Result<Option<(Code, u32)>, Failed>
    requires servable { IsServable (X.state reactor.old) (X.told reactor.old) stream }
    requires may_read { MayRead (length buffer.old) held.old (progress_of machine.old) }
    ensures keeps { X.state reactor.new ≡ X.state reactor.old }
    ensures counts { CountsFaults result (X.faults reactor.old) (X.faults reactor.new) }
    ensures later { X.faults reactor.old ≤ X.faults reactor.new }
    ensures tells { tells (X.told reactor.new) ≡ tells (X.told reactor.old) }
    ensures room { held.new.room ≡ held.old.room }
    ensures told { OnOk result (ChangesOne stream (X.told reactor.old) (X.told reactor.new)) }
    ensures asks { (progress_of machine.new).asks ≡ (progress_of machine.old).asks }
    ensures reads { IfOk result (λ outcome.
        IfNone outcome (MayRead (length buffer.old) held.new (progress_of machine.new))) }
    ensures allowed { IfOk result (λ outcome. IfSome outcome
        (λ given. may_give (progress_of machine.old).asks given.0 given.1 ≡ true)) }
    ensures follows { IfOk result (λ outcome.
        IfSome (X.told reactor.old) (λ _.
        Ends
        (exchange_at (progress_of machine.old) held.old.bytes (X.told reactor.old) stream)
        (exchange_at (progress_of machine.new) held.new.bytes (X.told reactor.new) stream)
        outcome)) }
    ensures after_last { IsTrue (X.state reactor.old).last → IfOk result IsSome }
{
    gather(machine, held, buffer, stream, reactor)?;
    'rounds: loop {
        match read_once(machine, held, buffer, stream, reactor)? {
            StreamRound::GoesOn => {}
            StreamRound::Stays => return Ok(None),
            StreamRound::Completes { code, size } => return Ok(Some((code, size))),
        }
    }
}
