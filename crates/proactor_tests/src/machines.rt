//! Machines that are fed in every cutting into two; what each gives is written by hand.

ghost use Rattle.std.specs.Prelude.{◌≡◌, ◌≤◌, length, IfOk};
ghost use Rattle.composed_ops.specs.StreamOperation.{asking_of, IsSizedAct};
ghost use Rattle.composed_ops.specs.Machine.{progress_of};
ghost use Rattle.composed_ops.specs.Progress.{IsUnderWay};

use asio_types::{Bytes, Code, Moved, NoMemory, ReadMark, Types};
use composed_ops::{Machine, MachineStep, Want};
use session_script::Act;
use std::alloc::Global;

fn read_some(size: u32) -> Act
    requires { 1 ≤ size }
    ensures { IsSizedAct (asking_of result) }
{
    Act::ReadSome {
        stream: 0,
        size,
        strand: None,
        slot: None,
        filter: Types::all(),
    }
}

fn read_all(size: u32) -> Act
    requires { 1 ≤ size }
    ensures { IsSizedAct (asking_of result) }
{
    Act::ReadAll {
        stream: 0,
        size,
        strand: None,
        slot: None,
        filter: Types::all(),
    }
}

fn until(alloc: Global, delimiter: &[u8], max: u32) -> Result<Act, NoMemory>
    requires { 1 ≤ max }
    ensures { IfOk result (λ act. IsSizedAct (asking_of act)) }
{
    Ok(Act::Until {
        stream: 0,
        delimiter: Bytes::from_slice(alloc, delimiter)?,
        max,
        strand: None,
        slot: None,
        filter: Types::all(),
    })
}

fn write_some(alloc: Global, bytes: &[u8; 3]) -> Result<Act, NoMemory>
    ensures { IfOk result (λ act. IsSizedAct (asking_of act)) }
{
    Ok(Act::WriteSome {
        stream: 0,
        bytes: Bytes::from_slice(alloc, bytes)?,
        strand: None,
        slot: None,
        filter: Types::all(),
    })
}

fn write_all(alloc: Global, bytes: &[u8; 4]) -> Result<Act, NoMemory>
    ensures { IfOk result (λ act. IsSizedAct (asking_of act)) }
{
    Ok(Act::WriteAll {
        stream: 0,
        bytes: Bytes::from_slice(alloc, bytes)?,
        strand: None,
        slot: None,
        filter: Types::all(),
    })
}

/// One step of a machine that holds no bytes, where so many are there, or so much room.
fn step(machine: &mut Machine, there: u32) -> MachineStep
    requires under_way { IsUnderWay (progress_of machine.old) }
    ensures under_way { result ≡ MachineStep.Again → IsUnderWay (progress_of machine.new) }
{
    match machine.want(&[]) {
        Want::Read(most) | Want::Write { count: most, .. } if there > 0 => {
            machine.got(Moved::Took(most.min(there)))
        }
        _ => machine.got(Moved::NotYet),
    }
}

/// The step by a mark, if there is one.
fn ended(machine: &mut Machine, mark: Option<ReadMark>) -> MachineStep
    requires { IsUnderWay (progress_of machine.old) }
{
    match mark {
        None => machine.got(Moved::NotYet),
        Some(ReadMark::Eof) => machine.got(Moved::End),
        Some(ReadMark::Reset) => machine.got(Moved::Reset),
    }
}

fn outcome(step: MachineStep) -> Option<(Code, u32)> {
    match step {
        MachineStep::Again => None,
        MachineStep::Done { code, size } => Some((code, size)),
    }
}

/// How an operation completes to which so many bytes or so much room come, and later so much more
/// and the mark.
fn fed(act: &Act, first: u32, second: u32, mark: Option<ReadMark>) -> Option<(Code, u32)>
    requires { IsSizedAct (asking_of act.now) }
{
    let mut machine = Machine::of(act)?;
    let mut taken = step(&mut machine, first);
    if taken == MachineStep::Again {
        taken = step(&mut machine, second);
    }
    if taken == MachineStep::Again {
        taken = ended(&mut machine, mark);
    }
    outcome(taken)
}

/// Whether it completes like this in every cutting into two.
fn fed_alike(act: &Act, there: u32, mark: Option<ReadMark>, wanted: Option<(Code, u32)>) -> bool
    requires { IsSizedAct (asking_of act.now) }
{
    for cut in 0..=there {
        if fed(act, cut, there - cut, mark) != wanted {
            return false;
        }
    }
    true
}

/// How a read until a delimiter completes whose first bytes are held and whose others come in one
/// piece, and then the mark; and how many bytes it leaves.
fn searched(
    alloc: Global,
    act: &Act,
    bytes: &[u8],
    cut: usize,
    mark: Option<ReadMark>,
) -> Result<Option<(Code, u32)>, NoMemory>
    requires sized { IsSizedAct (asking_of act.now) }
    requires cut { cut ≤ length bytes.now }
{
    let Some(mut machine) = Machine::of(act) else {
        return Ok(None);
    };
    let mut held = Vec::from_slice(alloc, &bytes[..cut])?;
    let piece = &bytes[cut..];
    let more = match machine.want(held.as_slice()) {
        Want::Finish { code, size } => return Ok(Some((code, size))),
        Want::Read(most) if !piece.is_empty() && piece.len() <= most as usize => piece.len() as u32,
        _ => return Ok(outcome(ended(&mut machine, mark))),
    };
    held.extend_from_slice(piece)?;
    if machine.got(Moved::Took(more)) != MachineStep::Again {
        return Ok(None);
    }
    match machine.want(held.as_slice()) {
        Want::Finish { code, size } => Ok(Some((code, size))),
        _ => Ok(outcome(ended(&mut machine, mark))),
    }
}

/// Whether it completes like this in every cutting into two.
fn searched_alike(
    alloc: Global,
    act: &Act,
    bytes: &[u8],
    mark: Option<ReadMark>,
    wanted: Option<(Code, u32)>,
) -> Result<bool, NoMemory>
    requires { IsSizedAct (asking_of act.now) }
{
    for cut in 0..=bytes.len() {
        if searched(alloc, act, bytes, cut, mark)? != wanted {
            return Ok(false);
        }
    }
    Ok(true)
}

#[test]
fn composed_reads_and_writes_complete_alike_in_every_cutting(
    rt: HostRuntime,
) -> Result<(), NoMemory> {
    let (eof, reset) = (Some(ReadMark::Eof), Some(ReadMark::Reset));
    assert!(rt; fed_alike(&read_all(2), 2, None, Some((Code::Ok, 2))));
    assert!(rt; fed_alike(&read_all(10), 10, None, Some((Code::Ok, 10))));
    assert!(rt; fed_alike(&read_all(10), 4, eof, Some((Code::Eof, 4))));
    assert!(rt; fed_alike(&read_all(10), 4, reset, Some((Code::Reset, 4))));
    let write = write_all(rt.alloc(), b"abcd")?;
    assert!(rt; fed_alike(&write, 11, None, Some((Code::Ok, 4))));
    assert!(rt; fed_alike(&write, 2, eof, Some((Code::Broken, 2))));
    assert!(rt; fed_alike(&write, 3, reset, Some((Code::Reset, 3))));
    assert!(rt; fed_alike(&write, 3, None, None));
    Ok(())
}

#[test]
fn reads_until_a_delimiter_complete_alike_in_every_cutting(
    rt: HostRuntime,
) -> Result<(), NoMemory> {
    let alloc = rt.alloc();
    let line = until(alloc, b"\r\n", 64)?;
    let short = until(alloc, b"\n", 4)?;
    let found = Some((Code::Ok, 4));
    assert!(rt; searched_alike(alloc, &line, b"ab\r\ncd\r\n", None, found)?);
    assert!(rt; searched_alike(alloc, &short, b"abc\n", None, found)?);
    assert!(rt; searched_alike(alloc, &short, b"hi\n", None, Some((Code::Ok, 3)))?);
    assert!(rt; searched_alike(alloc, &short, b"abcd", None, Some((Code::NotFound, 0)))?);
    assert!(rt;
        searched_alike(
            alloc,
            &short,
            b"abc",
            Some(ReadMark::Eof),
            Some((Code::Eof, 0))
        )?
    );
    assert!(rt; searched_alike(alloc, &short, b"abc", None, None)?);
    Ok(())
}

#[test]
fn what_is_there_is_enough_for_some(rt: HostRuntime) -> Result<(), NoMemory> {
    let (eof, reset) = (Some(ReadMark::Eof), Some(ReadMark::Reset));
    assert_eq!(rt; fed(&read_some(2), 0, 3, None), Some((Code::Ok, 2)));
    assert_eq!(rt; fed(&read_some(2), 1, 2, None), Some((Code::Ok, 1)));
    assert_eq!(rt; fed(&read_some(4), 0, 0, eof), Some((Code::Eof, 0)));
    assert_eq!(rt; fed(&read_some(4), 0, 0, reset), Some((Code::Reset, 0)));
    let write = write_some(rt.alloc(), b"abc")?;
    assert_eq!(rt; fed(&write, 2, 0, None), Some((Code::Ok, 2)));
    assert_eq!(rt; fed(&write, 0, 0, eof), Some((Code::Broken, 0)));
    Ok(())
}

#[test]
fn held_bytes_are_consumed_first(rt: HostRuntime) {
    let act = read_all(10);
    if let Some(mut machine) = Machine::of(&act) {
        assert_eq!(rt; machine.want(b"cd\r\n"), Want::Held(4));
        assert_eq!(rt; machine.got(Moved::Took(4)), MachineStep::Again);
        assert_eq!(rt; machine.want(b""), Want::Read(6));
        assert_eq!(rt; machine.abort(), 4);
    }
    assert!(rt; Machine::of(&Act::Stop).is_none());
}
