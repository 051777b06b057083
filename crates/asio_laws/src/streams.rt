use crate::cancelling::stream_of;
use crate::rows::Row;
use asio_types::{Code, Event, NoMemory, StreamNo, What};
use session_script::{Act, Script};
use std::alloc::Global;

/// What a stream was given so far, and how much of it its operations have used up.
#[derive(Drop)]
struct Given {
    fed: Vec<u8>,
    read: usize,
    room: u64,
    written: u64,
}

/// The lines of this time for the stream.
fn give(given: &mut Given, script: &Script, stream: StreamNo, time: u64) -> Result<(), NoMemory> {
    for line in script.world().lines.as_slice() {
        if line.time == time && line.stream == stream {
            match &line.what {
                What::Feed(bytes) => given.fed.extend_from_slice(bytes.as_slice())?,
                What::Room(count) => given.room = given.room.saturating_add(u64::from(*count)),
                What::End | What::Reset => {}
            }
        }
    }
    Ok(())
}

/// Whether the delimiter ends behind so many of these bytes.
fn ends_at(bytes: &[u8], end: usize, delimiter: &[u8]) -> bool {
    end <= bytes.len() && bytes[..end].ends_with(delimiter)
}

/// Whether a read may take so many of the bytes that are left.
fn may_read(act: &Act, left: &[u8], code: Code, size: usize) -> bool {
    let fits = size <= left.len();
    match act {
        Act::Until { delimiter, .. } if code == Code::Ok => {
            let found = delimiter.as_slice();
            fits && ends_at(left, size, found) && !(0..size).any(|end| ends_at(left, end, found))
        }
        Act::ReadAll { size: all, .. } if code == Code::Ok => fits && size == *all as usize,
        _ => fits,
    }
}

/// Whether a write may have sent so much.
fn may_write(act: &Act, code: Code, size: usize) -> bool {
    match act {
        Act::WriteAll { bytes, .. } if code == Code::Ok => size == bytes.as_slice().len(),
        Act::WriteAll { bytes, .. } | Act::WriteSome { bytes, .. } => {
            size <= bytes.as_slice().len()
        }
        _ => false,
    }
}

/// Uses up what an operation reports, if it may.
fn complete(given: &mut Given, act: &Act, code: Code, size: u32) -> bool {
    if matches!(act, Act::WriteSome { .. } | Act::WriteAll { .. }) {
        given.written = given.written.saturating_add(u64::from(size));
        return may_write(act, code, size as usize) && given.written <= given.room;
    }
    let read = given.read.min(given.fed.len());
    let may = may_read(act, &given.fed.as_slice()[read..], code, size as usize);
    given.read = read.saturating_add(size as usize);
    may
}

/// Whether the operations of the stream moved no more than it was given, one behind the other.
fn keeps_bytes(
    alloc: Global,
    script: &Script,
    rows: &[Row<'_>],
    events: &[Event],
    stream: StreamNo,
) -> Result<bool, NoMemory> {
    let mut given = Given {
        fed: Vec::new(alloc),
        read: 0,
        room: 0,
        written: 0,
    };
    give(&mut given, script, stream, 0)?;
    for event in events {
        match *event {
            Event::Tick { now } => give(&mut given, script, stream, now)?,
            Event::Done { op, code, size } => {
                if let Some(row) = rows.get(op as usize)
                    && stream_of(row.act) == Some(stream)
                    && !complete(&mut given, row.act, code, size)
                {
                    return Ok(false);
                }
            }
            _ => {}
        }
    }
    Ok(true)
}

/// The reads of a stream took, one behind the other, no more bytes than it was fed, and
/// its writes had room; each has the size that it asks for, or ends at its delimiter.
pub(crate) fn streams(
    alloc: Global,
    script: &Script,
    rows: &[Row<'_>],
    events: &[Event],
) -> Result<bool, NoMemory> {
    for stream in 0..script.world().streams {
        if !keeps_bytes(alloc, script, rows, events, stream)? {
            return Ok(false);
        }
    }
    Ok(true)
}
