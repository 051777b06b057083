ghost use Rattle.std.specs.Prelude.{◌≡◌, ◌<◌, All, IfOk, IfSome, length, map, replicate};
ghost use Rattle.stream_rules.specs.Stream.{new_stream};
ghost use Rattle.stream_rules.specs.World.{lines_at, perform_lines, streams_at_last};
ghost use Rattle.stream_rules.specs.Pipes.{fed, fed_to, room_to, roomed, pipe_stream, HasRoom, IsMarked, KeepsRoom, UsesRoom};

use crate::pipe::Pipe;
use crate::schedule::Schedule;
use asio_types::{Line, NoMemory, StreamNo, What};
use std::alloc::Global;

/// The bytes that a line brings, where 32 bits count them.
fn bytes_in(what: &What) -> Option<u32>
    ensures { IfSome result (λ bytes. bytes ≡ fed what.now) }
{
    match what {
        What::Feed(bytes) => u32::try_from(bytes.as_slice().len()).ok(),
        _ => Some(0),
    }
}

fn room_in(what: &What) -> u32
    ensures { result ≡ roomed what.now }
{
    match what {
        What::Room(count) => *count,
        _ => 0,
    }
}

/// The bytes that these lines bring to a stream, where 32 bits count them.
fn bytes_to(stream: StreamNo, lines: &[Line]) -> Option<u32>
    ensures { IfSome result (λ bytes. bytes ≡ fed_to stream lines.now) }
{
    let mut bytes: u32 = 0;
    for line in lines {
        if line.stream == stream {
            let more = bytes_in(&line.what)?;
            bytes = bytes.checked_add(more)?;
        }
    }
    Some(bytes)
}

/// The room that these lines bring to a stream, where 32 bits count it.
fn room_to(stream: StreamNo, lines: &[Line]) -> Option<u32>
    ensures { IfSome result (λ room. room ≡ room_to stream lines.now) }
{
    let mut room: u32 = 0;
    for line in lines {
        if line.stream == stream {
            room = room.checked_add(room_in(&line.what))?;
        }
    }
    Some(room)
}

fn pipe_for(alloc: Global, stream: StreamNo, lines: &[Line]) -> Result<Pipe, NoMemory>
    ensures stream { IfOk result (λ pipe. pipe_stream pipe ≡ new_stream) }
    ensures bytes { IfOk result (λ pipe. pipe.inbound.left ≡ fed_to stream lines.now) }
    ensures room { IfOk result (λ pipe. pipe.outbound.left ≡ room_to stream lines.now) }
{
    match (bytes_to(stream, lines), room_to(stream, lines)) {
        (Some(bytes), Some(room)) => Pipe::make(alloc, bytes, room),
        _ => Err(NoMemory),
    }
}

/// New streams, each with memory for all that these lines bring to it. Goes through the lines twice
/// for each stream.
pub fn pipes_for(alloc: Global, streams: u8, lines: &[Line]) -> Result<Vec<Pipe>, NoMemory>
    ensures streams { IfOk result
        (λ pipes. map pipe_stream pipes.items ≡ replicate streams new_stream) }
    ensures room { IfOk result (λ pipes. HasRoom lines.now pipes.items) }
{
    let mut pipes = Vec::with_capacity(alloc, streams as usize)?;
    for stream in 0..streams {
        pipes.push(pipe_for(alloc, stream, lines)?)?;
    }
    Ok(pipes)
}

/// Performs the lines that are due. Costs what they bring.
pub fn perform_due(schedule: &Schedule, pipes: &mut [Pipe])
    requires within { All (λ line. line.stream < length pipes.old)
        (lines_at schedule.now.time schedule.now.lines) }
    requires room { HasRoom (lines_at schedule.now.time schedule.now.lines) pipes.old }
    ensures streams { map pipe_stream pipes.new
        ≡ perform_lines (lines_at schedule.now.time schedule.now.lines)
        (map pipe_stream pipes.old) }
    ensures room { UsesRoom (lines_at schedule.now.time schedule.now.lines) pipes.old pipes.new }
    ensures marked { All IsMarked pipes.old → All IsMarked pipes.new }
{
    for number in 0..schedule.due_count() {
        let line = schedule.due_line(number);
        let pipe = &mut pipes[line.stream as usize];
        pipe.perform(&line.what);
    }
}

/// No further time point exists.
pub fn mark_last(pipes: &mut [Pipe])
    ensures streams { map pipe_stream pipes.new ≡ streams_at_last (map pipe_stream pipes.old) }
    ensures room { KeepsRoom pipes.old pipes.new }
    ensures marked { All IsMarked pipes.new }
{
    for pipe in pipes.iter_mut() {
        pipe.mark_last();
    }
}
