ghost use Rattle.std.specs.Prelude.{◌≡◌, ◌<◌, ◌≤◌, ◌+◌, ◌^◌, ℕ, Some, All, IfOk, if◌then◌else◌, length, max, slice_index_or};
ghost use Rattle.session_script.specs.Script.{act_of};
ghost use Rattle.session_script.specs.declared.act.Act.{Act as act};
ghost use Rattle.proactor_core.specs.Rooms.{acts_below};
ghost use Rattle.proactor_core.specs.StreamRooms.{is_on_side, bytes_asked_at, size_in, stream_on};

use asio_types::{NoMemory, StreamNo};
use session_script::{Act, Script};
use std::alloc::Global;

/// One of the two sides of a stream.
#[derive(Clone, Copy, Debug)]
pub(crate) enum StreamSide {
    Reads,
    Writes,
}

/// The stream that an act reads, or writes.
fn stream_on(side: StreamSide, act: &Act) -> Option<StreamNo>
    ensures { result ≡ stream_on side act.now }
{
    match (side, act) {
        (StreamSide::Reads, Act::ReadSome { stream, .. })
        | (StreamSide::Reads, Act::ReadAll { stream, .. })
        | (StreamSide::Reads, Act::Until { stream, .. })
        | (StreamSide::Writes, Act::WriteSome { stream, .. })
        | (StreamSide::Writes, Act::WriteAll { stream, .. }) => Some(*stream),
        _ => None,
    }
}

/// Counts an operation at its stream.
fn count_operation(side: StreamSide, act: &Act, counts: &mut [u32])
    requires { All (λ count. count + 1 < 2 ^ 32) counts.old }
    ensures { (stream : ℕ) → stream < length counts.old →
        slice_index_or counts.new stream 0
        ≡ slice_index_or counts.old stream 0 + (if is_on_side side stream act.now then 1 else 0) }
{
    if let Some(stream) = stream_on(side, act) {
        let at = stream as usize;
        if at < counts.len() {
            counts[at] += 1;
        }
    }
}

/// For each stream how many operations of one side the script has.
pub(crate) fn operation_counts(
    alloc: Global,
    side: StreamSide,
    script: &Script,
) -> Result<Vec<u32>, NoMemory>
    ensures streams { IfOk result (λ counts. length counts.items ≡ script.now.world.streams) }
    ensures counts { IfOk result (λ counts.
        (stream : ℕ) → stream < script.now.world.streams →
        slice_index_or counts.items stream 0
        ≡ acts_below (is_on_side side stream) script.now (length script.now.acts)) }
{
    let mut counts = vec![in alloc; 0u32; script.world().streams as usize]?;
    for a in 0..script.acts() {
        count_operation(side, script.act(a), counts.as_mut_slice());
    }
    Ok(counts)
}

/// The stream that an act reads, with the most bytes that it reads of it.
fn size_read(act: &Act) -> Option<(StreamNo, u32)>
    ensures { (stream : ℕ) → bytes_asked_at stream act.now ≡ size_in stream result }
{
    match act {
        Act::ReadSome { stream, size, .. } | Act::ReadAll { stream, size, .. } => {
            Some((*stream, *size))
        }
        Act::Until { stream, max, .. } => Some((*stream, *max)),
        _ => None,
    }
}

/// Makes room for an act at its stream.
fn widen(act: &Act, sizes: &mut [u32])
    ensures { (stream : ℕ) → stream < length sizes.old →
        slice_index_or sizes.new stream 0
        ≡ max (slice_index_or sizes.old stream 0) (bytes_asked_at stream act.now) }
{
    if let Some((stream, size)) = size_read(act) {
        let at = stream as usize;
        if at < sizes.len() {
            sizes[at] = sizes[at].max(size);
        }
    }
}

/// For each stream the most bytes that a read of it asks for.
pub(crate) fn read_sizes(alloc: Global, script: &Script) -> Result<Vec<u32>, NoMemory>
    ensures streams { IfOk result (λ sizes. length sizes.items ≡ script.now.world.streams) }
    ensures sizes { IfOk result (λ sizes.
        (n stream : ℕ) (act : act) → stream < script.now.world.streams →
        act_of script.now n ≡ Some act →
        bytes_asked_at stream act ≤ slice_index_or sizes.items stream 0) }
{
    let mut sizes = vec![in alloc; 0u32; script.world().streams as usize]?;
    for a in 0..script.acts() {
        widen(script.act(a), sizes.as_mut_slice());
    }
    Ok(sizes)
}
