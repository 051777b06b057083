ghost use Rattle.std.specs.Prelude.{◌≡◌, ◌<◌, ◌^◌, ℕ, IfOk, length};
ghost use Rattle.std.specs.List.{slice_index_or};
ghost use Rattle.history_rules.specs.Kinds.{stream_of};
ghost use Rattle.history_book.specs.QueueRoom.{ops_on, with_one_more};

use asio_types::{NoMemory, StreamNo};
use session_script::{Act, Script};
use std::alloc::Global;

/// The stream that an operation reads from or writes to, if any.
fn stream_of(act: &Act) -> Option<StreamNo>
    ensures { result ≡ stream_of act.now }
{
    match act {
        Act::ReadSome { stream, .. } => Some(*stream),
        Act::ReadAll { stream, .. } => Some(*stream),
        Act::Until { stream, .. } => Some(*stream),
        Act::WriteSome { stream, .. } => Some(*stream),
        Act::WriteAll { stream, .. } => Some(*stream),
        _ => None,
    }
}

/// One more operation of this stream.
fn count_one(counts: &mut Vec<usize>, stream: Option<StreamNo>)
    requires { (place : ℕ) → place < length counts.old.items →
        slice_index_or counts.old.items place 0 < 2 ^ 32 }
    ensures { counts.new.items ≡ with_one_more stream counts.old.items }
{
    let Some(stream) = stream else {
        return;
    };
    let Some(count) = counts.get_mut(stream as usize) else {
        return;
    };
    *count += 1;
}

/// For each stream how many operations the script has on it. Looks at each act once.
pub(crate) fn rooms_of(alloc: Global, script: &Script, streams: u8) -> Result<Vec<usize>, NoMemory>
    ensures count { IfOk result (λ rooms. length rooms.items ≡ streams) }
    ensures each { IfOk result (λ rooms.
        (stream : ℕ) → stream < streams →
        slice_index_or rooms.items stream 0 ≡ ops_on script.now stream) }
{
    let mut rooms = vec![in alloc; 0usize; streams as usize]?;
    for act in 0..script.acts() {
        count_one(&mut rooms, stream_of(script.act(act)));
    }
    Ok(rooms)
}
