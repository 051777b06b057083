ghost use Rattle.std.specs.Prelude.{◌≡◌, ◌<◌, ◌+◌, ◌^◌, ℕ, [], All, IfOk, if◌then◌else◌, length, map, replicate, slice_index_or};
ghost use Rattle.std.specs.VecDeque.{deque_capacity, deque_items};
ghost use Rattle.proactor_core.specs.Rooms.{acts_below, waits_for};

use asio_types::{NoMemory, OpNo};
use session_script::{Act, Script};
use std::alloc::Global;
use std::collections::VecDeque;

/// For each timer how many waits the script has for it.
pub(crate) fn wait_counts(alloc: Global, script: &Script) -> Result<Vec<u32>, NoMemory>
    ensures timers { IfOk result (λ counts. length counts.items ≡ script.now.timers) }
    ensures counts { IfOk result (λ counts.
        (timer : ℕ) → timer < script.now.timers →
        slice_index_or counts.items timer 0
        ≡ acts_below (waits_for timer) script.now (length script.now.acts)) }
{
    let mut counts = vec![in alloc; 0u32; script.timers() as usize]?;
    for a in 0..script.acts() {
        count_wait(script.act(a), counts.as_mut_slice());
    }
    Ok(counts)
}

/// Counts a wait at its timer.
fn count_wait(act: &Act, counts: &mut [u32])
    requires { All (λ count. count + 1 < 2 ^ 32) counts.old }
    ensures { (timer : ℕ) → timer < length counts.old →
        slice_index_or counts.new timer 0
        ≡ slice_index_or counts.old timer 0 + (if waits_for timer act.now then 1 else 0) }
{
    if let Act::Wait { timer, .. } = act {
        let at = *timer as usize;
        if at < counts.len() {
            counts[at] += 1;
        }
    }
}

/// Empty queues, with room for so many operations each.
pub(crate) fn queues_with_room(
    alloc: Global,
    rooms: &[u32],
) -> Result<Vec<VecDeque<OpNo>>, NoMemory>
    ensures empty { IfOk result
        (λ queues. map deque_items queues.items ≡ replicate (length rooms.now) []) }
    ensures rooms { IfOk result (λ queues. map deque_capacity queues.items ≡ rooms.now) }
{
    let mut queues = Vec::with_capacity(alloc, rooms.len())?;
    for room in rooms {
        queues.push(VecDeque::with_capacity(alloc, *room as usize)?)?;
    }
    Ok(queues)
}
