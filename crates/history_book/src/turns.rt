ghost use Rattle.std.specs.Prelude.{◌≡◌, ◌+◌, ◌*◌, ◌<◌, ◌^◌, length};
ghost use Rattle.session_script.specs.Script.{act_of};
ghost use Rattle.history_rules.specs.Kinds.{slot_of};
ghost use Rattle.history_rules.specs.Performing.{performed, performed_by, with_taken};
ghost use Rattle.history_book.specs.QueueRoom.{HasPlace};
ghost use Rattle.history_rules.specs.Bounds.{stream_asked};
ghost use Rattle.history_rules.specs.Requests.{disconnected, reactor_after_done, reactor_after_take, slot_in, told_off};
ghost use Rattle.history_rules.specs.Settling.{AreDueTogether};
ghost use Rattle.history_rules.specs.Time.{at_last, at_time, next_time, pending_count, reactor_after_fault, reactor_after_last, reactor_after_tick};
ghost use Rattle.history_rules.specs.Untold.{gone, read_gone, write_gone};

use crate::reactor_half::ReactorWorks;
use asio_types::{ActNo, OpNo, Point, SlotNo, StreamNo};
use session_script::Act;

/// The slot that an operation is connected to, if any.
fn slot_of(act: &Act) -> Option<SlotNo>
    ensures { result ≡ slot_of act.now }
{
    match act {
        Act::Wait { slot, .. } => *slot,
        Act::ReadSome { slot, .. } => *slot,
        Act::ReadAll { slot, .. } => *slot,
        Act::Until { slot, .. } => *slot,
        Act::WriteSome { slot, .. } => *slot,
        Act::WriteAll { slot, .. } => *slot,
        _ => None,
    }
}

impl<'a> ReactorWorks<'a> {
    /// One more act was taken.
    fn mark_taken(&mut self, a: ActNo)
        requires { self.old.half.accepted < 2 ^ 31 }
        ensures { self.new ≡ record self.old { half = with_taken a self.old.half } }
    {
        self.accepted += 1;
        let Some(taken) = self.taken.get_mut(a as usize) else {
            return;
        };
        *taken = true;
    }

    /// The act is taken and performed, and what completes by it is due.
    pub(crate) fn take(&mut self, a: ActNo)
        requires there { a < length self.old.script.acts }
        requires place { HasPlace self.old.script self.old.half
            (stream_asked (act_of self.old.script a)) }
        requires room { pending_count self.old.half < length self.old.script.acts }
        requires soon { self.old.half.now < 2 ^ 63 }
        requires accepted { self.old.half.accepted < 2 ^ 31 }
        requires same { (performed_by self.old.script a (act_of self.old.script a)
            self.old.half).accepted ≡ self.old.half.accepted }
        requires together { AreDueTogether (performed self.old.script a self.old.half) }
        ensures { self.new
            ≡ record self.old
            { half = reactor_after_take self.old.script self.old.told self.old.half a } }
    {
        self.perform(a);
        self.mark_taken(a);
        self.settle();
    }

    /// Time moves to the next time point, which is this.
    pub(crate) fn tick(&mut self, now: u64)
        requires next { next_time self.old.script self.old.half ≡ Point.Time now }
        requires together { AreDueTogether
            (at_time self.old.script self.old.told now self.old.half) }
        ensures { self.new
            ≡ record self.old
            { half = reactor_after_tick self.old.script self.old.told self.old.half now } }
    {
        let limit = self.next_expiry();
        self.world.tick(limit, now);
        self.settle();
    }

    /// The last time point has passed.
    pub(crate) fn end(&mut self)
        requires { AreDueTogether (at_last self.old.told self.old.half) }
        ensures { self.new
            ≡ record self.old { half = reactor_after_last self.old.told self.old.half } }
    {
        self.world.end();
        self.last = true;
        self.settle();
    }

    /// The reactor fails.
    pub(crate) fn fault(&mut self)
        ensures { self.new ≡ record self.old { half = reactor_after_fault self.old.half } }
    {
        self.failed = true;
        self.due.clear();
    }

    fn read_gone(&mut self, stream: StreamNo)
        ensures { self.new ≡ record self.old { half = read_gone stream self.old.half } }
    {
        self.reached = 2 * stream as u32;
        let Some(queues) = self.queues.get_mut(stream as usize) else {
            return;
        };
        queues.reads.pop_front();
    }

    fn write_gone(&mut self, stream: StreamNo)
        ensures { self.new ≡ record self.old { half = write_gone stream self.old.half } }
    {
        self.reached = 2 * stream as u32 + 1;
        let Some(queues) = self.queues.get_mut(stream as usize) else {
            return;
        };
        queues.writes.pop_front();
    }

    /// The head of a queue has completed where bytes are untold.
    fn give(&mut self, o: OpNo)
        ensures { self.new
            ≡ record self.old { half = gone (act_of self.old.script o) self.old.half } }
    {
        let script = self.script;
        if o >= script.acts() {
            return;
        }
        match script.act(o) {
            Act::ReadSome { stream, .. } => self.read_gone(*stream),
            Act::ReadAll { stream, .. } => self.read_gone(*stream),
            Act::Until { stream, .. } => self.read_gone(*stream),
            Act::WriteSome { stream, .. } => self.write_gone(*stream),
            Act::WriteAll { stream, .. } => self.write_gone(*stream),
            _ => {}
        }
    }

    /// An operation leaves what is due, or where nothing was due the queue of its stream.
    fn tell_off(&mut self, o: OpNo)
        ensures { self.new
            ≡ record self.old
            { half = told_off self.old.script o self.old.half self.old.half.due } }
    {
        if self.due.is_empty() {
            self.give(o);
        } else {
            self.due.remove(0);
        }
    }

    fn slot_in(&self, o: OpNo) -> Option<SlotNo>
        ensures { result ≡ slot_in (act_of self.now.script o) }
    {
        if o >= self.script.acts() {
            return None;
        }
        slot_of(self.script.act(o))
    }

    /// The operation leaves its slot, unless another has replaced it there.
    fn disconnect(&mut self, o: OpNo, slot: Option<SlotNo>)
        ensures { self.new ≡ record self.old { half = disconnected o slot self.old.half } }
    {
        let Some(slot) = slot else {
            return;
        };
        let Some(connected) = self.slots.get_mut(slot as usize) else {
            return;
        };
        if *connected == Some(o) {
            *connected = None;
        }
    }

    /// The operation has completed, and that was told.
    pub(crate) fn done(&mut self, o: OpNo)
        ensures { self.new
            ≡ record self.old { half = reactor_after_done self.old.script self.old.half o } }
    {
        let slot = self.slot_in(o);
        self.tell_off(o);
        self.whole_turn = false;
        self.disconnect(o, slot);
    }
}
