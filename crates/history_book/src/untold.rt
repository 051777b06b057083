ghost use Rattle.std.specs.Prelude.{◌≡◌, ◌↔◌, IsTrue, Some};
ghost use Rattle.session_script.specs.Script.{act_of};
ghost use Rattle.history_rules.specs.Performing.{queues_at};
ghost use Rattle.history_rules.specs.Requests.{IsNextDue};
ghost use Rattle.history_rules.specs.Untold.{head_of, is_read_mark, is_write_mark, may_give_all, may_give_read, may_give_some, may_give_until, may_give_write, may_have_moved, reading_place, writing_place, IsToldAs, MayGive, MayGiveUntold};

use crate::reactor_half::ReactorWorks;
use asio_types::{Code, OpNo, StreamNo};
use session_script::Act;

fn is_read_mark(code: Code) -> bool
    ensures { result ≡ is_read_mark code }
{
    matches!(code, Code::Eof | Code::Reset)
}

fn is_write_mark(code: Code) -> bool
    ensures { result ≡ is_write_mark code }
{
    matches!(code, Code::Broken | Code::Reset)
}

fn may_read_some(most: u32, code: Code, size: u32) -> bool
    ensures { result ≡ may_give_some most is_read_mark code size }
{
    match code {
        Code::Ok => 1 <= size && size <= most,
        _ => is_read_mark(code) && size == 0,
    }
}

fn may_write_some(most: usize, code: Code, size: u32) -> bool
    ensures { result ≡ may_give_some most is_write_mark code size }
{
    match code {
        Code::Ok => 1 <= size && size as usize <= most,
        _ => is_write_mark(code) && size == 0,
    }
}

fn may_read_all(all: u32, code: Code, size: u32) -> bool
    ensures { result ≡ may_give_all all is_read_mark code size }
{
    match code {
        Code::Ok => size == all,
        _ => is_read_mark(code) && size < all,
    }
}

fn may_write_all(all: usize, code: Code, size: u32) -> bool
    ensures { result ≡ may_give_all all is_write_mark code size }
{
    match code {
        Code::Ok => size as usize == all,
        _ => is_write_mark(code) && (size as usize) < all,
    }
}

fn may_read_until(least: usize, most: u32, code: Code, size: u32) -> bool
    ensures { result ≡ may_give_until least most code size }
{
    match code {
        Code::Ok => least <= size as usize && size <= most,
        Code::NotFound => size == 0,
        _ => is_read_mark(code) && size == 0,
    }
}

/// A composed operation that was cancelled may have moved any part of its bytes.
fn may_have_moved(act: &Act, code: Code, size: u32, moved: u32) -> bool
    ensures { result ≡ may_have_moved (Some act.now) code size moved }
{
    match (act, code) {
        (Act::ReadAll { size: all, .. }, Code::Aborted) => moved < *all,
        (Act::WriteAll { bytes, .. }, Code::Aborted) => (moved as usize) < bytes.as_slice().len(),
        _ => moved == size,
    }
}

impl<'a> ReactorWorks<'a> {
    fn read_head(&self, stream: StreamNo) -> Option<OpNo>
        ensures { result ≡ head_of (queues_at self.now.half stream).reads }
    {
        match self.queues.get(stream as usize) {
            Some(queues) => queues.reads.front().map(|queued| queued.op),
            None => None,
        }
    }

    fn write_head(&self, stream: StreamNo) -> Option<OpNo>
        ensures { result ≡ head_of (queues_at self.now.half stream).writes }
    {
        match self.queues.get(stream as usize) {
            Some(queues) => queues.writes.front().map(|queued| queued.op),
            None => None,
        }
    }

    fn may_give_read(&self, o: OpNo, stream: StreamNo, gives: bool) -> bool
        ensures { IsTrue result
            ↔ MayGive self.now.half o (reading_place stream)
            (head_of (queues_at self.now.half stream).reads) gives }
    {
        gives && self.reached <= 2 * stream as u32 && self.read_head(stream) == Some(o)
    }

    fn may_give_write(&self, o: OpNo, stream: StreamNo, gives: bool) -> bool
        ensures { IsTrue result
            ↔ MayGive self.now.half o (writing_place stream)
            (head_of (queues_at self.now.half stream).writes) gives }
    {
        gives && self.reached <= 2 * stream as u32 + 1 && self.write_head(stream) == Some(o)
    }

    /// Whether an operation of a stream may complete so where bytes are untold.
    pub(crate) fn may_give(&self, o: OpNo, code: Code, size: u32) -> bool
        ensures { IsTrue result
            ↔ MayGiveUntold self.now.half o (act_of self.now.script o) code size }
    {
        if o >= self.script.acts() {
            return false;
        }
        match self.script.act(o) {
            Act::ReadSome {
                stream,
                size: most,
                ..
            } => { self.may_give_read(o, *stream, may_read_some(*most, code, size)) }
            Act::ReadAll {
                stream,
                size: all,
                ..
            } => { self.may_give_read(o, *stream, may_read_all(*all, code, size)) }
            Act::Until {
                stream,
                delimiter,
                max,
                ..
            } => {
                let least = delimiter.as_slice().len();
                self.may_give_read(o, *stream, may_read_until(least, *max, code, size))
            }
            Act::WriteSome { stream, bytes, .. } => {
                let most = bytes.as_slice().len();
                self.may_give_write(o, *stream, may_write_some(most, code, size))
            }
            Act::WriteAll { stream, bytes, .. } => {
                let all = bytes.as_slice().len();
                self.may_give_write(o, *stream, may_write_all(all, code, size))
            }
            _ => false,
        }
    }

    fn may_be_moved(&self, o: OpNo, code: Code, size: u32, moved: u32) -> bool
        ensures { result ≡ may_have_moved (act_of self.now.script o) code size moved }
    {
        if o >= self.script.acts() {
            return moved == size;
        }
        may_have_moved(self.script.act(o), code, size, moved)
    }

    fn is_told_as(&self, o: OpNo, outcome: (Code, u32), code: Code, size: u32) -> bool
        ensures { IsTrue result
            ↔ IsToldAs self.now.told (act_of self.now.script o) outcome code size }
    {
        if self.world.told {
            return outcome == (code, size);
        }
        outcome.0 == code && self.may_be_moved(o, outcome.0, outcome.1, size)
    }

    /// Whether the operation is the head of what is due, and may be told so.
    pub(crate) fn is_next_due(&self, o: OpNo, code: Code, size: u32) -> bool
        ensures { IsTrue result
            ↔ IsNextDue self.now.script self.now.told self.now.half o code size }
    {
        let Some(head) = self.due.as_slice().first() else {
            return false;
        };
        head.op == o && self.is_told_as(o, head.outcome, code, size)
    }
}
