ghost use Rattle.std.specs.Prelude.{◌≡◌, ◌≤◌, ◌<◌, ◌^◌, ◌↔◌, ℕ, None, false, slice_get, IsTrue};
ghost use Rattle.asio_types.specs.declared.code.Code.{Code as Code_of};
ghost use Rattle.history_rules.specs.Legal.{state_of};
ghost use Rattle.history_rules.specs.Requests.{MayTell};
ghost use Rattle.session_orders.specs.Walk.{HasCome, NoneBetween};

use crate::own::{CODES, SIZES, asked_of, base};
use crate::walk::Walk;
use asio_types::{Code, OpNo};
use history_book::Replay;

/// Whether an operation may complete where nothing is due: if it may at all, it may as one whose peer
/// is gone, without bytes, or if it asks for none with ok.
fn gives(replay: &Replay, op: OpNo) -> bool
    requires { slice_get replay.now.state.reactor.due 0 ≡ None }
    ensures { result ≡ false → (code : Code_of) → (size : ℕ) →
        MayTell replay.now.script replay.now.told replay.now.state.reactor op code size → ⊥ }
{
    replay.may_tell(op, Code::Reset, 0) || replay.may_tell(op, Code::Ok, 0)
}

/// Whether an operation may complete now.
fn may_be_told(replay: &Replay, op: OpNo) -> bool
    ensures { result ≡ false → (code : Code_of) → (size : ℕ) →
        MayTell replay.now.script replay.now.told replay.now.state.reactor op code size → ⊥ }
{
    match replay.next_due() {
        Some(next) => next.op == op,
        None => gives(replay, op),
    }
}

impl<'a> Walk<'a> {
    /// The place that is next among so many but for those of completions that can't come now: of an
    /// operation that can't complete, and of more bytes than it asks for.
    pub(crate) fn place_ahead(&self, places: u64) -> u64
        requires come { HasCome self.now.script.now self.now.kind self.now.replay
            self.now.path.items }
        requires small { places < 2 ^ 36 }
        ensures onward { self.now.place ≤ result }
        ensures none { NoneBetween self.now.script.now self.now.kind
            (state_of self.now.script.now self.now.kind.told self.now.path.items) self.now.place
            result }
    {
        let base = base(self.script);
        if self.place < base || self.place >= places {
            return self.place;
        }
        let row = (self.place - base) / SIZES;
        let op = row / CODES;
        if !may_be_told(&self.replay, op as u32) {
            return base + (op + 1) * CODES * SIZES;
        }
        if (self.place - base) % SIZES > asked_of(self.script, op) {
            return base + (row + 1) * SIZES;
        }
        self.place
    }
}
