ghost use Rattle.std.specs.Prelude.{◌≡◌, ◌≤◌, [], false};
ghost use Rattle.chan_core.specs.Channel.{is_pending, spare_in};

use asio_types::OpNo;
use chan_core::{ChanCode, ChanCore, ChanDone, ChanOp};
use std::process::Abort;

/// A call of a channel.
#[derive(Clone, Copy)]
pub(crate) enum Call {
    Send(ChanOp, u64, Option<OpNo>),
    Receive(ChanOp, Option<OpNo>),
    Close,
    Cancel,
    Lapse(OpNo),
}

/// What completes: an operation without a value, or a receive that gets one.
#[derive(Clone, Copy)]
pub(crate) enum Wanted {
    Ended(ChanOp, ChanCode),
    Got(ChanOp, u64),
}

fn done_of(wanted: Wanted) -> ChanDone {
    match wanted {
        Wanted::Ended(op, code) => ChanDone {
            op,
            code,
            value: None,
        },
        Wanted::Got(op, value) => ChanDone {
            op,
            code: ChanCode::Ok,
            value: Some(value),
        },
    }
}

/// Makes a call whose conditions hold.
pub(crate) fn make(rt: &impl Abort, chan: &mut ChanCore, call: Call)
    requires { chan.old.due ≡ [] }
{
    match call {
        Call::Send(op, value, deadline) => {
            may_begin(rt, chan, op);
            chan.send(op, value, deadline);
        }
        Call::Receive(op, deadline) => {
            may_begin(rt, chan, op);
            chan.receive(op, deadline);
        }
        Call::Close => chan.close(),
        Call::Cancel => chan.cancel(),
        Call::Lapse(wait) => chan.lapse(wait),
    }
}

/// An operation of this number may begin.
fn may_begin(rt: &impl Abort, chan: &ChanCore, op: ChanOp)
    ensures room { 1 ≤ spare_in chan.now }
    ensures free { is_pending op chan.now ≡ false }
{
    assert!(rt; chan.spare() >= 1);
    assert!(rt; !chan.is_pending(op));
}

/// Exactly these complete, in this order.
pub(crate) fn complete(rt: &impl Abort, chan: &mut ChanCore, wanted: &[Wanted])
    ensures { chan.new.due ≡ [] }
{
    for done in wanted {
        assert!(rt; chan.next_due() == Some(done_of(*done)));
    }
    let last = chan.next_due();
    assert!(rt; last.is_none());
}
