ghost use Rattle.std.specs.Prelude.{◌≡◌, ◌↔◌, IsTrue};
ghost use Rattle.history_rules.specs.Order.{is_untaken, IsFirstRequest};
ghost use Rattle.history_rules.specs.Requests.{IsGivenUntold, MayTell, MayTurn, MayTake, MayComplete, turn_begun, context_after_done};

use crate::context::ContextReplay;
use crate::reactor_half::ReactorWorks;
use crate::replay::Replay;
use asio_types::{ActNo, Code, Lane, OpNo};
use history_rules::{ActPhase, Cause, called_at, is_back_before, is_request};

impl ContextReplay {
    /// A turn of the reactor begins here.
    pub(crate) fn begin_turn(&mut self)
        ensures { self.new ≡ turn_begun self.old }
    {
        self.turn = Some(self.events);
        self.allowances.spend(Lane::Reactor);
        self.count();
    }

    /// The operation is ready.
    pub(crate) fn done(&mut self, o: OpNo, code: Code, size: u32)
        ensures { self.new ≡ context_after_done self.old o code size }
    {
        let done = self.events;
        let turn = self.turn.unwrap_or(0);
        let ready = ActPhase::Ready {
            code,
            size,
            cause: Cause::Completed { done, turn },
        };
        self.put_phase(o, ready);
        self.count();
    }
}

impl<'a> ReactorWorks<'a> {
    fn is_given_untold(&self, o: OpNo, code: Code, size: u32) -> bool
        ensures { IsTrue result
            ↔ IsGivenUntold self.now.script self.now.told self.now.half o code size }
    {
        !self.world.told && self.nothing_due() && self.may_give(o, code, size)
    }

    /// Whether this operation may be told so: as the head of what is due, or where bytes are untold
    /// as its stream gives it.
    pub(crate) fn may_tell(&self, o: OpNo, code: Code, size: u32) -> bool
        ensures { IsTrue result ↔ MayTell self.now.script self.now.told self.now.half o code size }
    {
        self.is_next_due(o, code, size) || self.is_given_untold(o, code, size)
    }
}

impl<'a> Replay<'a> {
    /// Whether a turn of the reactor may begin. Looks at each stream.
    pub(crate) fn may_turn(&self) -> bool
        ensures { IsTrue result ↔ MayTurn self.now.script self.now.state }
    {
        self.context.round_is_open(self.reactor.works().script())
            && !self.reactor.works().has_failed()
            && self.reactor.works().nothing_due()
            && self.reactor.works().is_drained()
            && self.context.allowances.may_start(Lane::Reactor)
    }

    /// Whether an act is a request that wasn't taken.
    pub fn is_untaken(&self, n: ActNo) -> bool
        ensures { result ≡ is_untaken self.now.state n }
    {
        is_request(self.context.act(n).phase) && !self.reactor.works().was_taken(n)
    }

    /// Whether no other request returned before this one was made. Looks at each act.
    pub fn is_first_request(&self, a: ActNo) -> bool
        ensures { IsTrue result ↔ IsFirstRequest self.now.state a }
    {
        let called = called_at(self.context.act(a).call);
        for n in 0..self.reactor.works().script().acts() {
            if self.is_untaken(n) && is_back_before(called, self.context.act(n).call) {
                return false;
            }
        }
        true
    }

    /// Whether the reactor may take this request. Looks at each act and stream.
    pub(crate) fn may_take(&self, a: ActNo) -> bool
        ensures { IsTrue result ↔ MayTake self.now.script self.now.state a }
    {
        self.may_turn() && self.is_untaken(a) && self.is_first_request(a)
    }

    /// Whether this operation may complete so.
    pub(crate) fn may_complete(&self, o: OpNo, code: Code, size: u32) -> bool
        ensures { IsTrue result
            ↔ MayComplete self.now.script self.now.told self.now.state o code size }
    {
        !self.reactor.works().has_failed()
            && self.reactor.works().may_tell(o, code, size)
            && (!self.reactor.works().nothing_due() || self.context.turn.is_some())
    }
}
