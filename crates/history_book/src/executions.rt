ghost use Rattle.std.specs.Prelude.{◌≡◌, ◌↔◌, length, IsTrue};
ghost use Rattle.history_rules.specs.Executions.{LaneIsFree, IsReadyWith, MayBeginOutside, MayBeginInside, MayBegin, after_begin, MayEnd, after_end};
ghost use Rattle.history_rules.specs.Order.{IsFirstOfLane};
ghost use Rattle.history_rules.specs.Rounds.{is_running};

use crate::calls::is_made;
use crate::context::{ContextReplay, NO_PROGRESS};
use asio_types::{Code, OpNo, class_of};
use history_rules::{ActPhase, goes_before, is_inline, lane_at};
use session_script::Script;

impl ContextReplay {
    /// Whether nothing of the lane of this operation runs. Looks at each act.
    pub(crate) fn lane_is_free(&self, script: &Script, o: OpNo) -> bool
        requires { length self.now.acts ≡ length script.now.acts }
        ensures { IsTrue result ↔ LaneIsFree script.now self.now o }
    {
        let lane = lane_at(script, o);
        for n in 0..script.acts() {
            if lane_at(script, n) == lane && is_running(self.act(n).phase) {
                return false;
            }
        }
        true
    }

    /// Whether no ready handler of its lane goes before it. Looks at each act.
    pub(crate) fn is_first_of_lane(&self, script: &Script, o: OpNo) -> bool
        requires { length self.now.acts ≡ length script.now.acts }
        ensures { IsTrue result ↔ IsFirstOfLane script.now self.now o }
    {
        let lane = lane_at(script, o);
        let act = self.act(o);
        for n in 0..script.acts() {
            if lane_at(script, n) == lane && goes_before(self.act(n), act) {
                return false;
            }
        }
        true
    }

    fn may_begin_outside(&self, script: &Script, o: OpNo, code: Code, size: u32) -> bool
        requires { length self.now.acts ≡ length script.now.acts }
        ensures { IsTrue result ↔ MayBeginOutside script.now self.now o code size }
    {
        self.round_is_open(script)
            && is_ready_with(self.act(o).phase, code, size)
            && self.lane_is_free(script, o)
            && self.is_first_of_lane(script, o)
            && self.allowances.may_start(lane_at(script, o))
    }

    pub(crate) fn may_begin_inside(&self, o: OpNo, code: Code, size: u32) -> bool
        ensures { IsTrue result ↔ MayBeginInside self.now o code size }
    {
        let act = self.act(o);
        act.phase == ActPhase::Inside && is_made(act.call) && code == Code::Ok && size == 0
    }

    /// Whether a handler may begin with this code and size. Looks at each act.
    pub(crate) fn may_begin(&self, script: &Script, o: OpNo, code: Code, size: u32) -> bool
        requires { length self.now.acts ≡ length script.now.acts }
        ensures { IsTrue result ↔ MayBegin script.now self.now o code size }
    {
        self.may_begin_outside(script, o, code, size) || self.may_begin_inside(o, code, size)
    }

    /// The handler begins.
    pub(crate) fn begin(&mut self, script: &Script, o: OpNo, code: Code)
        ensures { self.new ≡ after_begin script.now self.old o code }
    {
        let running = ActPhase::Running {
            class: class_of(code),
            progress: NO_PROGRESS,
        };
        self.put_phase(o, running);
        if !is_inline(script, o) {
            self.allowances.spend(lane_at(script, o));
        }
        self.count();
    }

    /// Whether the handler's calls were made and are back.
    pub(crate) fn may_end(&self, script: &Script, o: OpNo) -> bool
        requires { length self.now.acts ≡ length script.now.acts }
        ensures { IsTrue result ↔ MayEnd script.now self.now o }
    {
        match self.act(o).phase {
            ActPhase::Running { class, progress } => {
                let calls = script.branch(o, class).len() as u64;
                progress.made == calls && progress.back == calls
            }
            _ => false,
        }
    }

    /// The handler returns.
    pub(crate) fn end(&mut self, o: OpNo)
        ensures { self.new ≡ after_end self.old o }
    {
        self.put_phase(o, ActPhase::Ended);
        self.count();
    }
}

/// Whether a handler is ready with this code and size.
pub(crate) fn is_ready_with(phase: ActPhase, code: Code, size: u32) -> bool
    ensures { IsTrue result ↔ IsReadyWith phase code size }
{
    match phase {
        ActPhase::Ready {
            code: ready,
            size: moved,
            ..
        } => ready == code && moved == size,
        _ => false,
    }
}

/// Whether a handler runs.
pub(crate) fn is_running(phase: ActPhase) -> bool
    ensures { result ≡ is_running phase }
{
    matches!(phase, ActPhase::Running { .. })
}
