ghost use Rattle.std.specs.Prelude.{◌≡◌, ◌↔◌, length, IsTrue, IsSomeAnd};
ghost use Rattle.session_script.specs.Script.{same_class};
ghost use Rattle.session_script.specs.Lanes.{is_inline};
ghost use Rattle.history_rules.specs.State.{phase_at};
ghost use Rattle.history_rules.specs.Calls.{IsNextOf, running_body, MayCall, MayStop, MayReturn, with_progress, stepped, progressed, accepted, after_call, is_made, stopping, after_stop, has_stopped, has_ended, is_call_done, returned, limited, limited_by_stop, after_return, is_open};

use crate::context::ContextReplay;
use asio_types::{ActNo, Class, Code, OpNo};
use history_rules::{
    ActPhase, ActState, Allowance, CallPhase, Cause, Progress, Step, is_control, is_inline,
    is_posting, is_stop_act, lane_at, place_of,
};
use session_script::{Script, is_operation};

impl ContextReplay {
    /// Whether a body makes this call next.
    pub(crate) fn may_call(&self, script: &Script, failed: bool, a: ActNo) -> bool
        requires { length self.now.acts ≡ length script.now.acts }
        ensures { IsTrue result ↔ MayCall script.now failed self.now a }
    {
        match place_of(script, a) {
            None => !failed && is_next(script.opening(), self.opening, a),
            Some((o, class)) => self.may_call_in(script, o, class, a),
        }
    }

    /// Whether the branch of this class, which its handler runs, makes this call next.
    fn may_call_in(&self, script: &Script, o: OpNo, class: Class, a: ActNo) -> bool
        requires { length self.now.acts ≡ length script.now.acts }
        ensures { IsTrue result
            ↔ IsSomeAnd (running_body script.now o class (phase_at self.now o)) (IsNextOf a) }
    {
        match self.act(o).phase {
            ActPhase::Running {
                class: running,
                progress,
            } => is_same_class(running, class) && is_next(script.branch(o, class), progress, a),
            _ => false,
        }
    }

    /// Whether the act's call is to stop the context now.
    pub(crate) fn may_stop(&self, script: &Script, a: ActNo) -> bool
        ensures { IsTrue result ↔ MayStop script.now self.now a }
    {
        is_stop_act(script, a) && is_made(self.act(a).call)
    }

    /// Whether an act's call may return.
    pub(crate) fn may_return(&self, script: &Script, a: ActNo) -> bool
        ensures { IsTrue result ↔ MayReturn script.now self.now a }
    {
        is_call_done(is_stop_act(script, a), is_inline(script, a), self.act(a))
    }

    /// The body in this place comes further.
    fn advance(&mut self, place: Option<(OpNo, Class)>, step: Step)
        ensures { self.new ≡ with_progress place step self.old }
    {
        match place {
            None => self.opening = stepped(step, self.opening),
            Some((o, _)) => {
                let phase = progressed(step, self.act(o).phase);
                self.put_phase(o, phase);
            }
        }
    }

    /// The act is called.
    pub(crate) fn call(&mut self, script: &Script, a: ActNo)
        ensures { self.new ≡ after_call script.now self.old a }
    {
        let called = self.events;
        let act = ActState {
            call: CallPhase::Open { called },
            phase: accepted(script, a),
        };
        self.advance(place_of(script, a), Step::Made);
        self.put(a, act);
        self.count();
    }

    /// The act stops the context.
    pub(crate) fn stop(&mut self, a: ActNo)
        ensures { self.new ≡ after_stop self.old a }
    {
        let call = stopping(self.act(a).call);
        self.put_call(a, call);
        self.stopped = true;
        self.count();
    }

    /// A stop in this place has returned.
    fn limit(&mut self, script: &Script, a: ActNo, place: Option<(OpNo, Class)>)
        ensures { self.new ≡ limited script.now a place self.old }
    {
        match place {
            None => self.allowances.put_all(Allowance::Nothing),
            Some(_) => self.allowances.limit(lane_at(script, a)),
        }
    }

    fn limit_by_stop(&mut self, script: &Script, a: ActNo)
        ensures { self.new ≡ limited_by_stop script.now a self.old }
    {
        if is_stop_act(script, a) {
            self.limit(script, a, place_of(script, a));
        }
    }

    /// The act's call returns.
    pub(crate) fn back(&mut self, script: &Script, a: ActNo)
        ensures { self.new ≡ after_return script.now self.old a }
    {
        let call = returned(self.events, self.act(a).call);
        self.put_call(a, call);
        self.advance(place_of(script, a), Step::Back);
        self.limit_by_stop(script, a);
        self.count();
    }
}

/// Whether the act is the next one of a body that has come so far and has no open call.
fn is_next(acts: &[ActNo], progress: Progress, a: ActNo) -> bool
    ensures { IsTrue result ↔ IsNextOf a (record { acts = acts.now; progress = progress }) }
{
    progress.made == progress.back && acts.get(progress.made as usize).copied() == Some(a)
}

fn is_same_class(first: Class, second: Class) -> bool
    ensures { result ≡ same_class first second }
{
    matches!(
        (first, second),
        (Class::Ok, Class::Ok) | (Class::Abort, Class::Abort) | (Class::Other, Class::Other)
    )
}

fn stepped(step: Step, progress: Progress) -> Progress
    ensures { result ≡ stepped step progress }
{
    match step {
        Step::Made => Progress {
            made: progress.made.saturating_add(1),
            ..progress
        },
        Step::Back => Progress {
            back: progress.back.saturating_add(1),
            ..progress
        },
    }
}

fn progressed(step: Step, phase: ActPhase) -> ActPhase
    ensures { result ≡ progressed step phase }
{
    match phase {
        ActPhase::Running { class, progress } => ActPhase::Running {
            class,
            progress: stepped(step, progress),
        },
        other => other,
    }
}

/// What an act comes to by its call.
fn accepted(script: &Script, a: ActNo) -> ActPhase
    ensures { result ≡ accepted script.now a }
{
    if a >= script.acts() {
        return ActPhase::Absent;
    }
    let act = script.act(a);
    if script.is_inline(a) {
        ActPhase::Inside
    } else if is_posting(act) {
        ActPhase::Ready {
            code: Code::Ok,
            size: 0,
            cause: Cause::Posted,
        }
    } else if is_operation(act) {
        ActPhase::Requested
    } else if is_control(act) {
        ActPhase::Asked
    } else {
        ActPhase::Absent
    }
}

/// Whether the call was made, and has neither stopped the context nor returned.
pub(crate) fn is_made(call: CallPhase) -> bool
    ensures { result ≡ is_made call }
{
    matches!(call, CallPhase::Open { .. })
}

fn stopping(call: CallPhase) -> CallPhase
    ensures { result ≡ stopping call }
{
    match call {
        CallPhase::Open { called } => CallPhase::Stopping { called },
        other => other,
    }
}

fn has_stopped(call: CallPhase) -> bool
    ensures { result ≡ has_stopped call }
{
    matches!(call, CallPhase::Stopping { .. })
}

fn has_ended(phase: ActPhase) -> bool
    ensures { result ≡ has_ended phase }
{
    matches!(phase, ActPhase::Ended)
}

/// Whether a call has done all that it does.
fn is_call_done(stops: bool, inside: bool, act: ActState) -> bool
    ensures { result ≡ is_call_done stops inside act }
{
    if stops {
        has_stopped(act.call)
    } else {
        is_made(act.call) && (!inside || has_ended(act.phase))
    }
}

fn returned(place: u64, call: CallPhase) -> CallPhase
    ensures { result ≡ returned place call }
{
    match call {
        CallPhase::Uncalled => CallPhase::Uncalled,
        CallPhase::Open { called } | CallPhase::Stopping { called } => CallPhase::Back {
            called,
            back: place,
        },
        CallPhase::Back { called, back } => CallPhase::Back { called, back },
    }
}

/// Whether a call was made and hasn't returned.
pub(crate) fn is_open(call: CallPhase) -> bool
    ensures { result ≡ is_open call }
{
    matches!(call, CallPhase::Open { .. } | CallPhase::Stopping { .. })
}
