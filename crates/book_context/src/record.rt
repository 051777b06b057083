ghost use Rattle.std.specs.Prelude.{◌≡◌, ◌≢◌, ◌+◌, ◌*◌, ◌≤◌, ◌<◌, [], ◌∷◌, length, List, true, false, slice_index_or, IfOk, IfSome, IfNone};
ghost use Rattle.strand_core.specs.Answer.{CanExecute};
ghost use Rattle.strand_core.specs.Execution.{AnyMark, IsWholeExecution};
ghost use Rattle.strand_core.specs.declared.posted.Posted.{Posted};
ghost use Rattle.book_context.specs.Left.{most_history};
ghost use Rattle.book_context.specs.Recording.{HasCalledOpening, HasRecorded, HasRoomForCalls, new_recording, with_closing, with_done, with_event, with_fault, with_outside_stop, with_restart};

mod calls;
mod lists;
mod posts;

use crate::law::executions_are_bounded;
use crate::record::calls::record_calls;
use crate::record::lists::Lists;
use crate::record::posts::{call_each, post_execution};
use asio_types::{ActNo, Code, Event, NoMemory, OpNo};
use history_book::History;
use op_handlers::CompletionHandler;
use session_script::{Script, scripts_are_well_formed};
use std::alloc::Global;
use std::marker::Model;
use std::mem;
use strand_core::{Hands, Posted};

/// What a context keeps of its history: the events, what is ready and what waits for the reactor,
/// and where the round stands. All room is made at first, so that no step takes memory.
///
/// Contracts see a `Recording`, and each step is one equation over it. They say nothing of
/// legality.
#[derive(Drop)]
pub(crate) struct Record<'a> {
    script: &'a Script,
    history: History,
    lists: Lists,
    // the room for the calls of an execution, or of `open`
    calls: Vec<Posted>,
    stopped: bool,
    restarted: bool,
    closings: u32,
}

impl<'a> Model for Record<'a> {
    ghost use Rattle.std.specs.Prelude.{◌≡◌, ◌+◌, ◌*◌, ◌^◌, ◌≤◌, ◌<◌, [], length, vec_capacity};
    ghost use Rattle.book_context.specs.Bound.{most_events};
    ghost use Rattle.book_context.specs.Recording.{Recording};

    ghost Value = { Recording };

    ghost view = { λ r. record {
      script = r.script.now;
      events = r.history.events;
      spare = r.history.spare;
      ready = r.lists.ready;
      requests = r.lists.requests;
      called = r.lists.called;
      stopped = r.stopped;
      restarted = r.restarted;
      closings = r.closings;
    } };

    ghost invariant = { λ r. record {
      room : r.lists.room ≡ length r.script.now.acts;
      calls : most_events r.script.now ≤ vec_capacity r.calls;
      few : r.closings + r.history.spare < 2 ^ 32;
    } };
}

/// For how many events a session needs room.
fn most_history(script: &Script) -> u32
    ensures { result ≡ most_history script.now }
{
    scripts_are_well_formed(script);
    let acts = script.acts();
    let lines = script.world().lines.as_slice().len() as u32;
    let rounds = script.rounds().len() as u32;
    7 * acts + lines + 3 * rounds + 3
}

impl<'a> Record<'a> {
    /// Before the first event, with room for a whole session. Takes memory in proportion to it.
    pub(crate) fn make(alloc: Global, script: &'a Script) -> Result<Record<'a>, NoMemory>
        ensures { IfOk result (λ r. r ≡ new_recording script.now (most_history script.now)) }
    {
        let acts = script.acts();
        Ok(Record {
            script,
            history: History::with_room(alloc, most_history(script))?,
            lists: Lists::make(alloc, acts)?,
            calls: Vec::with_capacity(alloc, (4 * acts + 2) as usize)?,
            stopped: false,
            restarted: false,
            closings: 0,
        })
    }

    /// Calls the acts of `open`, one after another.
    pub(crate) fn open(&mut self)
        requires new { self.old ≡ new_recording self.old.script self.old.spare }
        requires room { most_history self.old.script ≤ self.old.spare }
        ensures { HasCalledOpening self.old self.new }
    {
        scripts_are_well_formed(self.script);
        executions_are_bounded();
        self.calls.clear();
        call_each(&mut self.calls, self.script.opening());
        self.stopped |= record_calls(
            self.script,
            self.calls.as_slice(),
            &mut self.history,
            &mut self.lists,
        );
    }

    /// Executes an operation that is ready, with what executes inside it. A handler that begins is
    /// told the count of events before its begin. Takes no memory.
    pub(crate) fn execute<H: CompletionHandler>(
        &mut self,
        hands: &mut Hands<'_, H>,
        op: OpNo,
        code: Code,
        size: u32,
    )
        requires script { hands.old.script ≡ self.old.script }
        requires can { CanExecute hands.old op }
        requires room { (calls : List Posted) →
            IsWholeExecution self.old.script AnyMark op code size calls →
            HasRoomForCalls self.old calls }
        ensures { HasRecorded H.marks op code size self.old self.new hands.old hands.new }
    {
        scripts_are_well_formed(self.script);
        executions_are_bounded();
        self.calls.clear();
        let position = self.history.events().len() as u64;
        let none = Vec::new(*self.calls.allocator());
        let calls = mem::replace(&mut self.calls, none);
        self.calls = post_execution(self.script, position, calls, hands, op, code, size);
        self.stopped |= record_calls(
            self.script,
            self.calls.as_slice(),
            &mut self.history,
            &mut self.lists,
        );
    }

    /// Appends an event that changes nothing else that is kept. Takes no memory.
    pub(crate) fn push(&mut self, event: Event)
        requires { 1 ≤ self.old.spare }
        ensures { self.new ≡ with_event event self.old }
    {
        self.history.push_reserved(event);
    }

    /// An operation completed, and is ready behind the others.
    pub(crate) fn push_done(&mut self, op: OpNo, code: Code, size: u32)
        requires spare { 1 ≤ self.old.spare }
        requires ready { length self.old.ready < length self.old.script.acts }
        ensures { self.new ≡ with_done op code size self.old }
    {
        self.history.push_reserved(Event::Done { op, code, size });
        self.lists.push_ready(op, code, size);
    }

    /// The reactor has failed, which stops the context.
    pub(crate) fn push_fault(&mut self)
        requires { 1 ≤ self.old.spare }
        ensures { self.new ≡ with_fault self.old }
    {
        self.history.push_reserved(Event::Fault);
        self.stopped = true;
    }

    /// Somebody outside every handler stops the context.
    pub(crate) fn push_outside_stop(&mut self)
        requires { 1 ≤ self.old.spare }
        ensures { self.new ≡ with_outside_stop self.old }
    {
        self.history.push_reserved(Event::Stop { act: None });
        self.stopped = true;
    }

    /// Closes the round by this event, which leaves the context stopped or not.
    pub(crate) fn close(&mut self, closing: Event, stopped: bool)
        requires { 1 ≤ self.old.spare }
        ensures { self.new ≡ with_closing closing stopped self.old }
    {
        self.history.push_reserved(closing);
        self.stopped = stopped;
        self.restarted = false;
        self.closings += 1;
    }

    /// Opens the next round.
    pub(crate) fn restart(&mut self)
        requires { 1 ≤ self.old.spare }
        ensures { self.new ≡ with_restart self.old }
    {
        self.history.push_reserved(Event::Restart);
        self.stopped = false;
        self.restarted = true;
    }

    /// Takes the oldest ready operation off the list: `None` exactly where none is ready.
    pub(crate) fn pop_ready(&mut self) -> Option<(OpNo, Code, u32)>
        ensures some { IfSome result (λ oldest. self.old.ready ≡ oldest ∷ self.new.ready) }
        ensures none { IfNone result (self.old.ready ≡ []) }
        ensures after { self.new ≡ record self.old { ready = self.new.ready } }
        ensures unchanged { IfNone result (self.new ≡ self.old) }
    {
        self.lists.pop_ready()
    }

    /// Takes the oldest request off the list: `None` exactly where none waits.
    pub(crate) fn pop_request(&mut self) -> Option<ActNo>
        ensures some { IfSome result (λ oldest. self.old.requests ≡ oldest ∷ self.new.requests) }
        ensures none { IfNone result (self.old.requests ≡ []) }
        ensures after { self.new ≡ record self.old { requests = self.new.requests } }
        ensures unchanged { IfNone result (self.new ≡ self.old) }
    {
        self.lists.pop_request()
    }

    /// Whether nothing is ready.
    pub(crate) fn is_ready_empty(&self) -> bool
        ensures empty { result ≡ true → self.now.ready ≡ [] }
        ensures some { result ≡ false → self.now.ready ≢ [] }
    {
        self.lists.is_ready_empty()
    }

    /// Whether no request waits.
    pub(crate) fn is_request_empty(&self) -> bool
        ensures empty { result ≡ true → self.now.requests ≡ [] }
        ensures some { result ≡ false → self.now.requests ≢ [] }
    {
        self.lists.is_request_empty()
    }

    /// Whether an act was called; a number that no act has wasn't.
    pub(crate) fn was_called(&self, act: ActNo) -> bool
        ensures { result ≡ slice_index_or self.now.called act false }
    {
        self.lists.was_called(act)
    }

    /// `io_context::stopped`.
    pub(crate) fn stopped(&self) -> bool
        ensures { result ≡ self.now.stopped }
    {
        self.stopped
    }

    /// Whether the restart of this round has come.
    pub(crate) fn restarted(&self) -> bool
        ensures { result ≡ self.now.restarted }
    {
        self.restarted
    }

    /// How many rounds are closed.
    pub(crate) fn closings(&self) -> u32
        ensures { result ≡ self.now.closings }
    {
        self.closings
    }

    /// The script.
    pub(crate) fn script(&self) -> &'a Script
        ensures { result.now ≡ self.now.script }
    {
        self.script
    }

    /// The history as it was recorded.
    pub(crate) fn into_history(self) -> History
        ensures { result ≡ record { events = self.entry.events; spare = self.entry.spare } }
    {
        let Record { history, .. } = self;
        history
    }
}
