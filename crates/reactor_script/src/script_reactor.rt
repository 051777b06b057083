ghost use Rattle.std.specs.Prelude.{◌≡◌, ◌≢◌, ◌↔◌, ◌<◌, ◌≤◌, IfOk, IsErr, IsErrOf, IsTrue, OnErr, OnOk, Some, length, take};
ghost use Rattle.std.specs.Option.{ForSome};
ghost use Rattle.stream_rules.specs.World.{HasItsStreams, next_point, stream_at};
ghost use Rattle.asio_types.specs.Faults.{CountsFaults};
ghost use Rattle.stream_rules.specs.Moving.{moved_count, read_answer, write_answer};
ghost use Rattle.stream_rules.specs.Serving.{Some_of, after_reading, after_writing};
ghost use Rattle.reactor_trait.specs.Reactor.{outside_ready, state_ready, outside_at, outside_closed, state_at, state_closed, state_refused, stream_count, with_stream, CountsSetupFaults, IsMoveWithin, IsOpen};
ghost use Rattle.reactor_script.specs.Plans.{fault_count, plan_after, plan_after_setup, IsNamed};
ghost use Rattle.reactor_script.specs.Scene.{new_script};

use crate::method::FailAt;
use crate::plans::{FailPlans, strikes};
use crate::stage::Stage;
use asio_types::{Failed, Moved, NoMemory, Point, SetupFault, StreamNo, World};
use reactor_trait::Reactor;
use std::alloc::Global;
use std::marker::Model;

/// A reactor in memory that plays a world, tells every byte, and fails exactly at the calls that it
/// was made to fail at.
///
/// A `set_up` takes all memory: a copy of the lines, which it sorts once, and for each stream as
/// much as all lines bring to it. An `advance` costs what the lines of its time bring, a read or a
/// write what it moves, and a `close` nothing that grows.
#[derive(Drop)]
pub struct ScriptReactor {
    stage: Stage,
    plans: FailPlans,
}

impl Model for ScriptReactor {
    ghost use Rattle.reactor_script.specs.Scene.{Scripted, plans_of};

    ghost Value = { Scripted };

    ghost view = { λ r.
        record { state = r.stage.state; outside = r.stage.outside; plans = plans_of r.plans } };
}

impl ScriptReactor {
    /// A reactor without a world that will fail at these calls. Takes the memory of their numbers.
    pub fn make(alloc: Global, fails: &[FailAt]) -> Result<ScriptReactor, NoMemory>
        ensures { IfOk result (λ reactor. reactor ≡ new_script fails.now) }
    {
        Ok(ScriptReactor {
            stage: Stage::empty(alloc),
            plans: FailPlans::make(alloc, fails)?,
        })
    }

    /// All bytes that were sent on a stream since the latest `set_up`, also once it is closed; none
    /// for a stream that the world hasn't. Constant cost.
    pub fn sent(&self, stream: StreamNo) -> &[u8]
        ensures { result.now ≡ (stream_at self.now.outside.streams stream).sent }
    {
        self.stage.sent(stream)
    }
}

impl Reactor for ScriptReactor {
    ghost faults = { λ r. fault_count r.plans };

    ghost state = { λ r. r.state };

    ghost told = { λ r. Some r.outside };

    /// Fails exactly where this call was named, or for want of memory.
    fn set_up(&mut self, alloc: Global, world: &World) -> Result<(), SetupFault>
        requires { HasItsStreams world.now }
        ensures ready { OnOk result (self.new.state ≡ state_ready world.now) }
        ensures refused { OnErr result (self.new.state ≡ state_refused self.old.state) }
        ensures told_ready { OnOk result (self.new.outside ≡ outside_ready world.now) }
        ensures told_refused { OnErr result (self.new.outside ≡ self.old.outside) }
        ensures counts { CountsSetupFaults result (fault_count self.old.plans)
            (fault_count self.new.plans) }
        ensures later { fault_count self.old.plans ≤ fault_count self.new.plans }
        ensures named { IsErrOf result SetupFault.Failed ↔ IsNamed self.old.plans.set_up }
        ensures counted { self.new.plans
            ≡ record self.old.plans { set_up = plan_after_setup result self.old.plans.set_up } }
    {
        self.stage.take_down();
        if strikes(&mut self.plans.set_up) {
            return Err(SetupFault::Failed);
        }
        match Stage::set(alloc, world) {
            Ok(stage) => {
                self.stage = stage;
                Ok(())
            }
            Err(NoMemory) => Err(SetupFault::NoMemory),
        }
    }

    /// Fails exactly where this call was named.
    fn advance(&mut self, limit: Option<u64>) -> Result<Point, Failed>
        requires up { IsTrue self.old.state.up }
        requires ahead { ForSome limit (λ time. self.old.state.now < time) }
        ensures answer { IfOk result (λ point. point ≡ next_point limit self.old.state.times) }
        ensures moves { IfOk result (λ point. self.new.state ≡ state_at point self.old.state) }
        ensures told_moves { IfOk result
            (λ point. self.new.outside ≡ outside_at point self.old.outside) }
        ensures failed { OnErr result (self.new.state ≡ self.old.state) }
        ensures told_failed { OnErr result (self.new.outside ≡ self.old.outside) }
        ensures counts { CountsFaults result (fault_count self.old.plans)
            (fault_count self.new.plans) }
        ensures later { fault_count self.old.plans ≤ fault_count self.new.plans }
        ensures named { IsErr result ↔ IsNamed self.old.plans.advance }
        ensures counted { self.new.plans
            ≡ record self.old.plans { advance = plan_after result self.old.plans.advance } }
    {
        if strikes(&mut self.plans.advance) {
            return Err(Failed);
        }
        Ok(self.stage.advance(limit))
    }

    /// Fails exactly where this call was named.
    fn read_some(&mut self, stream: StreamNo, buf: &mut [u8]) -> Result<Moved, Failed>
        requires up { IsTrue self.old.state.up }
        requires known { stream < stream_count self.old.state }
        requires open { IsOpen self.old.state stream }
        requires room { 0 < length buf.old }
        ensures keeps { self.new.state ≡ self.old.state }
        ensures within { IfOk result (IsMoveWithin (length buf.old)) }
        ensures after_last { IsTrue self.old.state.last →
            IfOk result (λ moved. moved ≢ Moved.NotYet) }
        ensures told_answer { IfOk result (λ moved.
            moved ≡ read_answer (length buf.old) (stream_at self.old.outside.streams stream)) }
        ensures told_bytes { IfOk result (λ moved.
            take (moved_count moved) buf.new
            ≡ take (moved_count moved) (stream_at self.old.outside.streams stream).arrived) }
        ensures told_gives { IfOk result (λ moved.
            self.new.outside
            ≡ with_stream stream (after_reading (moved_count moved)) self.old.outside) }
        ensures told_failed { OnErr result (self.new.outside ≡ self.old.outside) }
        ensures counts { CountsFaults result (fault_count self.old.plans)
            (fault_count self.new.plans) }
        ensures later { fault_count self.old.plans ≤ fault_count self.new.plans }
        ensures named { IsErr result ↔ IsNamed self.old.plans.read_some }
        ensures counted { self.new.plans
            ≡ record self.old.plans { read_some = plan_after result self.old.plans.read_some } }
    {
        if strikes(&mut self.plans.read_some) {
            return Err(Failed);
        }
        Ok(self.stage.read_some(stream, buf))
    }

    /// Fails exactly where this call was named.
    fn write_some(&mut self, stream: StreamNo, bytes: &[u8]) -> Result<Moved, Failed>
        requires up { IsTrue self.old.state.up }
        requires known { stream < stream_count self.old.state }
        requires open { IsOpen self.old.state stream }
        requires some { 0 < length bytes.now }
        ensures keeps { self.new.state ≡ self.old.state }
        ensures within { IfOk result (IsMoveWithin (length bytes.now)) }
        ensures after_last { IsTrue self.old.state.last →
            IfOk result (λ moved. moved ≢ Moved.NotYet) }
        ensures told_answer { IfOk result
            (λ moved. moved ≡ write_answer bytes.now (stream_at self.old.outside.streams stream)) }
        ensures told_takes { IfOk result (λ moved.
            self.new.outside
            ≡ with_stream stream (after_writing (Some_of bytes.now) 0 (moved_count moved))
            self.old.outside) }
        ensures told_failed { OnErr result (self.new.outside ≡ self.old.outside) }
        ensures counts { CountsFaults result (fault_count self.old.plans)
            (fault_count self.new.plans) }
        ensures later { fault_count self.old.plans ≤ fault_count self.new.plans }
        ensures named { IsErr result ↔ IsNamed self.old.plans.write_some }
        ensures counted { self.new.plans
            ≡ record self.old.plans { write_some = plan_after result self.old.plans.write_some } }
    {
        if strikes(&mut self.plans.write_some) {
            return Err(Failed);
        }
        Ok(self.stage.write_some(stream, bytes))
    }

    /// Never fails, and counts as no call.
    fn close(&mut self, stream: StreamNo)
        requires up { IsTrue self.old.state.up }
        requires known { stream < stream_count self.old.state }
        requires open { IsOpen self.old.state stream }
        ensures closes { self.new.state ≡ state_closed stream self.old.state }
        ensures told_closes { self.new.outside ≡ outside_closed stream self.old.outside }
        ensures counts { fault_count self.new.plans ≡ fault_count self.old.plans }
        ensures plans { self.new.plans ≡ self.old.plans }
    {
        self.stage.close(stream);
    }
}
