ghost use Rattle.std.specs.Prelude.{◌≡◌, ◌≢◌, None, Ok, replicate, false, length, IfOk, IsTrue};
ghost use Rattle.reactor_trait.specs.Reactor.{idle_state, silence, IsMoveWithin};

use crate::reactor::Reactor;
use asio_types::{Failed, Moved, NoMemory, Point, SetupFault, StreamNo, World};
use std::alloc::Global;
use std::marker::Model;
use stream_rules::Schedule;

/// Scripted time over streams on which nothing arrives and nothing is taken. It tells no bytes and
/// never fails. Sessions that use no stream need no more, and tests of what stands on a reactor
/// find here one that tells no bytes.
#[derive(Drop)]
pub struct SilentReactor {
    up: bool,
    schedule: Schedule,
    closed: Vec<bool>,
    last: bool,
}

impl Model for SilentReactor {
    ghost use Rattle.reactor_trait.specs.Reactor.{ReactorState, state_over};

    ghost Value = { ReactorState };

    ghost view = { λ r. state_over r.up r.closed.items r.last r.schedule };
}

fn all_open(alloc: Global, streams: u8) -> Result<Vec<bool>, NoMemory>
    ensures { IfOk result (λ closed. closed.items ≡ replicate streams false) }
{
    Ok(vec![in alloc; false; streams as usize]?)
}

impl SilentReactor {
    /// A reactor without a world. Takes no memory.
    pub fn empty(alloc: Global) -> SilentReactor
        ensures { result ≡ idle_state }
    {
        SilentReactor {
            up: false,
            schedule: Schedule::empty(alloc),
            closed: Vec::new(alloc),
            last: false,
        }
    }

    /// What every stream answers.
    fn answer(&self) -> Moved
        ensures { result ≡ silence self.now.last }
    {
        if self.last { Moved::End } else { Moved::NotYet }
    }
}

impl Reactor for SilentReactor {
    ghost faults = { λ r. 0 };

    ghost state = { λ r. r };

    ghost told = { λ r. None };

    /// Takes memory for the lines and for a flag for each stream.
    fn set_up(&mut self, alloc: Global, world: &World) -> Result<(), SetupFault> {
        self.up = false;
        let schedule = Schedule::of(alloc, world.lines.as_slice()).map_err(
            |_| SetupFault::NoMemory,
        )?;
        let closed = all_open(alloc, world.streams).map_err(|_| SetupFault::NoMemory)?;
        self.up = true;
        self.schedule = schedule;
        self.closed = closed;
        self.last = false;
        Ok(())
    }

    fn advance(&mut self, limit: Option<u64>) -> Result<Point, Failed> {
        let point = self.schedule.advance(limit);
        match point {
            Point::Time(_) => {}
            Point::Last => self.last = true,
        }
        Ok(point)
    }

    /// Never fails, and gives no byte.
    fn read_some(&mut self, stream: StreamNo, buf: &mut [u8]) -> Result<Moved, Failed>
        ensures keeps { self.new ≡ self.old }
        ensures answer { result ≡ Ok (silence self.old.last) }
        ensures after_last { IsTrue self.old.last → IfOk result (λ moved. moved ≢ Moved.NotYet) }
        ensures within { IfOk result (IsMoveWithin (length buf.old)) }
        ensures buffer { buf.new ≡ buf.old }
    {
        Ok(self.answer())
    }

    /// Never fails, and takes no byte.
    fn write_some(&mut self, stream: StreamNo, bytes: &[u8]) -> Result<Moved, Failed>
        ensures keeps { self.new ≡ self.old }
        ensures answer { result ≡ Ok (silence self.old.last) }
        ensures after_last { IsTrue self.old.last → IfOk result (λ moved. moved ≢ Moved.NotYet) }
        ensures within { IfOk result (IsMoveWithin (length bytes.now)) }
    {
        Ok(self.answer())
    }

    fn close(&mut self, stream: StreamNo) {
        self.closed[stream as usize] = true;
    }
}
