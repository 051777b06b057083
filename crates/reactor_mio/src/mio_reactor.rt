ghost use Rattle.std.specs.Prelude.{◌≡◌, ◌≢◌, ◌<◌, ◌≤◌, None, false, IfOk, IsTrue, OnErr, OnOk, length};
ghost use Rattle.std.specs.Option.{ForSome};
ghost use Rattle.asio_types.specs.Faults.{one_more, CountsFaults};
ghost use Rattle.stream_rules.specs.World.{HasItsStreams, next_point};
ghost use Rattle.reactor_trait.specs.Reactor.{idle_state, state_at, state_closed, state_ready, state_refused, stream_count, CountsSetupFaults, IsMoveWithin, IsOpen};

use crate::playing::Playing;
use asio_types::{Failed, Moved, Point, SetupFault, StreamNo, World};
use reactor_trait::Reactor;
use std::alloc::Global;
use std::marker::Model;
use std::net::Net;

/// A reactor whose streams are TCP connections over 127.0.0.1, one for each stream of its world, and
/// whose time is scripted. Their far ends do what the lines of the world say: they write, shut their
/// sending side, read what they have room for, and reset. It tells no bytes: what the system does
/// with them no contract says.
///
/// A failing system call is counted and answered `Failed`. A connection that was reset and a broken
/// pipe are answers, and no faults. A read that finds nothing waits while bytes are under way from
/// the far end: 100 times 100 milliseconds at most, in the kernel's poll, in which it costs no
/// processor time. Room isn't enforced: a write gives what the socket takes.
#[derive(Drop)]
pub struct MioReactor<R: Net + Copy> {
    rt: R,
    up: bool,
    faults: u64,
    playing: Option<Playing>,
}

impl<R: Net + Copy> Model for MioReactor<R> {
    ghost use Rattle.std.specs.Prelude.{IsSome, IsTrue};
    ghost use Rattle.reactor_mio.specs.Sockets.{state_of, Sockets};

    ghost Value = { Sockets };

    ghost view = { λ r. record { state = state_of r.up r.playing; faults = r.faults } };

    ghost invariant = { λ r. IsTrue r.up → IsSome r.playing };
}

impl<R: Net + Copy> MioReactor<R> {
    /// A reactor without a world, for which this runtime opens sockets. Takes no memory, and opens
    /// none yet.
    pub fn make(rt: R) -> MioReactor<R>
        ensures state { result.state ≡ idle_state }
        ensures faults { result.faults ≡ 0 }
    {
        MioReactor {
            rt,
            up: false,
            faults: 0,
            playing: None,
        }
    }

    /// The bytes that the far end of a stream has read since the latest `set_up`; none for a stream
    /// that the world hasn't. No clause says which; tests compare them.
    pub fn received(&self, stream: StreamNo) -> &[u8] {
        match &self.playing {
            Some(playing) => playing.received(stream),
            None => &[],
        }
    }

    /// Counts a failing system call.
    fn fail(&mut self)
        ensures state { self.new.state ≡ self.old.state }
        ensures faults { self.new.faults ≡ one_more self.old.faults }
    {
        self.faults = self.faults.saturating_add(1);
    }
}

impl<R: Net + Copy> Reactor for MioReactor<R> {
    ghost faults = { λ r. r.faults };

    ghost state = { λ r. r.state };

    ghost told = { λ r. None };

    /// Opens one connection for each stream, and none for a world without one. Takes memory for the
    /// lines and for what they bring.
    fn set_up(&mut self, alloc: Global, world: &World) -> Result<(), SetupFault> {
        self.up = false;
        match Playing::set(&self.rt, alloc, world) {
            Ok(playing) => {
                self.playing = Some(playing);
                self.up = true;
                Ok(())
            }
            Err(SetupFault::Failed) => {
                self.fail();
                Err(SetupFault::Failed)
            }
            Err(SetupFault::NoMemory) => Err(SetupFault::NoMemory),
        }
    }

    /// Lets all far ends go on first, so that where this fails no time has moved.
    fn advance(&mut self, limit: Option<u64>) -> Result<Point, Failed> {
        let Some(playing) = &mut self.playing else {
            unreachable!()
        };
        if playing.pump_all().is_err() {
            self.fail();
            return Err(Failed);
        }
        Ok(playing.advance(limit))
    }

    /// Waits at most 100 times 100 milliseconds for bytes that are under way.
    fn read_some(&mut self, stream: StreamNo, buf: &mut [u8]) -> Result<Moved, Failed> {
        let Some(playing) = &mut self.playing else {
            unreachable!()
        };
        let answer = playing.read_some(stream, buf);
        if answer.is_err() {
            self.fail();
        }
        answer
    }

    fn write_some(&mut self, stream: StreamNo, bytes: &[u8]) -> Result<Moved, Failed> {
        let Some(playing) = &mut self.playing else {
            unreachable!()
        };
        let answer = playing.write_some(stream, bytes);
        if answer.is_err() {
            self.fail();
        }
        answer
    }

    /// Drops both ends of the connection.
    fn close(&mut self, stream: StreamNo) {
        let Some(playing) = &mut self.playing else {
            unreachable!()
        };
        playing.close(stream);
    }
}
