ghost use Rattle.std.specs.Prelude.{◌≡◌, ◌≢◌, ◌<◌, ◌≤◌, ℕ, Option, IsTrue, IfOk, IfSome, OnErr, OnOk, length, take};
ghost use Rattle.std.specs.Option.{ForSome, option_map};
ghost use Rattle.asio_types.specs.Faults.{CountsFaults};
ghost use Rattle.stream_rules.specs.Moving.{moved_count, read_answer, write_answer};
ghost use Rattle.stream_rules.specs.Serving.{Some_of, after_reading, after_writing};
ghost use Rattle.stream_rules.specs.World.{HasItsStreams, next_point, stream_at};
ghost use Rattle.reactor_trait.specs.Reactor.{ReactorState, Outside, stream_count, IsOpen, state_ready, outside_ready, state_refused, state_at, outside_at, IsMoveWithin, with_stream, state_closed, outside_closed, CountsSetupFaults};

use asio_types::{Failed, Moved, Point, SetupFault, StreamNo, World};
use std::alloc::Global;

/// What an io_context waits for: scripted time, and streams that give and take bytes (Asio
/// reference, Overview, "The Proactor Design Pattern: Concurrency Without Threads").
///
/// Every reactor tells its state: whether it is set up, the time, the times to come, which streams
/// are closed, and whether it has said that no further time point exists. It counts its faults: a
/// call fails only where that count rose, and the count never falls. A reactor may also tell its
/// bytes: for each stream what arrived and wasn't given, the room, the marks and what was sent, and
/// the lines to come. A reactor that tells them goes on telling them.
///
/// In `crates/reactor_trait/src/silent_reactor.rt`:
///
/// ```rust
/// impl Reactor for SilentReactor {
///     ghost faults = { λ r. 0 };
///
///     ghost state = { λ r. r };
///
///     ghost told = { λ r. None };
/// ..
///     fn advance(&mut self, limit: Option<u64>) -> Result<Point, Failed> {
///         let point = self.schedule.advance(limit);
///         match point {
///             Point::Time(_) => {}
///             Point::Last => self.last = true,
///         }
///         Ok(point)
///     }
/// ```
pub trait Reactor: Drop {
    /// How often it has failed.
    ghost faults: { Self → ℕ };

    /// What every reactor tells.
    ghost state: { Self → ReactorState };

    /// Its bytes, where it tells them.
    ghost told: { Self → Option Outside };

    /// Makes every stream of the world new and open, makes the time 0 and performs the lines of
    /// time 0. After a refusal the reactor isn't set up, and all else is as before.
    fn set_up(&mut self, alloc: Global, world: &World) -> Result<(), SetupFault>
        requires { HasItsStreams world.now }
        ensures ready { OnOk result (state self.new ≡ state_ready world.now) }
        ensures refused { OnErr result (state self.new ≡ state_refused (state self.old)) }
        ensures told_ready { OnOk result
            (told self.new ≡ option_map (λ _. outside_ready world.now) (told self.old)) }
        ensures told_refused { OnErr result (told self.new ≡ told self.old) }
        ensures counts { CountsSetupFaults result (faults self.old) (faults self.new) }
        ensures later { faults self.old ≤ faults self.new };

    /// Moves the time to the least of the limit and of the times to come, and performs the lines of
    /// that time in text order. Answers `Last` where there is neither; each side of a stream that
    /// has no mark then gets its own: end of file for reading, a broken pipe for writing. After a
    /// failure all is as before.
    fn advance(&mut self, limit: Option<u64>) -> Result<Point, Failed>
        requires up { IsTrue (state self.old).up }
        requires ahead { ForSome limit (λ time. (state self.old).now < time) }
        ensures answer { IfOk result (λ point. point ≡ next_point limit (state self.old).times) }
        ensures moves { IfOk result (λ point. state self.new ≡ state_at point (state self.old)) }
        ensures told_moves { IfOk result
            (λ point. told self.new ≡ option_map (outside_at point) (told self.old)) }
        ensures failed { OnErr result (state self.new ≡ state self.old) }
        ensures told_failed { OnErr result (told self.new ≡ told self.old) }
        ensures counts { CountsFaults result (faults self.old) (faults self.new) }
        ensures later { faults self.old ≤ faults self.new };

    /// Gives bytes that arrived on a stream (Asio reference, `async_read_some`): the next ones, at
    /// least one and at most the buffer's length; what the buffer has behind them is left open.
    /// Where none is there, the answer is `End` at end of file, `Reset` where the peer is gone, and
    /// else `NotYet`, which never comes after an advance that answered `Last`. After a failure all
    /// but the buffer is as before.
    fn read_some(&mut self, stream: StreamNo, buf: &mut [u8]) -> Result<Moved, Failed>
        requires up { IsTrue (state self.old).up }
        requires known { stream < stream_count (state self.old) }
        requires open { IsOpen (state self.old) stream }
        requires room { 0 < length buf.old }
        ensures keeps { state self.new ≡ state self.old }
        ensures within { IfOk result (IsMoveWithin (length buf.old)) }
        ensures after_last { IsTrue (state self.old).last →
            IfOk result (λ moved. moved ≢ Moved.NotYet) }
        ensures told_answer { IfOk result (λ moved. IfSome (told self.old)
            (λ outside. moved ≡ read_answer (length buf.old) (stream_at outside.streams stream))) }
        ensures told_bytes { IfOk result (λ moved.
            IfSome (told self.old) (λ outside.
            take (moved_count moved) buf.new
            ≡ take (moved_count moved) (stream_at outside.streams stream).arrived)) }
        ensures told_gives { IfOk result (λ moved.
            told self.new
            ≡ option_map (with_stream stream (after_reading (moved_count moved)))
            (told self.old)) }
        ensures told_failed { OnErr result (told self.new ≡ told self.old) }
        ensures counts { CountsFaults result (faults self.old) (faults self.new) }
        ensures later { faults self.old ≤ faults self.new };

    /// Takes bytes for the peer of a stream (Asio reference, `async_write_some`): the first ones,
    /// at least one, and at most as many as there is room for. Where there is no room, the answer
    /// is `End` for a broken pipe, `Reset` where the peer is gone, and else `NotYet`, which never
    /// comes after an advance that answered `Last`. After a failure all is as before.
    fn write_some(&mut self, stream: StreamNo, bytes: &[u8]) -> Result<Moved, Failed>
        requires up { IsTrue (state self.old).up }
        requires known { stream < stream_count (state self.old) }
        requires open { IsOpen (state self.old) stream }
        requires some { 0 < length bytes.now }
        ensures keeps { state self.new ≡ state self.old }
        ensures within { IfOk result (IsMoveWithin (length bytes.now)) }
        ensures after_last { IsTrue (state self.old).last →
            IfOk result (λ moved. moved ≢ Moved.NotYet) }
        ensures told_answer { IfOk result (λ moved. IfSome (told self.old)
            (λ outside. moved ≡ write_answer bytes.now (stream_at outside.streams stream))) }
        ensures told_takes { IfOk result (λ moved.
            told self.new
            ≡ option_map
            (with_stream stream (after_writing (Some_of bytes.now) 0 (moved_count moved)))
            (told self.old)) }
        ensures told_failed { OnErr result (told self.new ≡ told self.old) }
        ensures counts { CountsFaults result (faults self.old) (faults self.new) }
        ensures later { faults self.old ≤ faults self.new };

    /// Closes a stream (Asio reference, `basic_stream_socket::close`): its bytes there and its room
    /// are dropped, and what was sent stays.
    fn close(&mut self, stream: StreamNo)
        requires up { IsTrue (state self.old).up }
        requires known { stream < stream_count (state self.old) }
        requires open { IsOpen (state self.old) stream }
        ensures closes { state self.new ≡ state_closed stream (state self.old) }
        ensures told_closes { told self.new ≡ option_map (outside_closed stream) (told self.old) }
        ensures counts { faults self.new ≡ faults self.old };
}
