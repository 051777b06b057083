ghost use Rattle.std.specs.Prelude.{◌≡◌, ◌+◌, ◌<◌, ◌≤◌, ◌++◌, All, length, true};
ghost use Rattle.std.specs.Vec.{vec_capacity, vec_len};
ghost use Rattle.std.specs.VecDeque.{deque_capacity, deque_len};
ghost use Rattle.stream_rules.specs.Pipes.{pipe_stream};
ghost use Rattle.history_book.specs.Asking.{IsReading, IsWriting, queues_of};
ghost use Rattle.history_rules.specs.Settling.{served_at, served_stream, settled, with_streams_served, with_waits_served, AreDueTogether};

use crate::asking::{Asking, Queues};
use crate::reactor_half::ReactorWorks;
use crate::waiting::{Which, complete_waits};
use asio_types::Code;
use stream_rules::{Completion, Pipe, serve_reads, serve_writes};

/// Serves a stream: its reads from the head, and then its writes.
pub(crate) fn serve_stream(
    asking: &Asking,
    queues: &mut Queues,
    pipe: &mut Pipe,
    due: &mut Vec<Completion>,
)
    requires reads { All (λ queued. IsReading asking.now.script.now queued.op)
        queues.old.reads.items }
    requires writes { All (λ queued. IsWriting asking.now.script.now queued.op)
        queues.old.writes.items }
    requires room { vec_len due.old + deque_len queues.old.reads + deque_len queues.old.writes
        ≤ vec_capacity due.old }
    ensures completed { due.new.items
        ≡ due.old.items
        ++ (served_stream (pipe_stream pipe.old)
        (queues_of asking.now.script.now queues.old)).completed }
    ensures staying { queues_of asking.now.script.now queues.new ≡
        (served_stream (pipe_stream pipe.old) (queues_of asking.now.script.now queues.old)).queues }
    ensures stream { pipe_stream pipe.new
        ≡ (served_stream (pipe_stream pipe.old)
        (queues_of asking.now.script.now queues.old)).stream }
    ensures reads { All (λ queued. IsReading asking.now.script.now queued.op)
        queues.new.reads.items }
    ensures writes { All (λ queued. IsWriting asking.now.script.now queued.op)
        queues.new.writes.items }
    ensures each_once { vec_len due.new + deque_len queues.new.reads + deque_len queues.new.writes ≡
        vec_len due.old + deque_len queues.old.reads + deque_len queues.old.writes }
    ensures bytes_left { pipe.new.inbound.left ≡ pipe.old.inbound.left }
    ensures room_left { pipe.new.outbound.left ≡ pipe.old.outbound.left }
    ensures due_room { vec_capacity due.new ≡ vec_capacity due.old }
    ensures reads_room { deque_capacity queues.new.reads ≡ deque_capacity queues.old.reads }
    ensures writes_room { deque_capacity queues.new.writes ≡ deque_capacity queues.old.writes }
{
    serve_reads(asking, &mut queues.reads, pipe, due);
    serve_writes(asking, &mut queues.writes, pipe, due);
}

impl<'a> ReactorWorks<'a> {
    /// The waits that are due complete.
    fn serve_waits(&mut self)
        requires { AreDueTogether self.old.half }
        ensures { self.new ≡ record self.old { half = with_waits_served self.old.half } }
    {
        let now = self.world.now();
        let which = Which::Due {
            now,
            expiries: self.expiries.as_slice(),
        };
        complete_waits(&which, Code::Ok, &mut self.waits, &mut self.due);
    }

    /// The stream with this number is served.
    fn serve(&mut self, stream: usize)
        requires { stream < length self.old.half.queues }
        ensures { self.new ≡ record self.old { half = served_at stream self.old.half } }
    {
        let asking = Asking {
            script: self.script,
        };
        let queues = &mut self.queues[stream];
        self.world.serve(stream, &asking, queues, &mut self.due);
    }

    /// All streams are served, where their bytes are told.
    fn serve_streams(&mut self)
        ensures { self.new
            ≡ record self.old { half = with_streams_served self.old.told self.old.half } }
    {
        if !self.world.told {
            return;
        }
        for stream in 0..self.queues.len() {
            self.serve(stream);
        }
    }

    /// A turn of the reactor, after which nothing more completes by itself.
    pub(crate) fn settle(&mut self)
        requires { AreDueTogether self.old.half }
        ensures { self.new ≡ record self.old { half = settled self.old.told self.old.half } }
    {
        self.serve_waits();
        self.whole_turn = true;
        self.reached = 0;
        self.serve_streams();
    }
}
