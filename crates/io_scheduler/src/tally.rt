ghost use Rattle.std.specs.Prelude.{◌≡◌, ◌+◌, ◌<◌, false, true};
ghost use Rattle.io_scheduler.specs.Tallied.{rests, tally_back, tally_begun, tally_called, tally_completed, tally_ended, tally_out, tally_pended};

/// How many operations there are.
#[derive(Clone, Copy)]
pub(crate) struct Tally {
    /// Those that wait for their handlers' execution.
    pub(crate) waiting: u64,
    /// Those whose handlers execute.
    pub(crate) running: u64,
    /// Those of streams and listeners that are pending.
    pub(crate) streaming: u64,
    /// How many sockets are in system calls.
    pub(crate) out: u64,
}

impl Tally {
    /// Before the first event.
    pub(crate) fn new() -> Tally
        ensures { result ≡ record { waiting = 0; running = 0; streaming = 0; out = 0 } }
    {
        Tally {
            waiting: 0,
            running: 0,
            streaming: 0,
            out: 0,
        }
    }

    /// One more is called, and ready.
    pub(crate) fn call(&mut self)
        requires { self.old.waiting < 18446744073709551615 }
        ensures { self.new ≡ tally_called self.old }
    {
        self.waiting += 1;
    }

    /// One more is pending on a stream.
    pub(crate) fn pend(&mut self)
        requires { self.old.streaming < 18446744073709551615 }
        ensures { self.new ≡ tally_pended self.old }
    {
        self.streaming += 1;
    }

    /// One that waited begins.
    pub(crate) fn begin(&mut self)
        requires { self.old.running < 18446744073709551615 }
        ensures { self.new ≡ tally_begun self.old }
    {
        self.waiting = self.waiting.saturating_sub(1);
        self.running += 1;
    }

    /// One that executed has returned.
    pub(crate) fn end(&mut self)
        ensures { self.new ≡ tally_ended self.old }
    {
        self.running = self.running.saturating_sub(1);
    }

    /// One that was pending on a stream has completed.
    pub(crate) fn complete(&mut self)
        requires { self.old.waiting < 18446744073709551615 }
        ensures { self.new ≡ tally_completed self.old }
    {
        self.waiting += 1;
        self.streaming = self.streaming.saturating_sub(1);
    }

    /// One more socket is in a system call.
    pub(crate) fn go_out(&mut self)
        requires { self.old.out < 18446744073709551615 }
        ensures { self.new ≡ tally_out self.old }
    {
        self.out += 1;
    }

    /// One is back from its system call.
    pub(crate) fn come_in(&mut self)
        ensures { self.new ≡ tally_back self.old }
    {
        self.out = self.out.saturating_sub(1);
    }

    /// Whether none is left, but for waits that are pending.
    pub(crate) fn is_none(&self) -> bool
        ensures none { result ≡ true → self.now.waiting + self.now.running + self.now.streaming ≡ 0 }
        ensures some { result ≡ false → 0 < self.now.waiting + self.now.running + self.now.streaming }
    {
        self.waiting == 0 && self.running == 0 && self.streaming == 0
    }

    /// Whether none executes, and no socket is in a system call.
    pub(crate) fn rests(&self) -> bool
        ensures { result ≡ rests self.now }
    {
        self.running == 0 && self.out == 0
    }
}
