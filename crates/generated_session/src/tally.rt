ghost use Rattle.std.specs.Prelude.{◌≡◌, ◌≤◌, ◌<◌, ◌+◌, ◌^◌, []};
ghost use Rattle.generated_session.specs.Summary.{tally_after, tally_of};

use asio_types::{Code, Event};

/// How the last round of a history closed.
#[derive(Clone, Copy)]
pub(crate) enum Closing {
    /// No round has closed.
    Open,
    /// By `ended`.
    Ended,
    /// By `stopped`.
    Stopped,
    /// By `polled`.
    Polled,
}

/// What a summary says of a history.
#[derive(Clone, Copy)]
pub(crate) struct SummaryTally {
    // the calls
    pub(crate) acts: u64,
    // the handlers that ran
    pub(crate) executed: u64,
    // the handlers that were destroyed
    pub(crate) dropped: u64,
    // the operations that completed with `operation_aborted`
    pub(crate) aborted: u64,
    // the sum of the marks of the handlers that ran
    pub(crate) marks: u128,
    // the time of the last tick
    pub(crate) time: u64,
    // whether the reactor failed
    pub(crate) fault: bool,
    // how the last round closed
    pub(crate) closing: Closing,
}

impl SummaryTally {
    /// What a summary says of these events.
    pub(crate) fn of(events: &[Event]) -> SummaryTally
        ensures { result ≡ tally_of events.now }
    {
        let mut tally = SummaryTally::empty();
        for event in events {
            tally = tally.with(*event);
        }
        tally
    }

    fn empty() -> SummaryTally
        ensures { result ≡ tally_of [] }
    {
        SummaryTally {
            acts: 0,
            executed: 0,
            dropped: 0,
            aborted: 0,
            marks: 0,
            time: 0,
            fault: false,
            closing: Closing::Open,
        }
    }

    /// One event later.
    fn with(self, event: Event) -> SummaryTally
        requires acts { self.acts + 1 < 2 ^ 64 }
        requires executed { self.executed + 1 < 2 ^ 64 }
        requires dropped { self.dropped + 1 < 2 ^ 64 }
        requires aborted { self.aborted + 1 < 2 ^ 64 }
        requires marks { self.marks + 2 ^ 64 ≤ 2 ^ 128 }
        ensures counted { result ≡ tally_after self event }
        ensures bound { result.marks < self.marks + 2 ^ 64 }
    {
        let mut tally = self;
        match event {
            Event::Call { .. } => tally.acts += 1,
            Event::End { mark, .. } => {
                tally.executed += 1;
                tally.marks += mark as u128;
            }
            Event::Dropped { .. } => tally.dropped += 1,
            Event::Done {
                code: Code::Aborted,
                ..
            } => tally.aborted += 1,
            Event::Tick { now } => tally.time = now,
            Event::Fault => tally.fault = true,
            Event::Ended => tally.closing = Closing::Ended,
            Event::Stopped => tally.closing = Closing::Stopped,
            Event::Polled => tally.closing = Closing::Polled,
            Event::Back { .. } | Event::Stop { .. } | Event::Begin { .. } | Event::Take { .. } => {}
            Event::Done { .. } | Event::Last | Event::Restart => {}
        }
        tally
    }
}
