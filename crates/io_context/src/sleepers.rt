ghost use Rattle.std.specs.Prelude.{◌≡◌, ◌<◌, false};
ghost use Rattle.io_context.specs.declared.sleepers.Watch.TheVariants as watch;
ghost use Rattle.io_context.specs.Sleeping.{IsInTime, SleepWhileIdle, first_expiry, is_called, is_quiet, watches};
ghost use Rattle.io_scheduler.specs.Tallied.{is_over};

use io_handlers::Handler;
use io_history::Named;
use io_scheduler::Scheduler;

/// Who watches the outside, until the first wait that is pending is due.
#[derive(Clone, Copy)]
pub(crate) enum Watch {
    /// Nobody.
    Nobody,
    /// A worker, which waits no longer than until this time.
    Until { expiry: u64 },
    /// A worker that is called and not back yet.
    Called,
}

/// Workers that sleep.
#[derive(Clone, Copy)]
pub(crate) struct Sleepers {
    /// How many sleep without watching the clock, and aren't called.
    pub(crate) asleep: u64,
    /// How many of these are called and not back yet.
    pub(crate) called: u64,
    /// The one that watches the clock.
    pub(crate) watch: Watch,
}

/// Which sleepers are notified. It can't be lost.
pub(crate) enum Wake {
    /// None.
    Nobody,
    /// One of those that don't watch the clock.
    One,
    /// The one that does.
    Watcher,
    /// All.
    All,
}

/// How a worker sleeps.
#[derive(Clone, Copy)]
pub(crate) enum Rest {
    /// Until it is called.
    Sleep,
    /// Until this time, or until it is called.
    Watch(u64),
}

impl Watch {
    /// Whether one watches the clock who isn't called.
    fn is_on(&self) -> bool
        ensures { result ≡ watches self.now }
    {
        matches!(self, Watch::Until { expiry: _ })
    }

    /// Whether the one who did is called, and not back yet.
    fn is_called(&self) -> bool
        ensures { result ≡ is_called self.now }
    {
        matches!(self, Watch::Called)
    }

    /// Whether whoever watches the clock sleeps longer than until the first wait is due.
    fn is_late(&self, first: Option<u64>) -> bool
        ensures { result ≡ false → IsInTime self.now first }
    {
        match (self, first) {
            (Watch::Until { expiry }, Some(first)) => first < *expiry,
            _ => false,
        }
    }
}

impl Sleepers {
    /// None.
    pub(crate) fn none() -> Sleepers
        ensures { result ≡ record { asleep = 0; called = 0; watch = watch.Nobody } }
    {
        Sleepers {
            asleep: 0,
            called: 0,
            watch: Watch::Nobody,
        }
    }

    /// One more sleeps: it watches the outside until the first wait is due, if nobody else does.
    pub(crate) fn rest(&mut self, first: Option<u64>) -> Rest {
        match self.watch {
            Watch::Nobody => {
                let expiry = first.unwrap_or(u64::MAX);
                self.watch = Watch::Until { expiry };
                Rest::Watch(expiry)
            }
            _ => {
                self.asleep = self.asleep.saturating_add(1);
                Rest::Sleep
            }
        }
    }

    /// One is to look at the outside with no wait, if nobody watches it; answers whether it is.
    pub(crate) fn glance(&mut self) -> bool {
        match self.watch {
            Watch::Nobody => {
                self.watch = Watch::Called;
                true
            }
            _ => false,
        }
    }

    /// One that slept is back: one that was called, if any was.
    pub(crate) fn awake(&mut self) {
        if self.called > 0 {
            self.called -= 1;
        } else {
            self.asleep = self.asleep.saturating_sub(1);
        }
    }

    /// The one that watched the clock is back.
    pub(crate) fn watched(&mut self) {
        self.watch = Watch::Nobody;
    }

    /// Whether none is called and not back yet.
    fn is_quiet(&self) -> bool
        ensures { result ≡ is_quiet self.now }
    {
        self.called == 0 && !self.watch.is_called()
    }

    /// All are called.
    fn call_all(&mut self) -> Wake
        ensures none { self.new.asleep ≡ 0 }
        ensures watch { watches self.new.watch ≡ false }
    {
        self.called = self.called.saturating_add(self.asleep);
        self.asleep = 0;
        if self.watch.is_on() {
            self.watch = Watch::Called;
        }
        Wake::All
    }

    /// One that doesn't watch the clock is called.
    fn call_one(&mut self) -> Wake
        ensures called { 0 < self.new.called }
        ensures watch { self.new.watch ≡ self.old.watch }
    {
        self.asleep = self.asleep.saturating_sub(1);
        self.called = self.called.saturating_add(1);
        Wake::One
    }

    /// The one that watches the clock is called.
    fn call_watcher(&mut self) -> Wake
        ensures { self.new.watch ≡ watch.Called }
    {
        self.watch = Watch::Called;
        Wake::Watcher
    }

    /// Calls all where a call of `run` is to return; the one that watches the outside where a wait is due
    /// before it looks again; and where none is called yet, one if a handler may begin or a socket is to be
    /// looked at, or if nobody watches the outside.
    pub(crate) fn call<H: Handler, C: Named>(
        &mut self,
        scheduler: &Scheduler<H, C>,
        listed: bool,
    ) -> Wake
        ensures { SleepWhileIdle self.new scheduler.now listed }
    {
        let first = scheduler.next_expiry();
        if scheduler.is_over() {
            return self.call_all();
        }
        if self.watch.is_late(first) {
            return self.call_watcher();
        }
        if !self.is_quiet() {
            return Wake::Nobody;
        }
        if self.asleep > 0 {
            return self.call_sleeper(scheduler, listed);
        }
        self.call_watching(scheduler, listed)
    }

    /// Likewise, where some sleep beside the one that watches the outside, if one does, and none is called.
    fn call_sleeper<H: Handler, C: Named>(
        &mut self,
        scheduler: &Scheduler<H, C>,
        listed: bool,
    ) -> Wake
        requires going { is_over scheduler.now ≡ false }
        requires in_time { IsInTime self.old.watch (first_expiry scheduler.now) }
        ensures { SleepWhileIdle self.new scheduler.now listed }
    {
        if listed {
            return self.call_one();
        }
        if scheduler.may_begin() {
            return self.call_one();
        }
        if self.watch.is_on() {
            return Wake::Nobody;
        }
        self.call_one()
    }

    /// Likewise, where no other sleeps.
    fn call_watching<H: Handler, C: Named>(
        &mut self,
        scheduler: &Scheduler<H, C>,
        listed: bool,
    ) -> Wake
        requires going { is_over scheduler.now ≡ false }
        requires alone { self.old.asleep ≡ 0 }
        requires in_time { IsInTime self.old.watch (first_expiry scheduler.now) }
        ensures { SleepWhileIdle self.new scheduler.now listed }
    {
        if !self.watch.is_on() {
            return Wake::Nobody;
        }
        if listed {
            return self.call_watcher();
        }
        if scheduler.may_begin() {
            return self.call_watcher();
        }
        Wake::Nobody
    }
}
