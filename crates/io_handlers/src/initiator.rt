ghost use Rattle.std.specs.Prelude.{◌≡◌, ◌<◌, ◌&&◌, if◌then◌else◌, false, nat_lt, IfErr, IfNone, IfOk, IfSome, OnErr, OnOk, Some};
ghost use Rattle.std.specs.Option.{is_some};
ghost use Rattle.io_rules.specs.declared.control.Control.TheVariants as control;
ghost use Rattle.io_rules.specs.declared.name.Kind.TheVariants as kind;
ghost use Rattle.io_rules.specs.declared.operation.Operation.TheVariants as operation;
ghost use Rattle.io_handlers.specs.Initiated.{MayInitiate, called, changed, delay_of, delayed, initiating, made_strand};

use crate::staged::{Full, Initiating};
use crate::staging::Staging;
use io_rules::{Control, Kind, Lane, Name, Operation};
use std::marker::Model;
use std::time::Duration;

/// What a handler that executes initiates operations with. What it takes is accepted, and takes effect in
/// order when the handler has returned. Contracts see what is staged, and for how much more there is room.
pub struct Initiator<H, S> {
    pub(crate) staging: Staging<H, S>,
}

impl<H, S> Model for Initiator<H, S> {
    ghost use Rattle.io_handlers.specs.Initiated.{Initiated};

    ghost Value = { Initiated H S };

    ghost view = { λ i. i.staging };
}

/// So many nanoseconds, at most as many as there are.
fn delay_of(after: Duration) -> u64
    ensures { result ≡ delay_of after }
{
    u64::try_from(after.as_nanos()).unwrap_or(u64::MAX)
}

impl<H, S> Initiator<H, S> {
    /// `post`: a handler that is ready behind all others there. `Full` gives it back where no place or no
    /// room is left, and then nothing has changed.
    pub fn post(&mut self, lane: Lane, handler: H) -> Result<(), Full<H>>
        ensures may { OnOk result (MayInitiate self.old) }
        ensures called { OnOk result
            (self.new ≡ called (initiating lane operation.Post handler) self.old) }
        ensures full { OnErr result (¬ MayInitiate self.old) }
        ensures same { OnErr result (self.new ≡ self.old) }
        ensures back { IfErr result (λ full. full.0 ≡ handler) }
    {
        let kind = Operation::Post;
        self.staging.initiate(Initiating {
            lane,
            binding: None,
            kind,
            buffer: None,
            handler,
        })
    }

    /// `defer`: likewise.
    pub fn defer(&mut self, lane: Lane, handler: H) -> Result<(), Full<H>>
        ensures may { OnOk result (MayInitiate self.old) }
        ensures called { OnOk result
            (self.new ≡ called (initiating lane operation.Defer handler) self.old) }
        ensures full { OnErr result (¬ MayInitiate self.old) }
        ensures same { OnErr result (self.new ≡ self.old) }
        ensures back { IfErr result (λ full. full.0 ≡ handler) }
    {
        let kind = Operation::Defer;
        self.staging.initiate(Initiating {
            lane,
            binding: None,
            kind,
            buffer: None,
            handler,
        })
    }

    /// `dispatch`: on the strand of the handler that calls it, before all others that are ready there.
    pub fn dispatch(&mut self, lane: Lane, handler: H) -> Result<(), Full<H>>
        ensures may { OnOk result (MayInitiate self.old) }
        ensures called { OnOk result
            (self.new ≡ called (initiating lane operation.Dispatch handler) self.old) }
        ensures full { OnErr result (¬ MayInitiate self.old) }
        ensures same { OnErr result (self.new ≡ self.old) }
        ensures back { IfErr result (λ full. full.0 ≡ handler) }
    {
        let kind = Operation::Dispatch;
        self.staging.initiate(Initiating {
            lane,
            binding: None,
            kind,
            buffer: None,
            handler,
        })
    }

    /// `basic_waitable_timer::async_wait`: a handler that is ready once the timer's expiry has passed, or once
    /// the wait is cancelled. Where the timer or the strand is gone by then, it completes at once with
    /// bad_descriptor, without a strand where that one is gone. Likewise.
    pub fn wait(&mut self, timer: Name, lane: Lane, handler: H) -> Result<(), Full<H>>
        ensures may { OnOk result (MayInitiate self.old) }
        ensures called { OnOk result
            (self.new ≡ called (initiating lane (operation.Wait timer) handler) self.old) }
        ensures full { OnErr result (¬ MayInitiate self.old) }
        ensures same { OnErr result (self.new ≡ self.old) }
        ensures back { IfErr result (λ full. full.0 ≡ handler) }
    {
        let kind = Operation::Wait { timer };
        self.staging.initiate(Initiating {
            lane,
            binding: None,
            kind,
            buffer: None,
            handler,
        })
    }

    /// `io_context::stop`; answers whether there was room for the call, and where not nothing has changed.
    pub fn stop(&mut self) -> bool
        ensures room { result ≡ nat_lt 0 self.old.room }
        ensures stopped { self.new ≡ (if result then changed control.Stop self.old else self.old) }
    {
        self.staging.change(Control::Stop)
    }

    /// Makes a timer, whose expiry has passed (`basic_waitable_timer`), under a name that is kept for the
    /// handler: it can be named at once, also in what the handler initiates. `None` where no name is left, or
    /// no room for the call, and then nothing has changed.
    pub fn make_timer(&mut self) -> Option<Name>
        ensures kept { IfSome result (λ name. self.old.spares.timer ≡ Some name) }
        ensures room { IfSome result (λ name. 0 < self.old.room) }
        ensures made { IfSome result (λ name. self.new ≡ changed (control.Make kind.Timer name) self.old) }
        ensures refused { IfNone result ((nat_lt 0 self.old.room && is_some self.old.spares.timer) ≡ false) }
        ensures same { IfNone result (self.new ≡ self.old) }
    {
        match self.staging.spares().timer {
            None => None,
            Some(name) => {
                let kind = Kind::Timer;
                if self.staging.change(Control::Make { kind, name }) {
                    Some(name)
                } else {
                    None
                }
            }
        }
    }

    /// `basic_waitable_timer::expires_at`: a timer's expiry, in nanoseconds since the context was made. What
    /// waits on it completes with operation_aborted; no effect where its name is gone. Answers whether there
    /// was room for the call, and where not nothing has changed.
    pub fn expires_at(&mut self, timer: Name, at: u64) -> bool
        ensures room { result ≡ nat_lt 0 self.old.room }
        ensures changed { self.new ≡ (if result then changed (control.Expires timer at) self.old else self.old) }
    {
        self.staging.change(Control::Expires { timer, at })
    }

    /// `basic_waitable_timer::expires_after`: likewise so much later than the clock shows when the handler has
    /// returned.
    pub fn expires_after(&mut self, timer: Name, after: Duration) -> bool
        ensures room { result ≡ nat_lt 0 self.old.room }
        ensures delayed { self.new ≡ (if result then delayed timer (delay_of after) self.old else self.old) }
    {
        self.staging.delay(timer, delay_of(after))
    }

    /// `basic_waitable_timer::cancel`: likewise, and the expiry stays.
    pub fn cancel(&mut self, timer: Name) -> bool
        ensures room { result ≡ nat_lt 0 self.old.room }
        ensures changed { self.new ≡ (if result then changed (control.Cancel timer) self.old else self.old) }
    {
        self.staging.change(Control::Cancel { timer })
    }

    /// `basic_waitable_timer::cancel_one`: likewise of the first that waits.
    pub fn cancel_one(&mut self, timer: Name) -> bool
        ensures room { result ≡ nat_lt 0 self.old.room }
        ensures changed { self.new ≡ (if result then changed (control.CancelOne timer) self.old else self.old) }
    {
        self.staging.change(Control::CancelOne { timer })
    }

    /// Destroys a timer: its name is gone, and what waits on it completes with operation_aborted. Likewise.
    pub fn free_timer(&mut self, timer: Name) -> bool
        ensures room { result ≡ nat_lt 0 self.old.room }
        ensures changed { self.new ≡ (if result then changed (control.Free kind.Timer timer) self.old else self.old) }
    {
        self.staging.change(Control::Free {
            kind: Kind::Timer,
            name: timer,
        })
    }

    /// Makes a strand (`make_strand`) with this state, under a name that is kept for the handler: it can be
    /// named at once, also in what the handler initiates. `Full` gives the state back where no name is left, or
    /// no room for the call, and then nothing has changed.
    pub fn make_strand(&mut self, state: S) -> Result<Name, Full<S>>
        ensures kept { IfOk result (λ name. self.old.spares.strand ≡ Some name) }
        ensures room { OnOk result (0 < self.old.room) }
        ensures made { IfOk result (λ name. self.new ≡ made_strand name state self.old) }
        ensures refused { OnErr result ((nat_lt 0 self.old.room && is_some self.old.spares.strand) ≡ false) }
        ensures same { OnErr result (self.new ≡ self.old) }
        ensures back { IfErr result (λ full. full.0 ≡ state) }
    {
        match self.staging.spares().strand {
            None => Err(Full(state)),
            Some(name) => {
                if !self.staging.has_room() {
                    return Err(Full(state));
                }
                self.staging.make_strand(name, state);
                Ok(name)
            }
        }
    }

    /// Frees a strand: its name is gone, and nothing more is accepted on it. What it has still executes there,
    /// and then its state is retired; no effect where its name is gone. Answers whether there was room for the
    /// call, and where not nothing has changed.
    pub fn free_strand(&mut self, strand: Name) -> bool
        ensures room { result ≡ nat_lt 0 self.old.room }
        ensures changed { self.new ≡ (if result then changed (control.Free kind.Strand strand) self.old else self.old) }
    {
        self.staging.change(Control::Free {
            kind: Kind::Strand,
            name: strand,
        })
    }

    /// Its handler has returned: what it staged is to take effect.
    pub fn returned(self) -> Staging<H, S>
        ensures { result ≡ self }
    {
        let Initiator { staging } = self;
        staging
    }
}
