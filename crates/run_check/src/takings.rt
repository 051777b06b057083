ghost use Rattle.std.specs.Prelude.{◌≡◌, ◌<◌, ◌∷◌, [], List, IfOk, Some, None, IsTrue, true, ◌↔◌, length};
ghost use Rattle.run_lines.specs.declared.line.Doing.{Doing};
ghost use Rattle.run_rules.specs.declared.frame.Frame.{Frame};
ghost use Rattle.run_rules.specs.declared.taking.Resource.{Resource};
ghost use Rattle.run_rules.specs.declared.taking.Taking.{Taking};
ghost use Rattle.run_rules.specs.Takings.{taken_after, without};
ghost use Rattle.run_check.specs.Following.{GivesWhatIsTaken};
ghost use Rattle.std.specs.List.{list_any};
ghost use Rattle.run_check.specs.Takings.{AreCounted, is_in, is_of, has_frame, IsAlone};

use crate::counts::Counts;
use crate::refusal::NoRoom;
use run_lines::Doing;
use run_rules::{Frame, Resource, Taking};
use std::alloc::Global;

/// A thread that has taken something.
#[derive(Clone, Copy, PartialEq, Eq, Hash)]
pub(crate) struct Claimant {
    thread: u64,
    resource: Resource,
}

/// What is taken and not given back, counted by each question that is asked.
#[derive(Drop)]
pub(crate) struct Takings {
    exact: Counts<Taking>,
    by_frame: Counts<Frame>,
    by_resource: Counts<Resource>,
    by_thread: Counts<Claimant>,
    /// How much is taken in all.
    number: u64,
}

/// Who has taken this, and what.
fn claimant_of(taking: Taking) -> Claimant
    ensures { result ≡ record { thread = taking.thread; resource = taking.resource } }
{
    Claimant {
        thread: taking.thread,
        resource: taking.resource,
    }
}

impl Takings {
    pub(crate) fn new(alloc: Global) -> Self
        ensures { AreCounted [] result }
    {
        Takings {
            exact: Counts::new(alloc),
            by_frame: Counts::new(alloc),
            by_resource: Counts::new(alloc),
            by_thread: Counts::new(alloc),
            number: 0,
        }
    }

    /// Whether this frame has taken this.
    pub(crate) fn has(&self, taking: Taking) -> bool
        ensures { (all : List Taking) → AreCounted all self.now → result ≡ is_in taking all }
    {
        0 < self.exact.get(taking)
    }

    /// Whether a frame has taken anything.
    pub(crate) fn has_any(&self, who: Frame) -> bool
        ensures { (all : List Taking) → AreCounted all self.now → result ≡ has_frame who all }
    {
        0 < self.by_frame.get(who)
    }

    /// Whether a thread has taken this.
    pub(crate) fn has_by(&self, thread: u64, resource: Resource) -> bool
        ensures { (all : List Taking) → AreCounted all self.now → result ≡ list_any (is_of thread resource) all }
    {
        0 < self.by_thread.get(Claimant { thread, resource })
    }

    /// Whether no other thread has taken this.
    pub(crate) fn is_alone(&self, thread: u64, resource: Resource) -> bool
        ensures { (all : List Taking) → AreCounted all self.now → IsTrue result ↔ IsAlone thread resource all }
    {
        self.by_resource.get(resource) == self.by_thread.get(Claimant { thread, resource })
    }

    /// How much is taken in all.
    pub(crate) fn number(&self) -> u64
        ensures { (all : List Taking) → AreCounted all self.now → result ≡ length all }
    {
        self.number
    }

    pub(crate) fn take(&mut self, taking: Taking) -> Result<(), NoRoom>
        ensures { IfOk result (λ _. (all : List Taking) → AreCounted all self.old → AreCounted (taking ∷ all) self.new) }
    {
        self.exact.add(taking)?;
        self.by_frame.add(taking.frame)?;
        self.by_resource.add(taking.resource)?;
        self.by_thread.add(claimant_of(taking))?;
        self.number = self.number.checked_add(1).ok_or(NoRoom)?;
        Ok(())
    }

    pub(crate) fn give(&mut self, taking: Taking) -> Result<(), NoRoom>
        ensures { IfOk result
            (λ _. (all : List Taking) → AreCounted all self.old → is_in taking all ≡ true →
            AreCounted (without taking all) self.new) }
    {
        self.exact.take_away(taking)?;
        self.by_frame.take_away(taking.frame)?;
        self.by_resource.take_away(taking.resource)?;
        self.by_thread.take_away(claimant_of(taking))?;
        self.number = self.number.saturating_sub(1);
        Ok(())
    }

    /// Follows a line of a thread, by this frame.
    pub(crate) fn follow(&mut self, thread: u64, frame: Frame, does: &Doing) -> Result<(), NoRoom>
        ensures { IfOk result
            (λ _. (all : List Taking) → AreCounted all self.old → GivesWhatIsTaken thread frame does.now all →
            AreCounted (taken_after thread frame does.now all) self.new) }
    {
        match *does {
            Doing::Claim { thing } => self.take(Taking {
                thread,
                frame,
                resource: Resource::Thing { thing },
            }),
            Doing::Lock { lock } => self.take(Taking {
                thread,
                frame,
                resource: Resource::Lock { lock },
            }),
            Doing::Release { thing } => self.give(Taking {
                thread,
                frame,
                resource: Resource::Thing { thing },
            }),
            Doing::Unlock { lock } => self.give(Taking {
                thread,
                frame,
                resource: Resource::Lock { lock },
            }),
            _ => Ok(()),
        }
    }
}
