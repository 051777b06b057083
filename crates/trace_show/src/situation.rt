use crate::detail::{Detail, class_words};
use crate::found::{Against, first_act};
use crate::lines::{EventKind, line_about, line_of_event, line_of_stop, number_of};
use crate::sizes::{write_sizes_cut_off, write_sizes_untold};
use asio_types::{ActNo, Class, Code, Event, Lane, NoMemory, OpNo};
use history_book::Replay;
use history_rules::{ActPhase, CallPhase};

/// The events of a trace up to a line, and what they left.
#[derive(Clone, Copy)]
pub(crate) struct Situation<'s, 'r> {
    pub(crate) replay: &'s Replay<'r>,
    pub(crate) before: &'s [Event],
    /// Whether the reactor tells its bytes.
    pub(crate) tells: bool,
}

impl<'s, 'r> Situation<'s, 'r> {
    /// The line of an act's last event of this kind.
    pub(crate) fn line(&self, kind: EventKind, n: ActNo) -> Option<u32> {
        line_about(self.before, kind, n)
    }

    /// The line of the last event that is this one.
    pub(crate) fn line_of_event(&self, event: Event) -> Option<u32> {
        line_of_event(self.before, event)
    }

    /// The line that stopped the context.
    pub(crate) fn line_of_stop(&self) -> Option<u32> {
        line_of_stop(self.before)
    }

    /// The line at which a lane had the one turn that a stop leaves it; none where it has had none since
    /// the stop.
    pub(crate) fn line_since_stop(&self, lane: Lane) -> Option<u32> {
        let mut stopped = false;
        let mut line = None;
        for (i, event) in self.before.iter().enumerate() {
            match event {
                Event::Restart => {
                    stopped = false;
                    line = None;
                }
                Event::Stop { .. } => stopped = true,
                other => {
                    if stopped && line.is_none() && self.has_turn(lane, i, *other) {
                        line = number_of(i);
                    }
                }
            }
        }
        line
    }

    /// Whether this event, at this place, is a turn of the lane: what begins inside its call is none.
    fn has_turn(&self, lane: Lane, place: usize, event: Event) -> bool {
        match event {
            Event::Begin { op, .. } => self.replay.lane(op) == lane && self.was_back(op, place),
            Event::Take { .. } | Event::Tick { .. } | Event::Last => lane == Lane::Reactor,
            _ => false,
        }
    }

    /// Whether the call of an act was back before this place.
    fn was_back(&self, n: ActNo, place: usize) -> bool {
        match self.line(EventKind::Back, n) {
            Some(line) => line as usize <= place,
            None => false,
        }
    }

    /// Which sizes an operation of a stream may complete with where bytes are untold; nothing where they
    /// are told.
    pub(crate) fn sizes_untold(&self, detail: &mut Detail, n: OpNo) -> Result<(), NoMemory> {
        let script = self.replay.script();
        if self.tells || n >= script.acts() {
            return Ok(());
        }
        write_sizes_untold(detail, script.act(n))
    }

    /// Which sizes a composed operation that was cut off with this code may complete with, where bytes
    /// are untold.
    pub(crate) fn sizes_cut_off(
        &self,
        detail: &mut Detail,
        n: OpNo,
        code: Code,
    ) -> Result<(), NoMemory> {
        let script = self.replay.script();
        if self.tells || n >= script.acts() || code != Code::Aborted {
            return Ok(());
        }
        write_sizes_cut_off(detail, script.act(n))
    }

    /// The first act of which this holds.
    pub(crate) fn first(&self, against: Against) -> Option<ActNo> {
        first_act(self.replay, against)
    }

    /// The name of a lane.
    pub(crate) fn lane(&self, detail: &mut Detail, lane: Lane) -> Result<(), NoMemory> {
        match lane {
            Lane::Strand(strand) => detail.field("strand ", strand as u64),
            Lane::Own(op) => detail.field("the lane of operation ", op as u64),
            Lane::Reactor => detail.words("the reactor"),
        }
    }

    /// What has become of an act, behind its name.
    pub(crate) fn act(&self, detail: &mut Detail, n: ActNo) -> Result<(), NoMemory> {
        if n >= self.replay.script().acts() {
            return detail.field("the script has no act ", n as u64);
        }
        match self.replay.act(n).phase {
            ActPhase::Absent => self.call(detail, n),
            ActPhase::Asked => self.request(detail, "act ", n),
            ActPhase::Requested => self.request(detail, "operation ", n),
            ActPhase::Ready { code, size, .. } => self.ready(detail, n, code, size),
            ActPhase::Inside => self.handler(
                detail,
                n,
                " begins inside its call, made at line ",
                EventKind::Called,
            ),
            ActPhase::Running { .. } => {
                self.handler(detail, n, " runs since line ", EventKind::Begun)
            }
            ActPhase::Ended => self.handler(detail, n, " has ended at line ", EventKind::Ended),
            ActPhase::Dropped => {
                self.handler(detail, n, " was destroyed at line ", EventKind::Dropped)
            }
        }
    }

    /// An operation, and the line of its last event of this kind behind these words.
    fn handler(
        &self,
        detail: &mut Detail,
        n: ActNo,
        words: &str,
        kind: EventKind,
    ) -> Result<(), NoMemory> {
        detail.field("operation ", n as u64)?;
        detail.at_line(words, self.line(kind, n))
    }

    /// What an operation is ready with, and since when.
    fn ready(&self, detail: &mut Detail, n: ActNo, code: Code, size: u32) -> Result<(), NoMemory> {
        detail.field("operation ", n as u64)?;
        detail.words(" is ready with ")?;
        detail.outcome(code, size)?;
        self.since_ready(detail, n)
    }

    /// Since when an operation is ready: a posting since its call, the others since their `done`.
    fn since_ready(&self, detail: &mut Detail, n: ActNo) -> Result<(), NoMemory> {
        let line = match self.line(EventKind::Done, n) {
            Some(line) => Some(line),
            None => self.line(EventKind::Called, n),
        };
        detail.at_line(" since line ", line)
    }

    /// How far a request has come.
    fn request(&self, detail: &mut Detail, name: &str, n: ActNo) -> Result<(), NoMemory> {
        detail.field(name, n as u64)?;
        if self.replay.was_taken(n) {
            detail.at_line(" was taken at line ", self.line(EventKind::Taken, n))
        } else {
            detail.at_line(
                " waits to be taken since line ",
                self.line(EventKind::Called, n),
            )
        }
    }

    /// How far the call of an act has come.
    pub(crate) fn call(&self, detail: &mut Detail, n: ActNo) -> Result<(), NoMemory> {
        detail.field("act ", n as u64)?;
        match self.replay.act(n).call {
            CallPhase::Uncalled => detail.words(" wasn't called"),
            CallPhase::Open { .. } => {
                detail.at_line(
                    " is being called since line ",
                    self.line(EventKind::Called, n),
                )
            }
            CallPhase::Stopping { .. } => {
                detail.at_line(
                    " stopped the context at line ",
                    self.line(EventKind::Stopped, n),
                )?;
                detail.words(", and its call isn't back")
            }
            CallPhase::Back { .. } => {
                detail.at_line(" was back at line ", self.line(EventKind::Back, n))
            }
        }
    }

    /// Which of the calls of a body comes next.
    pub(crate) fn next_call(&self, detail: &mut Detail, acts: &[ActNo]) -> Result<(), NoMemory> {
        for n in acts {
            match self.replay.act(*n).call {
                CallPhase::Back { .. } => {}
                CallPhase::Uncalled => return comes_next(detail, *n),
                _ => return self.call(detail, *n),
            }
        }
        detail.words("all its acts were called and are back")
    }

    /// What the body of a handler does.
    pub(crate) fn body(&self, detail: &mut Detail, o: OpNo, class: Class) -> Result<(), NoMemory> {
        let script = self.replay.script();
        if o >= script.acts() {
            return self.act(detail, o);
        }
        match self.replay.act(o).phase {
            ActPhase::Running { class: running, .. } if running != class => {
                stands_elsewhere(detail, o, class, running)
            }
            ActPhase::Running { .. } => self.next_inside(detail, o, script.branch(o, class)),
            _ => {
                detail.words("the act stands in the body of an operation that doesn't run: ")?;
                self.act(detail, o)
            }
        }
    }

    /// Which of the calls of an operation's body comes next.
    fn next_inside(&self, detail: &mut Detail, o: OpNo, acts: &[ActNo]) -> Result<(), NoMemory> {
        detail.field("in the body of operation ", o as u64)?;
        detail.words(" ")?;
        self.next_call(detail, acts)
    }
}

/// That an act stands in another body than the one that runs.
fn stands_elsewhere(
    detail: &mut Detail,
    o: OpNo,
    class: Class,
    running: Class,
) -> Result<(), NoMemory> {
    detail.field("operation ", o as u64)?;
    detail.words(" runs ")?;
    detail.words(class_words(running))?;
    detail.words(", and the act stands in ")?;
    detail.words(class_words(class))
}

fn comes_next(detail: &mut Detail, n: ActNo) -> Result<(), NoMemory> {
    detail.field("act ", n as u64)?;
    detail.words(" is called next")
}
