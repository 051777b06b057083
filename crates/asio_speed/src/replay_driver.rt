use asio_types::{Code, Event, NoMemory, OpNo};
use history_book::Replay;
use session_script::Script;
use std::alloc::Global;

/// With what an operation of the workload may complete.
const OUTCOMES: [(Code, u32); 5] = [
    (Code::Ok, 1),
    (Code::Ok, 0),
    (Code::Aborted, 0),
    (Code::Eof, 0),
    (Code::Broken, 0),
];

/// A history that grows by trying events: what the replay takes is kept.
#[derive(Drop)]
struct Driver<'a> {
    replay: Replay<'a>,
    events: Vec<Event>,
    /// The acts that weren't told.
    pending: Vec<OpNo>,
}

impl<'a> Driver<'a> {
    /// Keeps the event if it is legal.
    fn attempt(&mut self, event: Event) -> Result<bool, NoMemory> {
        let legal = self.replay.step(event);
        if legal {
            self.events.push(event)?;
        }
        Ok(legal)
    }

    /// All acts of `open` are called.
    fn open(&mut self, script: &Script) -> Result<(), NoMemory> {
        for act in script.opening() {
            self.attempt(Event::Call { act: *act })?;
            self.attempt(Event::Back { act: *act })?;
        }
        Ok(())
    }

    /// Executes a handler if it is ready with this.
    fn execute(&mut self, op: OpNo, code: Code, size: u32) -> Result<(), NoMemory> {
        if self.attempt(Event::Begin { op, code, size })? {
            self.attempt(Event::End { op, mark: 0 })?;
        }
        Ok(())
    }

    /// Tells an operation if it is the next that has completed, and executes its handler.
    fn complete(&mut self, op: OpNo) -> Result<bool, NoMemory> {
        for (code, size) in OUTCOMES {
            if self.attempt(Event::Done { op, code, size })? {
                self.execute(op, code, size)?;
                return Ok(true);
            }
        }
        Ok(false)
    }

    /// Tells the first pending operation that has completed; false where none has.
    fn complete_one(&mut self) -> Result<bool, NoMemory> {
        for place in 0..self.pending.len() {
            let Some(op) = self.pending.get(place).copied() else {
                break;
            };
            if self.complete(op)? {
                self.pending.retain(|other| *other != op);
                return Ok(true);
            }
        }
        Ok(false)
    }

    /// Tells all that has completed.
    fn complete_all(&mut self) -> Result<(), NoMemory> {
        for _ in 0..self.pending.len() {
            if !self.complete_one()? {
                break;
            }
        }
        Ok(())
    }

    /// Takes a request, and tells what completed by it.
    fn take(&mut self, act: OpNo) -> Result<(), NoMemory> {
        if self.attempt(Event::Take { act })? {
            self.pending.push(act)?;
            self.complete_all()?;
        }
        Ok(())
    }

    fn run(&mut self, script: &Script, times: u32) -> Result<(), NoMemory> {
        self.open(script)?;
        for act in script.opening() {
            self.execute(*act, Code::Ok, 0)?;
        }
        for act in script.opening() {
            self.take(*act)?;
        }
        for time in 0..times {
            self.attempt(Event::Tick {
                now: time as u64 + 1,
            })?;
            self.complete_all()?;
        }
        self.attempt(Event::Last)?;
        self.complete_all()?;
        self.attempt(Event::Ended)?;
        Ok(())
    }
}

/// A legal history of a script whose acts all stand in `open` and whose times are 1 to `times`.
pub(crate) fn history_of(
    alloc: Global,
    script: &Script,
    times: u32,
) -> Result<Vec<Event>, NoMemory> {
    let mut driver = Driver {
        replay: Replay::make(alloc, script, true)?,
        events: Vec::new(alloc),
        pending: Vec::new(alloc),
    };
    driver.run(script, times)?;
    Ok(driver.events)
}
