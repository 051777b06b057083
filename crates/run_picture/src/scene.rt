ghost use Rattle.std.specs.Prelude.{◌≡◌, IfOk};
ghost use Rattle.run_picture.specs.Items.{AreInside, IsEndIn};
ghost use Rattle.run_picture.specs.declared.window.Window.{Window};

use crate::items::{Bar, Bracket, Held, Holding, Running, Sign, Spot};
use crate::window::Window;
use asio_types::NoMemory;
use run_lines::{Doing, Kind, Line};
use run_names::Names;
use std::alloc::Global;
use std::collections::HashMap;

/// What is drawn of a run.
#[derive(Drop)]
pub struct Scene {
    pub(crate) window: Window,
    /// The threads, in the order of their first lines.
    pub(crate) rows: Vec<u64>,
    /// The strands on which handlers ran, in the order in which they first did.
    pub(crate) strands: Vec<u64>,
    pub(crate) bars: Vec<Bar>,
    pub(crate) brackets: Vec<Bracket>,
    pub(crate) spots: Vec<Spot>,
    pub(crate) names: Names,
    /// The strands of the operations that wait on one.
    waiting: HashMap<u64, u64>,
    running: Vec<Running>,
    holding: Vec<Holding>,
    /// The line that was followed last.
    pub(crate) last: u64,
    /// Whether lines stand behind it.
    pub(crate) more: bool,
}

/// The place of a number in a list; it is added where it isn't there.
fn place_of(list: &mut Vec<u64>, number: u64) -> Result<usize, NoMemory> {
    match list.iter().position(|other| *other == number) {
        Some(place) => Ok(place),
        None => {
            let place = list.len();
            list.push(number)?;
            Ok(place)
        }
    }
}

/// The sign of a line, if it has one.
fn sign_of(does: &Doing) -> Option<Sign> {
    match *does {
        Doing::Call { op, .. } => Some(Sign::Call { op }),
        Doing::Done { op, .. } => Some(Sign::Done { op }),
        Doing::Drop { op } => Some(Sign::Drop { op }),
        Doing::Mark { mark } => Some(Sign::Mark { mark }),
        Doing::After { mark } => Some(Sign::After { mark }),
        Doing::Cancel { thing } => Some(Sign::Cancel { thing }),
        Doing::Stop { context } => Some(Sign::Stop { context }),
        Doing::Restart { context } => Some(Sign::Restart { context }),
        _ => None,
    }
}

impl Scene {
    /// Nothing yet, of the lines of this window.
    pub(crate) fn new(alloc: Global, window: Window) -> Scene
        ensures { AreInside window result }
    {
        Scene {
            window,
            rows: Vec::new(alloc),
            strands: Vec::new(alloc),
            bars: Vec::new(alloc),
            brackets: Vec::new(alloc),
            spots: Vec::new(alloc),
            names: Names::new(alloc),
            waiting: HashMap::new(alloc),
            running: Vec::new(alloc),
            holding: Vec::new(alloc),
            last: 1,
            more: false,
        }
    }

    fn put_spot(&mut self, row: usize, line: u64, does: &Doing) -> Result<(), NoMemory>
        ensures { IfOk result (λ _. (window : Window) → AreInside window self.old → AreInside window self.new) }
    {
        if !self.window.has(line) {
            return Ok(());
        }
        match sign_of(does) {
            Some(sign) => {
                self.spots.push(Spot { row, line, sign })?;
                Ok(())
            }
            None => Ok(()),
        }
    }

    fn put_bar(&mut self, running: Running, ended: Option<u64>) -> Result<(), NoMemory>
        ensures { IfOk result (λ _. (window : Window) → AreInside window self.old → IsEndIn window ended → AreInside window self.new) }
    {
        let begun = self.window.visible(running.begun);
        self.bars.push(Bar {
            row: running.row,
            depth: running.depth,
            op: running.op,
            strand: running.strand,
            begun,
            ended,
        })?;
        Ok(())
    }

    fn put_bracket(&mut self, holding: Holding, given: Option<u64>) -> Result<(), NoMemory>
        ensures { IfOk result (λ _. (window : Window) → AreInside window self.old → IsEndIn window given → AreInside window self.new) }
    {
        let taken = self.window.visible(holding.taken);
        self.brackets.push(Bracket {
            row: holding.row,
            depth: holding.depth,
            held: holding.held,
            taken,
            given,
        })?;
        Ok(())
    }

    fn call(&mut self, op: u64, strand: Option<u64>) -> Result<(), NoMemory>
        ensures { IfOk result (λ _. (window : Window) → AreInside window self.old → AreInside window self.new) }
    {
        if let Some(strand) = strand {
            self.waiting.insert(op, strand)?;
        }
        Ok(())
    }

    fn begin(&mut self, row: usize, line: u64, op: u64) -> Result<(), NoMemory>
        ensures { IfOk result (λ _. (window : Window) → AreInside window self.old → AreInside window self.new) }
    {
        let strand = self.waiting.remove(&op);
        if let Some(strand) = strand {
            let _place = place_of(&mut self.strands, strand)?;
        }
        let depth = self.running.iter().filter(|other| other.row == row).count() as u64;
        self.running.push(Running {
            row,
            depth,
            op,
            strand,
            begun: line,
        })?;
        Ok(())
    }

    fn end(&mut self, row: usize, line: u64, op: u64) -> Result<(), NoMemory>
        ensures { IfOk result (λ _. (window : Window) → AreInside window self.old → AreInside window self.new) }
    {
        let place = self
            .running
            .iter()
            .position(|other| other.row == row && other.op == op);
        let Some(place) = place else {
            return Ok(());
        };
        let running = self.running.swap_remove(place);
        if line < self.window.from() {
            return Ok(());
        }
        let ended = self.window.visible(line);
        self.put_bar(running, ended)
    }

    fn take(&mut self, row: usize, line: u64, held: Held) -> Result<(), NoMemory>
        ensures { IfOk result (λ _. (window : Window) → AreInside window self.old → AreInside window self.new) }
    {
        let depth = self.holding.iter().filter(|other| other.row == row).count() as u64;
        self.holding.push(Holding {
            row,
            depth,
            held,
            taken: line,
        })?;
        Ok(())
    }

    fn give(&mut self, row: usize, line: u64, held: Held) -> Result<(), NoMemory>
        ensures { IfOk result (λ _. (window : Window) → AreInside window self.old → AreInside window self.new) }
    {
        let place = self
            .holding
            .iter()
            .position(|other| other.row == row && other.held == held);
        let Some(place) = place else {
            return Ok(());
        };
        let holding = self.holding.swap_remove(place);
        if line < self.window.from() {
            return Ok(());
        }
        let given = self.window.visible(line);
        self.put_bracket(holding, given)
    }

    /// What a line changes of what goes on.
    fn change(&mut self, row: usize, line: u64, does: &Doing) -> Result<(), NoMemory>
        ensures { IfOk result (λ _. (window : Window) → AreInside window self.old → AreInside window self.new) }
    {
        match *does {
            Doing::Call { op, strand, .. } => self.call(op, strand),
            Doing::Drop { op } => {
                self.waiting.remove(&op);
                Ok(())
            }
            Doing::Begin { op, .. } => self.begin(row, line, op),
            Doing::End { op } | Doing::Throw { op } => self.end(row, line, op),
            Doing::Claim { thing } => self.take(row, line, Held::Thing { thing }),
            Doing::Lock { lock } => self.take(row, line, Held::Lock { lock }),
            Doing::Release { thing } => self.give(row, line, Held::Thing { thing }),
            Doing::Unlock { lock } => self.give(row, line, Held::Lock { lock }),
            _ => Ok(()),
        }
    }

    /// Gives a name.
    pub(crate) fn name(&mut self, kind: Kind, number: u64, text: &[u8]) -> Result<(), NoMemory>
        ensures { IfOk result (λ _. (window : Window) → AreInside window self.old → AreInside window self.new) }
    {
        self.names.put(kind, number, text)
    }

    /// Follows a line.
    pub(crate) fn follow(&mut self, at: u64, line: &Line) -> Result<(), NoMemory>
        ensures { IfOk result (λ _. (window : Window) → AreInside window self.old → AreInside window self.new) }
    {
        self.last = at;
        let row = place_of(&mut self.rows, line.thread)?;
        self.put_spot(row, at, &line.does)?;
        self.change(row, at, &line.does)
    }

    /// What runs at this place of the list, if something does.
    fn close_bar(&mut self, place: usize) -> Result<(), NoMemory>
        ensures { IfOk result (λ _. (window : Window) → AreInside window self.old → AreInside window self.new) }
    {
        match self.running.get(place).copied() {
            Some(running) => self.put_bar(running, None),
            None => Ok(()),
        }
    }

    /// What is held at this place of the list, if something is.
    fn close_bracket(&mut self, place: usize) -> Result<(), NoMemory>
        ensures { IfOk result (λ _. (window : Window) → AreInside window self.old → AreInside window self.new) }
    {
        match self.holding.get(place).copied() {
            Some(holding) => self.put_bracket(holding, None),
            None => Ok(()),
        }
    }

    fn close_bars(&mut self) -> Result<(), NoMemory>
        ensures { IfOk result (λ _. (window : Window) → AreInside window self.old → AreInside window self.new) }
    {
        for place in 0..self.running.len() {
            self.close_bar(place)?;
        }
        Ok(())
    }

    fn close_brackets(&mut self) -> Result<(), NoMemory>
        ensures { IfOk result (λ _. (window : Window) → AreInside window self.old → AreInside window self.new) }
    {
        for place in 0..self.holding.len() {
            self.close_bracket(place)?;
        }
        Ok(())
    }

    /// What goes on at the end of the window is drawn up to there.
    pub(crate) fn close(&mut self) -> Result<(), NoMemory>
        ensures { IfOk result (λ _. (window : Window) → AreInside window self.old → AreInside window self.new) }
    {
        self.close_bars()?;
        self.close_brackets()
    }
}
