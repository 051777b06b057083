ghost use Rattle.std.specs.Prelude.{◌≡◌, ◌||◌, ◌&&◌, ◌⊎◌, ℕ, IfOk, List, Some, true, nat_eq};
ghost use Rattle.std.specs.HashMap.{get};
ghost use Rattle.std.specs.HashSet.{contains};
ghost use Rattle.run_lines.specs.declared.line.Line.{Line};
ghost use Rattle.run_lines.specs.declared.line.Doing.{Doing};
ghost use Rattle.run_rules.specs.Stacks.{same_frame};
ghost use Rattle.run_rules.specs.declared.frame.Frame.{Frame};
ghost use Rattle.run_joins.specs.Reaching.{Adds, HasReached, awaits, has_frame, is_plain, reaches, starts, takes};

use crate::frames::Frames;
use crate::note::Note;
use run_lines::Doing;
use run_rules::Frame;
use std::alloc::{AllocError, Global};
use std::collections::{HashMap, HashSet};

/// What stands before a place of a run in each order, as far as lines were gone through from the end.
#[derive(Drop)]
pub(crate) struct Reached {
    /// The frames of which a line does.
    frames: Frames,
    /// The operations whose completion, begin or drop does.
    taken: HashSet<u64>,
    /// The operations whose begin does.
    begun: HashSet<u64>,
    /// The marks for which a line waits that does.
    passed: HashSet<u64>,
    /// By whom things are given back by a line that does.
    over: HashMap<u64, Frame>,
}

/// Keeps the operation that a line completes, begins or drops.
fn take_up(taken: &mut HashSet<u64>, does: &Doing) -> Result<(), AllocError>
    ensures { IfOk result (λ _. (op : ℕ) → contains nat_eq taken.new op ≡ (takes does.now op || contains nat_eq taken.old op)) }
{
    match *does {
        Doing::Done { op, .. } | Doing::Begin { op, .. } | Doing::Drop { op } => {
            taken.insert(op)?;
        }
        _ => {}
    }
    Ok(())
}

/// Keeps the operation that a line begins.
fn begin(begun: &mut HashSet<u64>, does: &Doing) -> Result<(), AllocError>
    ensures { IfOk result (λ _. (op : ℕ) → contains nat_eq begun.new op ≡ (starts does.now op || contains nat_eq begun.old op)) }
{
    if let Doing::Begin { op, .. } = *does {
        begun.insert(op)?;
    }
    Ok(())
}

/// Keeps the mark for which a line waits.
fn pass(passed: &mut HashSet<u64>, does: &Doing) -> Result<(), AllocError>
    ensures { IfOk result (λ _. (mark : ℕ) → contains nat_eq passed.new mark ≡ (awaits does.now mark || contains nat_eq passed.old mark)) }
{
    if let Doing::After { mark } = *does {
        passed.insert(mark)?;
    }
    Ok(())
}

/// Keeps the frame that writes a line, if that begins nothing.
fn write(frames: &mut Frames, note: &Note) -> Result<(), AllocError>
    ensures { IfOk result (λ _. (who : Frame) →
        has_frame frames.new who ≡ ((is_plain note.now.line.does && same_frame note.now.frame who) || has_frame frames.old who)) }
{
    match note.line.does {
        Doing::Begin { .. } => Ok(()),
        _ => frames.put(note.frame),
    }
}

/// Keeps by whom a thing is given back.
fn give(over: &mut HashMap<u64, Frame>, note: &Note) -> Result<(), AllocError>
    ensures { IfOk result (λ _. (thing : ℕ) (who : Frame) → get nat_eq over.new thing ≡ Some who →
        (get nat_eq over.old thing ≡ Some who)
        ⊎ ((note.now.line.does ≡ Doing.Release thing) × (note.now.gone ≡ true) × (note.now.frame ≡ who))) }
{
    match note.line.does {
        Doing::Release { thing } if note.gone => {
            over.insert(thing, note.frame)?;
        }
        _ => {}
    }
    Ok(())
}

impl Reached {
    pub(crate) fn new(alloc: Global) -> Reached
        ensures { (run : List Line) (place from : ℕ) → HasReached run place from result }
    {
        Reached {
            frames: Frames::new(alloc),
            taken: HashSet::new(alloc),
            begun: HashSet::new(alloc),
            passed: HashSet::new(alloc),
            over: HashMap::new(alloc),
        }
    }

    /// Keeps what a line adds.
    pub(crate) fn put(&mut self, note: &Note) -> Result<(), AllocError>
        ensures { IfOk result (λ _. Adds note.now self.old self.new) }
    {
        write(&mut self.frames, note)?;
        take_up(&mut self.taken, &note.line.does)?;
        begin(&mut self.begun, &note.line.does)?;
        pass(&mut self.passed, &note.line.does)?;
        give(&mut self.over, note)
    }

    /// Whether a line stands before the place in each order.
    pub(crate) fn has(&self, note: &Note) -> bool
        ensures { result ≡ reaches self.now note.now.frame note.now.line.does }
    {
        let writes = self.frames.has(note.frame);
        match note.line.does {
            Doing::Begin { op, .. } => self.frames.has(Frame::Execution { op }),
            Doing::Call { op, .. } => writes || self.taken.contains(&op),
            Doing::Done { op, .. } => writes || self.begun.contains(&op),
            Doing::Mark { mark } => writes || self.passed.contains(&mark),
            _ => writes,
        }
    }

    /// By whom a thing is given back before the place in each order.
    pub(crate) fn giver(&self, thing: u64) -> Option<Frame>
        ensures { result ≡ get nat_eq self.now.over thing }
    {
        self.over.get(&thing).copied()
    }
}
