ghost use Rattle.std.specs.Prelude.{◌≡◌, IfOk, None, false, length, replicate, true};
ghost use Rattle.history_book.specs.Queues.{AreNew, IsNew};
ghost use Rattle.history_rules.specs.State.{first_reactor};

use crate::asking::Queues;
use crate::played::PlayedWorld;
use crate::queue_room::rooms_of;
use asio_types::{NoMemory, OpNo};
use history_rules::Wait;
use session_script::{Script, scripts_are_well_formed};
use std::alloc::Global;
use std::collections::VecDeque;
use std::marker::Model;
use stream_rules::Completion;

/// The reactor's half of a state as it is replayed.
#[derive(Drop)]
pub(crate) struct ReactorWorks<'a> {
    pub(crate) script: &'a Script,
    pub(crate) taken: Vec<bool>,
    pub(crate) accepted: u32,
    pub(crate) world: PlayedWorld,
    pub(crate) expiries: Vec<u64>,
    pub(crate) waits: Vec<Wait>,
    pub(crate) slots: Vec<Option<OpNo>>,
    pub(crate) queues: Vec<Queues>,
    pub(crate) guards: Vec<bool>,
    pub(crate) last: bool,
    pub(crate) failed: bool,
    pub(crate) due: Vec<Completion>,
    pub(crate) whole_turn: bool,
    pub(crate) reached: u32,
}

impl<'a> Model for ReactorWorks<'a> {
    ghost use Rattle.std.specs.Prelude.{map};
    ghost use Rattle.history_book.specs.Asking.{queues_of};
    ghost use Rattle.history_book.specs.Replay.{IsRoomy, ReactorReplayed};

    ghost Value = { ReactorReplayed };

    ghost view = { λ r. record {
      script = r.script.now;
      told = r.world.told;
      half = record {
        taken = r.taken.items;
        accepted = r.accepted;
        now = r.world.now;
        expiries = r.expiries.items;
        waits = r.waits.items;
        slots = r.slots.items;
        streams = r.world.streams;
        queues = map (queues_of r.script.now) r.queues.items;
        guards = r.guards.items;
        last = r.last;
        failed = r.failed;
        due = r.due.items;
        whole_turn = r.whole_turn;
        reached = r.reached;
      };
    } };

    ghost invariant = { λ r. IsRoomy r.script.now r.world r.waits r.queues.items r.due };
}

fn all_flags(alloc: Global, flag: bool, count: usize) -> Result<Vec<bool>, NoMemory>
    ensures { IfOk result (λ flags. flags.items ≡ replicate count flag) }
{
    Ok(vec![in alloc; flag; count]?)
}

fn no_expiries(alloc: Global, timers: u8) -> Result<Vec<u64>, NoMemory>
    ensures { IfOk result (λ expiries. expiries.items ≡ replicate timers 0) }
{
    Ok(vec![in alloc; 0u64; timers as usize]?)
}

fn empty_slots(alloc: Global, slots: u8) -> Result<Vec<Option<OpNo>>, NoMemory>
    ensures { IfOk result (λ all. all.items ≡ replicate slots None) }
{
    Ok(vec![in alloc; None; slots as usize]?)
}

fn new_queues(alloc: Global, room: usize) -> Result<Queues, NoMemory>
    ensures { IfOk result (IsNew room) }
{
    Ok(Queues {
        closed: false,
        reads: VecDeque::with_capacity(alloc, room)?,
        writes: VecDeque::with_capacity(alloc, room)?,
    })
}

/// Empty queues for each stream, with room for so many operations.
fn empty_queues(alloc: Global, rooms: &[usize]) -> Result<Vec<Queues>, NoMemory>
    ensures count { IfOk result (λ queues. length queues.items ≡ length rooms.now) }
    ensures each { IfOk result (λ queues. AreNew rooms.now queues.items) }
{
    let mut queues = Vec::with_capacity(alloc, rooms.len())?;
    for stream in 0..rooms.len() {
        queues.push(new_queues(alloc, rooms[stream])?)?;
    }
    Ok(queues)
}

impl<'a> ReactorWorks<'a> {
    /// The reactor's half before the first event. Takes memory for each act and world line, and
    /// where bytes are told for all that the lines bring; for a stream's queues as much as the
    /// script has operations on it.
    pub(crate) fn make(
        alloc: Global,
        script: &'a Script,
        told: bool,
    ) -> Result<ReactorWorks<'a>, NoMemory>
        ensures { IfOk result (λ works.
            works
            ≡ record {
              script = script.now;
              told = told;
              half = first_reactor script.now told;
            }) }
    {
        scripts_are_well_formed(script);
        let acts = script.acts() as usize;
        let world = PlayedWorld::make(alloc, script.world(), told)?;
        let taken = all_flags(alloc, false, acts)?;
        let guards = all_flags(alloc, true, script.guards() as usize)?;
        let expiries = no_expiries(alloc, script.timers())?;
        let slots = empty_slots(alloc, script.slots())?;
        let rooms = rooms_of(alloc, script, script.world().streams)?;
        let queues = empty_queues(alloc, rooms.as_slice())?;
        let waits = Vec::with_capacity(alloc, acts)?;
        let due = Vec::with_capacity(alloc, acts)?;
        Ok(ReactorWorks {
            script,
            taken,
            accepted: 0,
            world,
            expiries,
            waits,
            slots,
            queues,
            guards,
            last: false,
            failed: false,
            due,
            whole_turn: false,
            reached: 0,
        })
    }
}
