ghost use Rattle.std.specs.Prelude.{◌≡◌, ◌≤◌, ◌+◌, ◌++◌, ◌∷◌, [], IfOk, length, vec_len, vec_capacity};
ghost use Rattle.session_script.specs.Outcome.{entries_of, entry_of};
ghost use Rattle.generated_session.specs.Generator.{acts_of_item, after_item, generated, item_after, lone_act, made_by, most_size, most_start, next_number, opened};

use asio_types::{Class, Lines, NoMemory, OpNo, Types, World};
use session_script::{Act, Pace, PlacedAct, Round, Script, ScriptParts};
use std::alloc::Global;

/// The greatest number that makes a session.
pub const MOST_START: u32 = 65_536;

/// The most acts of a session that a number makes.
pub const MOST_SIZE: u32 = 1_024;

/// The number after x.
pub(crate) fn next_number(x: u32) -> u32
    requires { x ≤ most_start }
    ensures next { result ≡ next_number x }
    ensures small { result ≤ most_start }
{
    (75 * x + 74) % (MOST_START + 1)
}

/// Three numbers on.
fn after_item(x: u32) -> u32
    requires { x ≤ most_start }
    ensures next { result ≡ after_item x }
    ensures small { result ≤ most_start }
{
    next_number(next_number(next_number(x)))
}

/// What an item of a session is made from.
#[derive(Clone, Copy)]
pub(crate) struct Item {
    // which acts it makes, from 0 to 3
    kind: u32,
    // the strand and the timer, from 0 to 3
    lane: u8,
    // for how long its wait waits, below 1000
    time: u64,
}

impl Item {
    /// The item that the numbers after x make.
    fn after(x: u32) -> Item
        requires { x ≤ most_start }
        ensures { result ≡ item_after x }
    {
        let kind = next_number(x);
        let lane = next_number(kind);
        let time = next_number(lane);
        Item {
            kind: kind % 4,
            lane: (lane % 4) as u8,
            time: (time % 1_000) as u64,
        }
    }

    /// What it makes where one act is left.
    fn lone_act(self) -> Act
        ensures { result ≡ lone_act self }
    {
        match self.kind {
            1 => Act::Post {
                strand: Some(self.lane),
            },
            2 => Act::Dispatch {
                strand: Some(self.lane),
            },
            _ => Act::Post { strand: None },
        }
    }
}

/// An act of `open`.
fn opened(act: Act) -> PlacedAct
    ensures { entry_of result ≡ opened act }
{
    PlacedAct { act, parent: None }
}

/// An act that the handler of this posting makes.
fn made_by(op: OpNo, act: Act) -> PlacedAct
    ensures { entry_of result ≡ made_by op act }
{
    PlacedAct {
        act,
        parent: Some((op, Class::Ok)),
    }
}

/// The session of `size` acts that the number `start` makes: `start` is at most 65,536 and `size`
/// from 1 to 1,024. It is the script itself, and no text is read. Takes time and memory in
/// proportion to `size`.
pub fn generate(alloc: Global, start: u32, size: u32) -> Result<Script, NoMemory>
    requires start { start ≤ most_start }
    requires some { 1 ≤ size }
    requires few { size ≤ most_size }
    ensures { IfOk result (λ script. script ≡ generated start size) }
{
    let acts = acts_of(alloc, start, size)?;
    let world = World {
        streams: 0,
        lines: Lines::of(Vec::new(alloc)),
    };
    let one_run = Round {
        restart: false,
        pace: Pace::Run,
        workers: 4,
    };
    let rounds = Vec::from_slice(alloc, &[one_run])?;
    Script::make(
        alloc,
        ScriptParts {
            version: 1,
            strands: 4,
            timers: 4,
            slots: 0,
            guards: 0,
            acts,
            world,
            rounds,
        },
    )
}

/// The acts of the session that a number makes.
fn acts_of(alloc: Global, start: u32, size: u32) -> Result<Vec<PlacedAct>, NoMemory>
    requires start { start ≤ most_start }
    requires few { size ≤ most_size }
    ensures { IfOk result (λ acts. entries_of acts.items ≡ (generated start size).acts) }
{
    let mut acts = Vec::with_capacity(alloc, size as usize)?;
    let mut x = start;
    while acts.len() < size as usize {
        let left = size - acts.len() as u32;
        push_item(&mut acts, Item::after(x), left);
        x = after_item(x);
    }
    Ok(acts)
}

/// Appends what an item makes where so many acts are left.
fn push_item(acts: &mut Vec<PlacedAct>, item: Item, left: u32)
    requires some { 1 ≤ left }
    requires room { vec_len acts.old + left ≤ vec_capacity acts.old }
    requires numbered { vec_len acts.old + left ≤ most_size }
    ensures one { left ≡ 1 →
        entries_of acts.new.items ≡ entries_of acts.old.items ++ opened (lone_act item) ∷ [] }
    ensures two { 2 ≤ left →
        entries_of acts.new.items
        ≡ entries_of acts.old.items ++ acts_of_item (vec_len acts.old) item }
    ensures one_more { left ≡ 1 → vec_len acts.new ≡ vec_len acts.old + 1 }
    ensures longer { 2 ≤ left →
        vec_len acts.new ≡ vec_len acts.old + length (acts_of_item (vec_len acts.old) item) }
    ensures capacity { vec_capacity acts.new ≡ vec_capacity acts.old }
{
    let first = acts.len() as OpNo;
    if left == 1 {
        acts.push_reserved(opened(item.lone_act()));
        return;
    }
    let strand = Some(item.lane);
    match item.kind {
        0 => acts.push_reserved(opened(Act::Post { strand: None })),
        1 => {
            acts.push_reserved(opened(Act::Post { strand }));
            acts.push_reserved(made_by(first, Act::Post { strand: None }));
        }
        2 => {
            acts.push_reserved(opened(Act::Dispatch { strand }));
            acts.push_reserved(made_by(first, Act::Dispatch { strand }));
        }
        _ => {
            acts.push_reserved(opened(Act::Expires {
                timer: item.lane,
                after: item.time,
            }));
            acts.push_reserved(opened(Act::Wait {
                timer: item.lane,
                strand,
                slot: None,
                filter: Types::all(),
            }));
        }
    }
}
