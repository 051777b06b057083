ghost use Rattle.std.specs.Prelude.{◌≡◌, ◌<◌, ◌≤◌, length, Some, Ok, IfOk, IfErr};
ghost use Rattle.session_script.specs.Limits.{most_acts};
ghost use Rattle.session_script.specs.Script.{act_of, opening_of, branch_of, parent_of, is_op, stops};
ghost use Rattle.session_script.specs.Lanes.{lane_of, is_inline};
ghost use Rattle.session_script.specs.Spelling.{spelling_of, upgraded};
ghost use Rattle.session_script.specs.Grammar.{IsScript, first_fault};
ghost use Rattle.session_script.specs.Outcome.{Names, model_of};

use crate::act::{Act, is_operation};
use crate::copy::{copy_entries, copy_world};
use crate::groups::Groups;
use crate::lane::{caller_lane, is_inside, lanes};
use crate::parts::ScriptParts;
use crate::place::{class_number, places};
use crate::reader::read_parts;
use crate::refusal::ScriptFault;
use crate::round::Round;
use asio_types::{ActNo, Class, Lane, NoMemory, OpNo, World};
use std::alloc::Global;
use std::marker::Model;

/// A session as its script says it. Contracts see its acts with their places, what it declares, its
/// world and its rounds, apart from how the text spelled them.
///
/// In `crates/foundation_tests/src/script_questions.rt`:
///
/// ```rust
/// if a < script.acts() {
///     Some((
///         script.parent_of(a),
///         script.is_op(a),
///         script.is_inline(a),
///         script.lane_of(a),
///     ))
/// ..
/// script.version(),
/// script.world().streams,
/// script.rounds().len(),
/// ```
#[derive(Drop)]
pub struct Script {
    /// What it says.
    parts: ScriptParts,
    /// The lane of each act.
    lanes: Vec<Lane>,
    /// The acts of each place, by the place's number.
    places: Groups,
}

impl Model for Script {
    ghost use Rattle.std.specs.Prelude.{◌≡◌, ◌≤◌, length};
    ghost use Rattle.session_script.specs.Script.{ScriptModel};
    ghost use Rattle.session_script.specs.Outcome.{model_of};
    ghost use Rattle.session_script.specs.Layout.{HoldsPlaces};
    ghost use Rattle.session_script.specs.Limits.{most_acts};
    ghost use Rattle.session_script.specs.Lanes.{lanes_of};
    ghost use Rattle.session_script.specs.Grammar.{IsScript};
    ghost use Rattle.session_script.specs.Spelling.{spelling_of};

    ghost Value = { ScriptModel };

    ghost view = { λ s. model_of s.parts };

    ghost invariant = { λ s. record {
      few : length (model_of s.parts).acts ≤ most_acts;
      lanes : s.lanes.items ≡ lanes_of (model_of s.parts);
      places : HoldsPlaces (model_of s.parts).acts s.places;
      reads_back : IsScript (spelling_of (model_of s.parts)) (model_of s.parts);
    } };
}

impl Script {
    /// The script that these parts say. Parts that are well formed and stand in text order are
    /// those of a script, by `writable_scripts_are_scripts`. Takes memory in proportion to the
    /// number of acts.
    #[tactic(auto, unfolding(crate::specs::Outcome::model_of))]
    pub fn make(alloc: Global, parts: ScriptParts) -> Result<Script, NoMemory>
        requires { IsScript (spelling_of (model_of parts)) (model_of parts) }
        ensures { IfOk result (λ script. script ≡ model_of parts) }
    {
        let lanes = lanes(alloc, parts.acts.as_slice())?;
        let places = places(alloc, parts.acts.as_slice())?;
        Ok(Script {
            parts,
            lanes,
            places,
        })
    }

    /// The version, 1 or 2.
    #[tactic(auto, unfolding(crate::specs::Outcome::model_of))]
    pub fn version(&self) -> u8
        ensures { result ≡ self.now.version }
    {
        self.parts.version
    }

    /// How many acts there are; their numbers are below it.
    #[tactic(auto, unfolding(crate::specs::Outcome::model_of))]
    pub fn acts(&self) -> u32
        ensures count { result ≡ length self.now.acts }
        ensures limit { result ≤ most_acts }
    {
        self.parts.acts.len() as u32
    }

    /// The act with this number.
    ///
    /// In `crates/foundation_tests/src/script_questions.rt`:
    ///
    /// ```rust
    /// a < script.acts() && script.is_stop(a) && matches!(script.act(a), Act::Stop)
    /// ```
    #[tactic(auto, unfolding(crate::specs::Outcome::model_of))]
    pub fn act(&self, a: ActNo) -> &Act
        requires { a < length self.now.acts }
        ensures { act_of self.now a ≡ Some result.now }
    {
        &self.parts.acts[a as usize].act
    }

    /// The operation in whose branch an act stands, with the branch's class; none for an act of
    /// `open` itself.
    #[tactic(auto, unfolding(crate::specs::Outcome::model_of))]
    pub fn parent_of(&self, a: ActNo) -> Option<(OpNo, Class)>
        requires { a < length self.now.acts }
        ensures { result ≡ parent_of self.now a }
    {
        self.parts.acts[a as usize].parent
    }

    /// Whether an act is an operation: a posting or an asynchronous operation, which has a handler.
    pub fn is_op(&self, a: ActNo) -> bool
        requires { a < length self.now.acts }
        ensures { result ≡ is_op self.now a }
    {
        is_operation(self.act(a))
    }

    /// Whether an act stops the context.
    pub fn is_stop(&self, a: ActNo) -> bool
        requires { a < length self.now.acts }
        ensures { result ≡ stops self.now a }
    {
        matches!(self.act(a), Act::Stop)
    }

    /// Whether an act is a dispatch that executes inside its call.
    #[tactic(auto, unfolding(crate::specs::Outcome::model_of))]
    pub fn is_inline(&self, a: ActNo) -> bool
        requires { a < length self.now.acts }
        ensures { result ≡ is_inline self.now a }
    {
        let entry = &self.parts.acts[a as usize];
        is_inside(caller_lane(self.lanes.as_slice(), entry.parent), &entry.act)
    }

    /// The lane of an act: where an operation executes, the reactor's for a control act, and its
    /// caller's for a stop.
    #[tactic(auto, unfolding(crate::specs::Outcome::model_of))]
    pub fn lane_of(&self, a: ActNo) -> Lane
        requires { a < length self.now.acts }
        ensures { result ≡ lane_of self.now a }
    {
        self.lanes[a as usize]
    }

    /// The acts of `open` itself, in text order.
    pub fn opening(&self) -> &[ActNo]
        ensures { result.now ≡ opening_of self.now }
    {
        self.places.get(0)
    }

    /// The acts of the branch of an operation for a class, in text order. A posting has only the
    /// branch of class Ok.
    ///
    /// In `crates/foundation_tests/src/script_questions.rt`:
    ///
    /// ```rust
    /// o < script.acts() && script.is_op(o) && script.branch(o, class) == acts
    /// ```
    #[tactic(auto, unfolding(crate::specs::Outcome::model_of))]
    pub fn branch(&self, o: OpNo, class: Class) -> &[ActNo]
        requires { o < length self.now.acts }
        ensures { result.now ≡ branch_of self.now o class }
    {
        self.places.get(1 + 3 * o as usize + class_number(class))
    }

    /// What happens outside, and when.
    #[tactic(auto, unfolding(crate::specs::Outcome::model_of))]
    pub fn world(&self) -> &World
        ensures { result.now ≡ self.now.world }
    {
        &self.parts.world
    }

    /// The rounds, in text order.
    #[tactic(auto, unfolding(crate::specs::Outcome::model_of))]
    pub fn rounds(&self) -> &[Round]
        ensures { result.now ≡ self.now.rounds }
    {
        self.parts.rounds.as_slice()
    }

    /// The canonical text is a text of the script. A law: it runs nothing.
    #[tactic(auto, unfolding(crate::specs::Outcome::model_of))]
    pub(crate) fn reads_back(&self)
        ensures { IsScript (spelling_of self.now) self.now }
    {
        let _ = &self.parts;
    }

    /// How many strands there are; their numbers are below it.
    #[tactic(auto, unfolding(crate::specs::Outcome::model_of))]
    pub fn strands(&self) -> u8
        ensures { result ≡ self.now.strands }
    {
        self.parts.strands
    }

    /// How many timers there are; their numbers are below it.
    #[tactic(auto, unfolding(crate::specs::Outcome::model_of))]
    pub fn timers(&self) -> u8
        ensures { result ≡ self.now.timers }
    {
        self.parts.timers
    }

    /// How many cancellation slots there are; their numbers are below it.
    #[tactic(auto, unfolding(crate::specs::Outcome::model_of))]
    pub fn slots(&self) -> u8
        ensures { result ≡ self.now.slots }
    {
        self.parts.slots
    }

    /// How many work guards there are; their numbers are below it.
    #[tactic(auto, unfolding(crate::specs::Outcome::model_of))]
    pub fn guards(&self) -> u8
        ensures { result ≡ self.now.guards }
    {
        self.parts.guards
    }
}

/// The script that the bytes spell, or their first fault. Takes time and memory in proportion to
/// the bytes.
///
/// In `crates/foundation_tests/src/script_questions.rt`:
///
/// ```rust
/// let script = read_script(rt.alloc(), BRANCHES_TEXT)?;
/// assert_eq!(rt; script.opening(), [0, 3, 8].as_slice());
/// ```
pub fn read_script(alloc: Global, bytes: &[u8]) -> Result<Script, ScriptFault>
    // What is read is a script of this text.
    ensures script { IfOk result (λ script. IsScript bytes.now script) }
    // What is refused has this fault, which a text of a script hasn't.
    ensures refused { IfErr result (λ fault. Names fault (first_fault bytes.now)) }
{
    let parts = read_parts(alloc, bytes)?;
    match Script::make(alloc, parts) {
        Ok(script) => Ok(script),
        Err(NoMemory) => Err(ScriptFault::NoMemory),
    }
}

/// The same session in version 2, whose limits are no less. Takes time and memory in proportion to
/// the script.
#[tactic(auto, unfolding(crate::specs::Outcome::model_of))]
pub fn upgrade(alloc: Global, script: &Script) -> Result<Script, NoMemory>
    ensures { IfOk result (λ new. new ≡ upgraded script.now) }
{
    let parts = &script.parts;
    let acts = copy_entries(alloc, parts.acts.as_slice())?;
    let world = copy_world(alloc, &parts.world)?;
    let rounds = Vec::from_slice(alloc, parts.rounds.as_slice())?;
    let upgraded = ScriptParts {
        version: 2,
        strands: parts.strands,
        timers: parts.timers,
        slots: parts.slots,
        guards: parts.guards,
        acts,
        world,
        rounds,
    };
    Script::make(alloc, upgraded)
}
