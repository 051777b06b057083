//! Handlers that note their call, and the hands of them.

ghost use Rattle.std.specs.Prelude.{◌≡◌, ◌≤◌, false, length, IsSome};
ghost use Rattle.op_handlers.specs.Rack.{IsWholeRack, handlers_in};
ghost use Rattle.strand_core.specs.Hands.{same_lane};

use crate::wanted::MEMORY;
use asio_types::{Lane, class_of};
use lane_map::LaneMap;
use op_handlers::{Call, CompletionHandler, Rack, Ran};
use session_script::{Script, read_script};
use std::alloc::Global;
use std::cell::Cell;
use std::process::Abort;
use strand_core::Hands;

/// The run mark and the drop mark of each handler.
pub(crate) type Marks = [(u64, u64); 5];

/// A handler with its two marks, which notes its call.
#[derive(Clone, Copy)]
pub(crate) struct Noting<'a> {
    run: u64,
    drop: u64,
    last: &'a Cell<Option<Call>>,
}

impl<'a> CompletionHandler for Noting<'a> {
    ghost marks = { λ h. record { run = λ _. h.run; drop = h.drop } };

    fn call(self, call: Call) -> Ran {
        let Noting { run, drop: _, last } = self;
        last.set(Some(call));
        Ran {
            mark: run,
            class: class_of(call.code),
            begun: call.begun,
        }
    }

    fn discard(self) -> u64 {
        self.drop
    }
}

/// A handler with these marks.
fn handler_of<'a>(marks: (u64, u64), last: &'a Cell<Option<Call>>) -> Option<Noting<'a>>
    ensures { IsSome result }
{
    let (run, drop) = marks;
    Some(Noting { run, drop, last })
}

/// A whole rack of five handlers with these marks.
pub(crate) fn rack_of<'a, R: Abort>(
    rt: &R,
    alloc: Global,
    marks: Marks,
    last: &'a Cell<Option<Call>>,
) -> Rack<Noting<'a>>
    ensures whole { IsWholeRack result }
    ensures count { length (handlers_in result) ≡ 5 }
{
    let [first, second, third, fourth, fifth] = marks;
    let handlers = vec![in alloc;
        handler_of(first, last),
        handler_of(second, last),
        handler_of(third, last),
        handler_of(fourth, last),
        handler_of(fifth, last),
    ]
    .expect(rt, MEMORY);
    Rack::of(handlers)
}

/// The script of this text, which has at most five acts.
pub(crate) fn script_of<R: Abort>(rt: &R, alloc: Global, text: &str) -> Script
    ensures { length result.acts ≤ 5 }
{
    let script = read_script(alloc, text.as_bytes()).expect(rt, "a script");
    let acts = script.acts();
    assert!(rt; acts <= 5);
    script
}

/// The hands of all lanes, by their numbers.
pub(crate) fn hands_of_lanes<'a, 'b, R: Abort>(
    rt: &R,
    alloc: Global,
    script: &'a Script,
    lanes: &'a LaneMap<'a>,
    rack: &mut Rack<Noting<'b>>,
) -> Vec<Hands<'a, Noting<'b>>>
    requires whole { IsWholeRack rack.old }
    requires enough { length script.now.acts ≤ length (handlers_in rack.old) }
    requires lanes { lanes.now ≡ script.now }
{
    Hands::of_lanes(alloc, script, lanes, rack).expect(rt, MEMORY)
}

/// The hands of two lanes.
pub(crate) fn hands_of<'a, 'b, R: Abort>(
    rt: &R,
    alloc: Global,
    script: &'a Script,
    lanes: (Lane, Lane),
    rack: &mut Rack<Noting<'b>>,
) -> (Hands<'a, Noting<'b>>, Hands<'a, Noting<'b>>)
    requires whole { IsWholeRack rack.old }
    requires enough { length script.now.acts ≤ length (handlers_in rack.old) }
    requires apart { same_lane lanes.0 lanes.1 ≡ false }
    ensures first { result.0.script ≡ script.now }
    ensures second { result.1.script ≡ script.now }
{
    let (first, second) = lanes;
    let one = Hands::of_lane(alloc, script, first, rack).expect(rt, MEMORY);
    let other = Hands::of_lane(alloc, script, second, rack).expect(rt, MEMORY);
    (one, other)
}
