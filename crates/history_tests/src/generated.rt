//! Sessions that numbers make, and the summaries of their histories. The expected texts were worked
//! out by hand from the rule.
ghost use Rattle.std.specs.Prelude.{◌<◌, ◌≤◌, ◌^◌, length};

use crate::histories::history_of;
use asio_types::{Code, Event, SureSink, TextSink};
use generated_session::{MOST_SIZE, MOST_START, generate, write_summary};
use session_script::write_script;
use std::alloc::Global;
use std::process::Abort;
use std::test::Fail;

// Each number is 75 times the one before and 74, modulo 65537: 75 * 1 + 74 = 149,
// 75 * 149 + 74 = 11249, 75 * 11249 + 74 = 843749 = 12 * 65537 + 57305,
// 75 * 57305 + 74 = 4297949 = 65 * 65537 + 38044, and on: 35283, 24819, 26463, 18689, 25472, 9901,
// 21742, 57836, 12332, 7456, 34978, 1944, 14800, 61482, 23634, 3125, 37838, 19833, 45735, 22275,
// 32274, 61292, 9384. Three make an item: its kind and its lane modulo 4, its time modulo 1000. The
// numbers of each item stand with its row. No other start makes one of these texts.
const NUMBERS: [(u32, u32, &str); 5] = [
    // 149, 11249, 57305: kind 1, lane 1. 38044, 35283, 24819: kind 0. 26463, 18689, 25472: kind 3,
    // lane 1, time 472. 9901, 21742, 57836: kind 1, lane 2. 12332, 7456, 34978: kind 0.
    // 1944, 14800, 61482: kind 0. 23634, 3125, 37838: kind 2, lane 1. 19833, 45735, 22275: kind 1,
    // lane 3. 32274, 61292, 9384: kind 2, lane 0.
    (
        1,
        15,
        "session 1 strands 4 timers 4 open { post 1 { post - { } } post - { } expires 1 472 wait 1 1 - { } post 2 { post - { } } post - { } post - { } dispatch 1 { dispatch 1 { } } post 3 { post - { } } dispatch 0 { dispatch 0 { } } } run 4",
    ),
    // 11249, 57305, 38044: kind 1, lane 1. 35283, 24819, 26463: kind 3, lane 3, time 463.
    // 18689, 25472, 9901: kind 1, lane 0.
    (
        149,
        6,
        "session 1 strands 4 timers 4 open { post 1 { post - { } } expires 3 463 wait 3 3 - { } post 0 { post - { } } } run 4",
    ),
    // 57305, 38044, 35283: kind 1, lane 0. 24819, 26463, 18689: kind 3, lane 3, time 689.
    // 25472, 9901, 21742: kind 0. 57836, 12332, 7456: kind 0, and one act is left.
    (
        11249,
        6,
        "session 1 strands 4 timers 4 open { post 0 { post - { } } expires 3 689 wait 3 3 - { } post - { } post - { } } run 4",
    ),
    // 38044, 35283, 24819: kind 0. 26463, 18689, 25472: kind 3, lane 1, time 472.
    // 9901, 21742, 57836: kind 1, lane 2. 12332, 7456, 34978: kind 0, and one act is left.
    (
        57305,
        6,
        "session 1 strands 4 timers 4 open { post - { } expires 1 472 wait 1 1 - { } post 2 { post - { } } post - { } } run 4",
    ),
    // 35283, 24819, 26463: kind 3, lane 3, time 463. 18689, 25472, 9901: kind 1, lane 0.
    // 21742, 57836, 12332: kind 2, lane 0.
    (
        38044,
        6,
        "session 1 strands 4 timers 4 open { expires 3 463 wait 3 3 - { } post 0 { post - { } } dispatch 0 { dispatch 0 { } } } run 4",
    ),
];

/// The session that a number makes has this text.
fn makes(rt: &impl Abort, alloc: Global, start: u32, size: u32, want: &[u8]) -> Result<(), Fail>
    requires start { start ≤ 65536 }
    requires some { 1 ≤ size }
    requires few { size ≤ 1024 }
{
    let script = generate(alloc, start, size).or(Err("memory"))?;
    let text = write_script(alloc, &script).or(Err("memory"))?;
    assert_eq!(rt; text.as_slice(), want, "{start} {size}");
    Ok(())
}

#[test]
fn each_number_comes_from_the_one_before(rt: HostRuntime) -> Result<(), Fail> {
    for (start, size, want) in NUMBERS {
        assert!(rt; start <= MOST_START);
        assert!(rt; 1 <= size);
        assert!(rt; size <= MOST_SIZE);
        makes(&rt, rt.alloc(), start, size, want.as_bytes())?;
    }
    Ok(())
}

#[test]
fn a_posting_that_posts_and_a_posting(rt: HostRuntime) -> Result<(), Fail> {
    let text = b"session 1 strands 4 timers 4 open { post 1 { post - { } } post - { } } run 4";
    makes(&rt, rt.alloc(), 1, 3, text)
}

#[test]
fn a_wait_takes_two_acts(rt: HostRuntime) -> Result<(), Fail> {
    let text = b"session 1 strands 4 timers 4 open { expires 3 74 wait 3 3 - { } } run 4";
    makes(&rt, rt.alloc(), 3, 2, text)
}

#[test]
fn a_dispatch_dispatches_to_its_own_strand(rt: HostRuntime) -> Result<(), Fail> {
    let text = b"session 1 strands 4 timers 4 open { dispatch 0 { dispatch 0 { } } } run 4";
    makes(&rt, rt.alloc(), 0, 2, text)
}

#[test]
fn a_wait_has_no_room_in_one_act(rt: HostRuntime) -> Result<(), Fail> {
    let text = b"session 1 strands 4 timers 4 open { post - { } } run 4";
    makes(&rt, rt.alloc(), 3, 1, text)
}

/// The summary of these events of the session that a number makes has this text.
fn sums_up(
    rt: &impl Abort,
    alloc: Global,
    events: &[Event],
    start: u32,
    size: u32,
    want: &[u8],
) -> Result<(), Fail>
    requires { length events.now < 2 ^ 32 }
{
    let history = history_of(alloc, events).or(Err("memory"))?;
    let mut out = SureSink::make(alloc, 256).or(Err("memory"))?;
    assert_eq!(rt; write_summary(&history, start, size, &mut out), Ok(()));
    assert_eq!(rt; out.bytes(), want);
    Ok(())
}

#[test]
fn a_wait_that_came_due_is_summed_up(rt: HostRuntime) -> Result<(), Fail> {
    let events = [
        Event::Call { act: 0 },
        Event::Back { act: 0 },
        Event::Call { act: 1 },
        Event::Back { act: 1 },
        Event::Take { act: 0 },
        Event::Take { act: 1 },
        Event::Tick { now: 74 },
        Event::Done {
            op: 1,
            code: Code::Ok,
            size: 0,
        },
        Event::Begin {
            op: 1,
            code: Code::Ok,
            size: 0,
        },
        Event::End { op: 1, mark: 1001 },
        Event::Ended,
    ];
    let want = b"gen 3 2\nacts 2\nexecuted 1\ndropped 0\naborted 0\nmarks 1001\ntime 74\nended\n";
    sums_up(&rt, rt.alloc(), &events, 3, 2, want)
}

#[test]
fn a_fault_is_the_last_line(rt: HostRuntime) -> Result<(), Fail> {
    let events = [
        Event::Call { act: 0 },
        Event::Done {
            op: 0,
            code: Code::Aborted,
            size: 0,
        },
        Event::Polled,
        Event::Fault,
        Event::Dropped { op: 0, mark: 7 },
    ];
    let want = b"gen 0 1\nacts 1\nexecuted 0\ndropped 1\naborted 1\nmarks 0\ntime 0\nfault\n";
    sums_up(&rt, rt.alloc(), &events, 0, 1, want)
}

#[test]
fn a_failed_write_leaves_the_lines_before(rt: HostRuntime) -> Result<(), Fail> {
    let alloc = rt.alloc();
    let history = history_of(alloc, &[Event::Ended]).or(Err("memory"))?;
    let mut out = TextSink::make(alloc, 256, &[7]).or(Err("memory"))?;
    assert!(rt; write_summary(&history, 0, 1, &mut out).is_err());
    assert_eq!(rt; out.bytes(), b"gen 0 1\nacts ".as_slice());
    Ok(())
}
