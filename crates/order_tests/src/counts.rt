//! How many histories scripts have.

use crate::plain::plain_count;
use session_orders::{Bounds, ReactorKind, count_orders, list_orders};
use session_script::{Script, read_script};
use std::alloc::Global;
use std::test::Fail;

// Scripts whose histories were counted by hand, from the rules: whether their bytes are told, and how many there are.
const COUNTED: [(&str, bool, u64); 9] = [
    ("session 1 open { } run 1", true, 1),
    ("session 1 open { post - { } } run 1", true, 1),
    // The two handlers go on side by side: 4! / (2! 2!) orders.
    ("session 1 open { post - { } post - { } } run 1", true, 6),
    // On one strand the first goes first.
    (
        "session 1 strands 1 open { post 0 { } post 0 { } } run 1",
        true,
        1,
    ),
    // Three handlers side by side: 6! / (2! 2! 2!).
    (
        "session 1 open { post - { } post - { } post - { } } run 1",
        true,
        90,
    ),
    // docs/TRACE.md has the reasons.
    (
        "session 1 strands 2 timers 1 slots 1 streams 1 at 3 feed 0 x6869 open { expires 0 5 wait 0 0 - { emit 0 1 } read 0 4 0 0 { } abort { dispatch 0 { } post 1 { } } } run 2",
        true,
        36,
    ),
    // With ok and one byte, with eof or reset and none; before or after the last time point.
    (
        "session 1 streams 1 open { read 0 1 - - { } } run 1",
        false,
        6,
    ),
    // With ok and one or two bytes, with eof or reset and none; before or after the last time point.
    (
        "session 1 streams 1 open { readsome 0 2 - - { } } run 1",
        false,
        8,
    ),
    // With ok and all bytes, with broken or reset and none to two; before or after the last time point.
    (
        "session 1 streams 1 open { write 0 x616263 - - { } } run 1",
        false,
        14,
    ),
];

// Eight postings on four strands: 16! / (4! 4! 4! 4!).
const EIGHT: &str =
    "session 1 strands 4 open { post 0 { } post 0 { } post 1 { } post 1 { } post 2 { } post 2 { } post 3 { } post 3 { } } run 4";

// Scripts whose bytes are untold, which are enumerated plainly, too.
const UNTOLD: [&str; 6] = [
    "session 1 streams 1 at 1 feed 0 x6162 open { read 0 2 - - { } } run 1",
    "session 1 streams 1 open { readsome 0 1 - - { } close 0 } run 1",
    "session 1 slots 1 streams 1 open { read 0 2 - 0 { } emit 0 1 } run 1",
    "session 1 streams 1 open { until 0 x0a 2 - - { } } poll 1 run 1",
    "session 1 streams 2 open { readsome 0 1 - - { } readsome 1 1 - - { } } run 1",
    "session 1 streams 1 open { write 0 x6162 - - { } other { stop } } run 1",
];

// Scripts whose bytes are told, which are enumerated plainly, too.
const ENUMERATED: [&str; 30] = [
    "session 1 open { } run 1",
    "session 1 open { } run 1 run 1",
    "session 1 open { } run 1 restart run 1",
    "session 1 open { post - { } } run 1",
    "session 1 open { post - { } post - { } } run 2",
    "session 1 open { post - { } post - { } } run 1 run 1",
    "session 1 open { post - { } post - { } } run 1 restart run 1",
    "session 1 open { post - { } } poll 1",
    "session 1 open { post - { } } poll 1 run 1",
    "session 1 open { post - { post - { } } } run 1",
    "session 1 open { post - { post - { } } post - { } } run 1",
    "session 1 open { post - { dispatch - { } } } run 1",
    "session 1 open { post - { dispatch - { } } post - { } } run 1",
    "session 1 open { defer - { } dispatch - { } } run 1",
    "session 1 open { stop } run 1",
    "session 1 open { stop post - { } } run 1",
    "session 1 open { post - { } stop post - { } } run 1",
    "session 1 open { post - { stop } post - { } } run 1",
    "session 1 open { post - { stop } post - { } } run 1 restart run 1",
    "session 1 strands 1 open { post 0 { } post 0 { } } run 1",
    "session 1 strands 1 open { post 0 { post 0 { } } post 0 { } } run 1",
    "session 1 strands 2 open { post 0 { } post 1 { } post 0 { } } run 1",
    "session 1 strands 1 open { post 0 { stop } post 0 { } post 0 { } } run 1 restart run 1",
    "session 1 guards 1 open { post - { release 0 } } run 1",
    "session 1 timers 1 open { expires 0 5 wait 0 - - { } } run 1",
    "session 1 timers 1 open { expires 0 5 wait 0 - - { } } poll 1 run 1",
    "session 1 timers 1 open { expires 0 9 wait 0 - - { } cancel 0 } run 1",
    "session 1 timers 1 open { expires 0 3 wait 0 - - { post - { } } post - { } } run 1",
    "session 1 streams 1 at 1 feed 0 x6162 open { read 0 2 - - { } } run 1",
    "session 1 streams 1 at 1 end 0 open { read 0 2 - - { } other { post - { } } } run 1",
];

fn script_of(alloc: Global, text: &str) -> Result<Script, Fail> {
    match read_script(alloc, text.as_bytes()) {
        Ok(script) => Ok(script),
        Err(_) => Err("no script".into()),
    }
}

fn reactor(told: bool) -> ReactorKind {
    ReactorKind {
        told,
        failing: false,
    }
}

fn listed(alloc: Global, script: &Script, told: bool) -> Result<u64, Fail> {
    let mut bounds = Bounds::usual();
    bounds.reactor = reactor(told);
    let found = list_orders(alloc, script, bounds)?;
    if !found.are_all() {
        return Err("not all".into());
    }
    Ok(found.histories().len() as u64)
}

/// The list and the count of a script have as many histories as are wanted.
fn agrees(alloc: Global, text: &str, told: bool, want: u64) -> Result<bool, Fail> {
    let script = script_of(alloc, text)?;
    let counted = count_orders(alloc, &script, reactor(told), 10_000)?;
    Ok(listed(alloc, &script, told)? == want && counted == Some(want))
}

/// They have as many as a plain enumeration finds.
fn agrees_plainly(alloc: Global, text: &str, told: bool) -> Result<bool, Fail> {
    let script = script_of(alloc, text)?;
    agrees(alloc, text, told, plain_count(alloc, &script, told)?)
}

#[test]
fn scripts_have_as_many_histories_as_the_rules_say(rt: HostRuntime) -> Result<(), Fail> {
    for (text, told, want) in COUNTED {
        assert!(rt; agrees(rt.alloc(), text, told, want)?, "{}", text);
    }
    let eight = script_of(rt.alloc(), EIGHT)?;
    let counted = count_orders(rt.alloc(), &eight, reactor(true), 10_000)?;
    assert_eq!(rt; counted, Some(63_063_000));
    Ok(())
}

#[test]
fn lists_and_counts_are_those_of_a_plain_enumeration(rt: HostRuntime) -> Result<(), Fail> {
    for text in ENUMERATED {
        assert!(rt; agrees_plainly(rt.alloc(), text, true)?, "{}", text);
    }
    for text in UNTOLD {
        assert!(rt;
            agrees_plainly(rt.alloc(), text, false)?,
            "{} without bytes told",
            text
        );
    }
    Ok(())
}
