ghost use Rattle.std.specs.Prelude.{◌≡◌};
ghost use Rattle.ready_hints.specs.Hints.{IsPassOf};

use ready_hints::{HintPass, ReadyHints};
use std::sync::Wait;
use std::test::*;
use std::thread;

#[test]
fn hints_come_out_oldest_first_and_once(rt: HostRuntime) -> Result<(), Fail> {
    let (hints, mut passes) = ReadyHints::make(rt.alloc(), 2)?;
    let (Some(mut one), Some(mut other)) = (passes.next(), passes.next()) else {
        unreachable!()
    };
    assert!(rt; passes.next().is_none());
    assert_eq!(rt; hints.next_hint(&rt, &mut one), None);
    hints.hint(&rt, &mut one, 3)?;
    hints.hint(&rt, &mut other, 5)?;
    hints.hint(&rt, &mut one, 3)?;
    assert_eq!(rt; hints.next_hint(&rt, &mut other), Some(3));
    assert_eq!(rt; hints.next_hint(&rt, &mut one), Some(5));
    hints.gather(&mut one, other);
    assert_eq!(rt; hints.close(&rt, one), 1);
    Ok(())
}

// Takes three times, and answers how many hints there were.
fn take_three<R: Wait>(rt: &R, hints: &ReadyHints, mut pass: HintPass) -> (HintPass, usize)
    requires { IsPassOf hints.now pass }
    ensures { IsPassOf hints.now result.0 × (result.0.parts ≡ pass.parts) }
{
    let first = hints.next_hint(rt, &mut pass);
    let second = hints.next_hint(rt, &mut pass);
    let third = hints.next_hint(rt, &mut pass);
    let count = [first, second, third]
        .iter()
        .filter(|hint| hint.is_some())
        .count();
    (pass, count)
}

// Hints at three lanes, as far as memory goes.
fn hint_three<R: Wait>(rt: &R, hints: &ReadyHints, mut pass: HintPass) -> (HintPass, usize)
    requires { IsPassOf hints.now pass }
    ensures { IsPassOf hints.now result.0 × (result.0.parts ≡ pass.parts) }
{
    let first = hints.hint(rt, &mut pass, 7);
    let second = hints.hint(rt, &mut pass, 8);
    let third = hints.hint(rt, &mut pass, 9);
    let count = [first, second, third]
        .iter()
        .filter(|hint| hint.is_ok())
        .count();
    (pass, count)
}

#[test]
fn what_was_hinted_was_taken_or_is_left(rt: HostRuntime) -> Result<(), Fail> {
    let (made, mut passes) = ReadyHints::make(rt.alloc(), 2)?;
    let hints = &made;
    let (Some(one), Some(other)) = (passes.next(), passes.next()) else {
        unreachable!()
    };
    let ((mut whole, hinted), (other, taken)) = thread::join(
        &rt,
        move ||
            requires { IsPassOf hints.now one }
            ensures { IsPassOf hints.entry.now result.0 × (result.0.parts ≡ one.parts) }
        { hint_three(&rt, hints, one) },
        move ||
            requires { IsPassOf hints.now other }
            ensures { IsPassOf hints.entry.now result.0 × (result.0.parts ≡ other.parts) }
        { take_three(&rt, hints, other) },
    );
    hints.gather(&mut whole, other);
    let left = made.close(&rt, whole);
    assert!(rt; hinted == 3 && taken <= 3 && left == 3 - taken);
    Ok(())
}
