//! Events judged without a trace, and the numbers and notes of the statuses. The verdicts were
//! worked out by hand from the rules.

use asio_types::{Code, Event};
use session_script::read_script;
use std::alloc::Global;
use std::test::Fail;
use trace_check::{CheckForm, CheckStatus, Verdict, check};

const CALL: Event = Event::Call { act: 0 };

const BACK: Event = Event::Back { act: 0 };

const BEGIN: Event = Event::Begin {
    op: 0,
    code: Code::Ok,
    size: 0,
};

const END: Event = Event::End { op: 0, mark: 7 };

// Whether bytes are told, events of one posting, and the verdict on them.
const EVENTS: [(bool, &[Event], Verdict); 6] = [
    (true, &[], Verdict::Incomplete),
    (true, &[CALL, BACK, BEGIN, END], Verdict::Incomplete),
    (
        true,
        &[CALL, BACK, BEGIN, END, Event::Ended],
        Verdict::Legal,
    ),
    (false, &[BACK, CALL], Verdict::Illegal(1)),
    (false, &[CALL, BEGIN], Verdict::Illegal(2)),
    (false, &[CALL, CALL], Verdict::Illegal(2)),
];

/// The verdict on events of one posting.
fn judged(alloc: Global, told: bool, events: &[Event]) -> Result<Verdict, Fail> {
    let Ok(script) = read_script(alloc, b"session 1 open { post - { } } run 1") else {
        return Err("no script".into());
    };
    if events.len() > 5 {
        return Err("too many events".into());
    }
    Ok(check(alloc, &script, told, events)?)
}

#[test]
fn events_are_judged_without_their_trace(rt: HostRuntime) -> Result<(), Fail> {
    for (told, events, want) in EVENTS {
        let verdict = judged(rt.alloc(), told, events)?;
        assert_eq!(rt; verdict, want, "{} events", events.len());
    }
    Ok(())
}

#[test]
fn statuses_have_their_numbers_and_notes(rt: HostRuntime) {
    for (status, number, note) in [
        (CheckStatus::Done, 0, b"".as_slice()),
        (CheckStatus::Refused, 2, b"".as_slice()),
        (
            CheckStatus::WriteFault,
            4,
            b"asio_check: write fault\n".as_slice(),
        ),
        (
            CheckStatus::NoMemory,
            6,
            b"asio_check: no memory\n".as_slice(),
        ),
        (CheckStatus::Illegal, 8, b"".as_slice()),
    ] {
        assert_eq!(rt; (status.number(), status.note()), (number, note));
    }
    assert!(rt; CheckForm::Told.tells() && !CheckForm::Untold.tells());
}
