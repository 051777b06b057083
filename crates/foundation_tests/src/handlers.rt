//! Handlers that are executed or discarded, and a rack of them.

ghost use Rattle.std.specs.Prelude.{◌≡◌};
ghost use Rattle.op_handlers.specs.Job.{answer};

use asio_types::{Class, Code, class_of};
use op_handlers::{Call, CompletionHandler, Handler, Rack, Ran, Spend};
use std::alloc::{AllocError, Global};
use std::cell::Cell;
use std::process::Abort;
use std::sync::Arc;
use std::sync::atomic::{AtomicU64, Ordering};
use std::test::Fail;

type Job = Box<dyn FnOnce(Spend) -> Ran + Send>;

const ABORTED: Call = Call {
    op: 3,
    code: Code::Aborted,
    size: 5,
    begun: 12,
};

// What a job with the marks 7 and 70 answers.
fn answered(spend: Spend) -> Ran
    ensures { result ≡ answer (record { run = 7; drop = 70 }) spend }
{
    match spend {
        Spend::Execute(call) => Ran {
            mark: 7,
            class: class_of(call.code),
            begun: call.begun,
        },
        Spend::Discard => Ran {
            mark: 70,
            class: Class::Ok,
            begun: 0,
        },
    }
}

// Counts the handlers that were executed as it is asked, with the operation 3 and the size 5.
fn count_own(own: &AtomicU64, spend: Spend) {
    if let Spend::Execute(call) = spend {
        if call.op == 3 && call.size == 5 {
            own.fetch_add(1, Ordering::SeqCst);
        }
    }
}

// Spends a handler through its bound alone.
fn executed<H: CompletionHandler>(handler: H) -> Ran {
    handler.call(ABORTED)
}

#[test]
fn a_handler_is_given_its_own_call(rt: HostRuntime) -> Result<(), Fail> {
    let own = Arc::new(rt.alloc(), AtomicU64::new(0))?;
    let seen = Arc::try_clone(&own)?;
    let job: Job = Box::new(
        rt.alloc(),
        move |spend: Spend| -> Ran
            ensures { result ≡ answer (record { run = 7; drop = 70 }) spend }
        {
            count_own(&seen, spend);
            answered(spend)
        },
    )?;
    let ran = executed(Handler::of(job));
    assert_eq!(rt; (ran.mark, ran.class, ran.begun), (7, Class::Abort, 12));
    assert_eq!(rt; own.load(Ordering::SeqCst), 1);
    Ok(())
}

#[test]
fn a_discarded_handler_answers_its_drop_mark(rt: HostRuntime) -> Result<(), Fail> {
    let job: Job = Box::new(
        rt.alloc(),
        |spend: Spend| -> Ran
            ensures { result ≡ answer (record { run = 7; drop = 70 }) spend }
        { answered(spend) },
    )?;
    assert_eq!(rt; Handler::of(job).discard(), 70);
    Ok(())
}

// A handler that counts how it is spent.
#[derive(Clone, Copy)]
struct Counted<'a> {
    executions: &'a Cell<u32>,
    discards: &'a Cell<u32>,
}

impl<'a> CompletionHandler for Counted<'a> {
    ghost marks = { λ _. record { run = λ _. 7; drop = 70 } };

    fn call(self, call: Call) -> Ran {
        let Counted {
            executions,
            discards: _,
        } = self;
        executions.set(executions.get().saturating_add(1));
        answered(Spend::Execute(call))
    }

    fn discard(self) -> u64 {
        let Counted {
            executions: _,
            discards,
        } = self;
        discards.set(discards.get().saturating_add(1));
        70
    }
}

// The rack of three such handlers, behind a number whose handler was taken.
fn rack_of(alloc: Global, counted: Counted) -> Result<Rack<Counted>, AllocError> {
    let slots = vec![in alloc; None, Some(counted), Some(counted), Some(counted)]?;
    Ok(Rack::of(slots))
}

// The run mark of a handler that is taken and executed, if there is one.
fn run_mark(rack: &mut Rack<Counted>, number: u32) -> Option<u64> {
    match rack.take(number) {
        Some(handler) => Some(executed(handler).mark),
        None => None,
    }
}

fn have_run_marks(rt: &impl Abort, rack: &mut Rack<Counted>, rows: &[(u32, Option<u64>)]) {
    for (number, mark) in rows {
        assert_eq!(rt; run_mark(rack, *number), *mark, "at {number}");
    }
}

// The numbers that are taken, with the run mark that is found at each.
const TAKEN: &[(u32, Option<u64>)] = &[(0, None), (2, Some(7)), (2, None), (4, None)];

#[test]
fn a_rack_executes_none_that_it_discards(rt: HostRuntime) -> Result<(), Fail> {
    let (executions, discards) = (Cell::new(0), Cell::new(0));
    let counted = Counted {
        executions: &executions,
        discards: &discards,
    };
    let mut rack = rack_of(rt.alloc(), counted)?;
    assert!(rt; !rack.is_whole());
    have_run_marks(&rt, &mut rack, TAKEN);
    let left = rack.discard_rest();
    assert_eq!(rt; (left, executions.get(), discards.get()), (140, 1, 2));
    assert_eq!(rt; rack.count(), 4);
    rack.put(3, counted);
    let last = rack.discard_all();
    assert_eq!(rt; (last, executions.get(), discards.get()), (70, 1, 3));
    Ok(())
}
