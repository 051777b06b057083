ghost use Rattle.std.specs.Prelude.{◌≡◌, ◌≤◌, ◌↔◌, IfOk, IsTrue, MatchBool};
ghost use Rattle.asio_types.specs.Faults.{plan_called, plan_failed};
ghost use Rattle.reactor_script.specs.Plans.{first_plan, IsNamed};

use crate::method::{FailAt, Method};
use asio_types::{FailPlan, NoMemory};
use std::alloc::Global;

/// The plans of the methods that can fail.
#[derive(Drop)]
pub(crate) struct FailPlans {
    pub(crate) set_up: FailPlan,
    pub(crate) advance: FailPlan,
    pub(crate) read_some: FailPlan,
    pub(crate) write_some: FailPlan,
}

fn plan_of(alloc: Global, method: Method, fails: &[FailAt]) -> Result<FailPlan, NoMemory>
    ensures { IfOk result (λ plan. plan ≡ first_plan method fails.now) }
{
    let mut calls = Vec::new(alloc);
    for fail in fails {
        if fail.method.number() == method.number() {
            calls.push(fail.nth)?;
        }
    }
    Ok(FailPlan::of(calls))
}

impl FailPlans {
    pub(crate) fn make(alloc: Global, fails: &[FailAt]) -> Result<FailPlans, NoMemory>
        ensures set_up { IfOk result (λ plans. plans.set_up ≡ first_plan Method.SetUp fails.now) }
        ensures advance { IfOk result
            (λ plans. plans.advance ≡ first_plan Method.Advance fails.now) }
        ensures read_some { IfOk result
            (λ plans. plans.read_some ≡ first_plan Method.ReadSome fails.now) }
        ensures write_some { IfOk result
            (λ plans. plans.write_some ≡ first_plan Method.WriteSome fails.now) }
    {
        Ok(FailPlans {
            set_up: plan_of(alloc, Method::SetUp, fails)?,
            advance: plan_of(alloc, Method::Advance, fails)?,
            read_some: plan_of(alloc, Method::ReadSome, fails)?,
            write_some: plan_of(alloc, Method::WriteSome, fails)?,
        })
    }
}

/// Counts a call, and answers whether it fails; a failure counts one fault.
pub(crate) fn strikes(plan: &mut FailPlan) -> bool
    ensures named { IsTrue result ↔ IsNamed plan.old }
    ensures later { plan.old.faults ≤ plan.new.faults }
    ensures counted { MatchBool result (plan.new ≡ plan_failed plan.old)
        (plan.new ≡ plan_called plan.old) }
{
    let fails = plan.next_fails();
    if fails {
        plan.fail();
    }
    fails
}
