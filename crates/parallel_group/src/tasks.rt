//! The tasks of the workers of a group.
ghost use Rattle.std.specs.Prelude.{◌≡◌, ◌<◌, ◌≤◌, ◌∷◌, ◌++◌, [], Some, IfOk, OnOk, filter, length, slice_get};
ghost use Rattle.parallel_group.specs.Collecting.{none_found};
ghost use Rattle.parallel_group.specs.Members.{member_ops};
ghost use Rattle.session_script.specs.Script.{is_op};

use crate::member_task::{GroupOps, MemberTask};
use asio_types::{NoMemory, OpNo};
use session_script::Script;
use std::alloc::Global;

/// This act, if it is an operation.
fn push_op(ops: &mut Vec<OpNo>, script: &Script, act: OpNo) -> Result<(), NoMemory>
    requires { act < length script.now.acts }
    ensures { OnOk result (ops.new.items ≡ ops.old.items ++ filter (is_op script.now) (act ∷ [])) }
{
    if script.is_op(act) {
        ops.push(act)?;
    }
    Ok(())
}

/// The operations of a script, in rising number: those of a group's script are its members'.
pub(crate) fn member_ops(alloc: Global, script: &Script) -> Result<Vec<OpNo>, NoMemory>
    ensures { IfOk result (λ ops. ops.items ≡ member_ops script.now) }
{
    let mut ops = Vec::new(alloc);
    for act in 0..script.acts() {
        push_op(&mut ops, script, act)?;
    }
    Ok(ops)
}

/// Worker 0's task collects the members, and those of the other workers want nothing.
pub(crate) fn tasks_of<N: GroupOps>(
    alloc: Global,
    ops: Vec<OpNo>,
    workers: u8,
) -> Result<Vec<MemberTask<N>>, NoMemory>
    requires ops { ops.items ≡ N.ops }
    requires some { 1 ≤ workers }
    ensures count { IfOk result (λ tasks. length tasks.items ≡ workers) }
    ensures first { IfOk result (λ tasks. slice_get tasks.items 0 ≡ Some (none_found N.ops)) }
{
    let first = MemberTask::of_all(alloc, ops)?;
    let mut tasks = Vec::with_capacity(alloc, workers as usize)?;
    tasks.push_reserved(first);
    for _ in 1..workers {
        tasks.push_reserved(MemberTask::of_none(alloc));
    }
    Ok(tasks)
}
