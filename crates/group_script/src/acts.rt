ghost use Rattle.std.specs.Prelude.{◌≡◌, ◌≤◌, ◌<◌, ◌+◌, ◌^◌, ◌++◌, ◌==◌, ◌∷◌, [], not, map, filter, IfOk, OnOk, length, vec_len};
ghost use Rattle.session_script.specs.Outcome.{entries_of, entry_of};
ghost use Rattle.group_script.specs.Group.{acts_from, acts_of_member, cancelling, opened, operation_of, under};
ghost use Rattle.session_script.specs.declared.act.Act.TheVariants as act;
ghost use Rattle.group_script.specs.Limits.{most_members};

use crate::member::{Member, WaitFor};
use asio_types::{Class, NoMemory, OpNo, Types};
use session_script::{Act, PlacedAct};
use std::alloc::Global;

/// How members of a group cancel one another: how many there are, by which rule, and by which
/// types.
#[derive(Drop)]
pub(crate) struct Cancelling {
    pub(crate) count: u8,
    pub(crate) rule: WaitFor,
    pub(crate) types: Types,
}

/// An act of `open`.
fn opened(act: Act) -> PlacedAct
    ensures { entry_of result ≡ opened act }
{
    PlacedAct { act, parent: None }
}

/// The operation of the member with this number: on the one strand, with a slot of its own.
fn operation_of(i: u8, member: Member) -> Act
    ensures { result ≡ operation_of i member }
{
    match member {
        Member::Wait { .. } => Act::Wait {
            timer: i,
            strand: Some(0),
            slot: Some(i),
            filter: Types::all(),
        },
        Member::Read { stream, size } => Act::ReadAll {
            stream,
            size,
            strand: Some(0),
            slot: Some(i),
            filter: Types::all(),
        },
    }
}

/// In the branch of an operation for a class, an emit at the member with this number, unless it is
/// the operation's own.
fn push_emit(
    acts: &mut Vec<PlacedAct>,
    how: &Cancelling,
    i: u8,
    slot: u8,
    place: (OpNo, Class),
) -> Result<(), NoMemory>
    ensures acts { OnOk result (entries_of acts.new.items
        ≡ entries_of acts.old.items
        ++ map (λ j. under place.0 place.1 (act.Emit j how.now.types))
        (filter (λ j. not (j == i)) (slot ∷ []))) }
    ensures few { OnOk result (vec_len acts.new ≤ vec_len acts.old + 1) }
{
    if slot == i {
        return Ok(());
    }
    let types = how.types;
    acts.push(PlacedAct {
        act: Act::Emit { slot, types },
        parent: Some(place),
    })?;
    Ok(())
}

/// In the branch of an operation for a class, an emit at each other member.
fn push_emits(
    acts: &mut Vec<PlacedAct>,
    how: &Cancelling,
    i: u8,
    op: OpNo,
    class: Class,
) -> Result<(), NoMemory>
    requires { how.now.count ≤ most_members }
    ensures acts { OnOk result
        (entries_of acts.new.items ≡ entries_of acts.old.items ++ cancelling how.now i op class) }
    ensures few { OnOk result (vec_len acts.new ≤ vec_len acts.old + most_members) }
{
    if !how.rule.cancels(class) {
        return Ok(());
    }
    for slot in 0..how.count {
        push_emit(acts, how, i, slot, (op, class))?;
    }
    Ok(())
}

/// The acts of the member with this number.
fn push_member(
    acts: &mut Vec<PlacedAct>,
    how: &Cancelling,
    i: u8,
    member: Member,
) -> Result<(), NoMemory>
    requires count { how.now.count ≤ most_members }
    requires few { vec_len acts.old < 2 ^ 31 }
    ensures acts { OnOk result (entries_of acts.new.items
        ≡ entries_of acts.old.items ++ acts_of_member how.now i (vec_len acts.old) member) }
    ensures few { OnOk result (vec_len acts.new ≤ vec_len acts.old + 50) }
{
    if let Member::Wait { after } = member {
        acts.push(opened(Act::Expires { timer: i, after }))?;
    }
    let op = acts.len() as OpNo;
    acts.push(opened(operation_of(i, member)))?;
    push_emits(acts, how, i, op, Class::Ok)?;
    push_emits(acts, how, i, op, Class::Abort)?;
    push_emits(acts, how, i, op, Class::Other)
}

/// The acts of all members.
pub(crate) fn acts_of(
    alloc: Global,
    members: &[Member],
    rule: WaitFor,
    types: Types,
) -> Result<Vec<PlacedAct>, NoMemory>
    requires { length members.now ≤ most_members }
    ensures { IfOk result (λ acts. entries_of acts.items
        ≡ acts_from (record { count = length members.now; rule = rule; types = types })
        0 0 members.now) }
{
    let how = Cancelling {
        count: members.len() as u8,
        rule,
        types,
    };
    let mut acts = Vec::new(alloc);
    for (i, member) in members.iter().enumerate() {
        push_member(&mut acts, &how, i as u8, *member)?;
    }
    Ok(acts)
}
