//! The task that collects the members of a group.
ghost use Rattle.std.specs.Prelude.{◌≡◌, ℕ, List, [], IfOk};
ghost use Rattle.parallel_group.specs.Collecting.{IsCollecting, none_found};

use asio_types::{NoMemory, OpNo};
use lane_logs::Receipt;
use op_future::Task;
use std::alloc::Global;
use std::marker::{Brand, Model, PhantomData};

/// The operations of the members of one group, for contracts alone: a caller picks them where it
/// passes `Brand`.
pub(crate) trait GroupOps {
    /// In the order of the members.
    ghost ops: { List ℕ };
}

impl GroupOps for Brand {
    ghost ops = { [] };
}

/// What was found of a member.
#[derive(Clone, Copy)]
pub(crate) struct Collected {
    pub(crate) member: usize,
    pub(crate) receipt: Receipt,
}

/// Wants the operations of the members of a group one after another, by their numbers, or nothing.
#[derive(Drop)]
pub(crate) struct MemberTask<N: GroupOps> {
    ops: Vec<OpNo>,
    found: Vec<Collected>,
    group: PhantomData<N>,
}

impl<N: GroupOps> Model for MemberTask<N> {
    ghost use Rattle.std.specs.Prelude.{◌≤◌, length, vec_capacity};
    ghost use Rattle.parallel_group.specs.Collecting.{Collecting, IsCollecting};

    ghost Value = { Collecting };

    ghost view = { λ t. record { ops = t.ops.items; found = t.found.items } };

    ghost invariant = { λ t.
        IsCollecting N.ops (record { ops = t.ops.items; found = t.found.items })
        × (length t.ops.items ≤ vec_capacity t.found) };
}

impl<N: GroupOps> MemberTask<N> {
    /// Wants all of these.
    pub(crate) fn of_all(alloc: Global, ops: Vec<OpNo>) -> Result<MemberTask<N>, NoMemory>
        requires { ops.items ≡ N.ops }
        ensures { IfOk result (λ task. task ≡ none_found N.ops) }
    {
        let found = Vec::with_capacity(alloc, ops.len())?;
        Ok(MemberTask {
            ops,
            found,
            group: PhantomData,
        })
    }

    /// Wants nothing. Takes no memory.
    pub(crate) fn of_none(alloc: Global) -> MemberTask<N>
        ensures { result ≡ none_found [] }
    {
        MemberTask {
            ops: Vec::new(alloc),
            found: Vec::new(alloc),
            group: PhantomData,
        }
    }

    /// What it found.
    pub(crate) fn into_found(self) -> Vec<Collected>
        ensures found { result.items ≡ self.found }
        ensures collecting { IsCollecting N.ops self }
    {
        self.found
    }
}

impl<N: GroupOps> Task for MemberTask<N> {
    ghost use Rattle.parallel_group.specs.Collecting.{task_state};
    ghost use Rattle.parallel_group.specs.Wanting.{wants_while_left};

    ghost state = { λ task. task_state task };

    ghost wants_while_left = { wants_while_left };

    fn wants(&self) -> Option<OpNo> {
        self.ops.get(self.found.len()).copied()
    }

    fn got(&mut self, receipt: Receipt) {
        let member = self.found.len();
        self.found.push_reserved(Collected { member, receipt });
    }
}
