ghost use Rattle.std.specs.Prelude.{◌≡◌, [], IfOk};
ghost use Rattle.history_rules.specs.Legal.{IsLegalSoFar, state_of};
ghost use Rattle.history_rules.specs.State.{first_state};
ghost use Rattle.session_orders.specs.Walk.{HasCome};

use crate::bounds::ReactorKind;
use crate::own::sizes_fit;
use asio_types::{Event, NoMemory};
use history_book::Replay;
use session_script::Script;
use std::alloc::Global;

/// A replay that has come as far as these events.
pub(crate) fn replay_of<'a>(
    alloc: Global,
    script: &'a Script,
    told: bool,
    events: &[Event],
) -> Result<Replay<'a>, NoMemory>
    requires { IsLegalSoFar script.now told events.now }
    ensures script { IfOk result (λ replay. replay.script ≡ script.now) }
    ensures told { IfOk result (λ replay. replay.told ≡ told) }
    ensures state { IfOk result (λ replay. replay.state ≡ state_of script.now told events.now) }
{
    let mut replay = Replay::make(alloc, script, told)?;
    for event in events {
        let _ = replay.step(*event);
    }
    Ok(replay)
}

/// A replay of no event.
pub(crate) fn first_replay<'a>(
    alloc: Global,
    script: &'a Script,
    kind: ReactorKind,
) -> Result<Replay<'a>, NoMemory>
    ensures come { IfOk result (λ replay. HasCome script.now kind replay []) }
    ensures state { IfOk result (λ replay. replay.state ≡ first_state script.now kind.told) }
{
    sizes_fit(script);
    Replay::make(alloc, script, kind.told)
}

/// Where a walk through the histories stands: a legal beginning, the state that it leaves, and the
/// place behind it that is tried next.
#[derive(Drop)]
pub(crate) struct Walk<'a> {
    pub(crate) alloc: Global,
    pub(crate) script: &'a Script,
    pub(crate) kind: ReactorKind,
    pub(crate) replay: Replay<'a>,
    pub(crate) path: Vec<Event>,
    pub(crate) place: u64,
}

impl<'a> Walk<'a> {
    /// Before the first event.
    pub(crate) fn make(
        alloc: Global,
        script: &'a Script,
        kind: ReactorKind,
    ) -> Result<Walk<'a>, NoMemory>
        ensures come { IfOk result (λ walk. HasCome script.now kind walk.replay []) }
        ensures path { IfOk result (λ walk. walk.path.items ≡ []) }
        ensures place { IfOk result (λ walk. walk.place ≡ 0) }
        ensures script { IfOk result (λ walk. walk.script.now ≡ script.now) }
        ensures kind { IfOk result (λ walk. walk.kind ≡ kind) }
    {
        Ok(Walk {
            alloc,
            script,
            kind,
            replay: first_replay(alloc, script, kind)?,
            path: Vec::new(alloc),
            place: 0,
        })
    }
}
