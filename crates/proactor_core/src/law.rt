ghost use Rattle.std.specs.Prelude.{List, ℕ};
ghost use Rattle.history_rules.specs.State.{ReactorHalf};
ghost use Rattle.session_script.specs.Script.{ScriptModel};
ghost use Rattle.proactor_core.specs.Following.{FollowsHistories};
ghost use Rattle.proactor_core.specs.Room.{HasRoomLeft, CallsKeepRoom};
ghost use Rattle.proactor_core.specs.Streams.{StreamView};
ghost use Rattle.proactor_core.specs.Tables.{TableState};
ghost use Rattle.proactor_core.specs.Works.{StreamCallsFollow};

/// What the calls of the tables do is what the definitions of a history say of the reactor's half,
/// whatever its streams are. A law: it runs nothing.
pub(crate) fn tables_follow_histories()
    ensures { (script : ScriptModel) (s : TableState) (half : ReactorHalf) →
        FollowsHistories script s half }
{}

/// Where the tables have room for all acts that are still to come, each call of them leaves the
/// room that later ones need. A law: it runs nothing.
pub(crate) fn tables_keep_room()
    ensures { (script : ScriptModel) (streams : ℕ) (s : TableState) → HasRoomLeft script streams s →
        CallsKeepRoom script streams s }
{}

/// What the calls of the streams that accept, cancel and close do is what the definitions of a
/// history say of the reactor's half. A law: it runs nothing.
pub(crate) fn stream_calls_follow_histories()
    ensures { (s : TableState) (streams : List StreamView) (half : ReactorHalf) →
        StreamCallsFollow s streams half }
{}
