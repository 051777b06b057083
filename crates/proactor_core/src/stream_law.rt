ghost use Rattle.proactor_core.specs.StreamsFollowing.{StreamsFollow};

/// Serving all streams is what the definitions of a history say of the reactor's half, where bytes
/// are told. A law: it runs nothing.
pub(crate) fn serving_all_follows_histories()
    ensures { StreamsFollow }
{}
