ghost use Rattle.proactor_core.specs.Untold.{LastTurnsDrain, StreamsGiveBelow, UntoldAnswers, UntoldBegins, UntoldEnds, UntoldPerforms, UntoldRests, UntoldSettles, UntoldTells, UntoldTicks, UntoldTurns, WorkIsUnderWay};

/// A history with untold bytes begins where a proactor does. A law: it runs nothing.
pub fn untold_begins()
    ensures { UntoldBegins }
{}

/// Where nothing is due to the proactor nothing is due to the history, and no stream has given
/// anything. A law: it runs nothing.
pub fn untold_rests()
    ensures { UntoldRests }
{}

/// Taking an act leaves the history beside the proactor. A law: it runs nothing.
pub fn untold_performs()
    ensures { UntoldPerforms }
{}

/// So does time that moves. A law: it runs nothing.
pub fn untold_ticks()
    ensures ticks { UntoldTicks }
    ensures ends { UntoldEnds }
{}

/// So does a turn in which waits complete and streams give what they may. A law: it runs nothing.
pub fn untold_settles()
    ensures { UntoldSettles }
{}

/// What a proactor's streams give is in the order that a history asks for. A law: it runs nothing.
pub fn streams_give_in_order()
    ensures { StreamsGiveBelow }
{}

/// So a whole turn of a proactor leaves the history beside it, and after the last time point no
/// operation is left in a queue. A law: it runs nothing.
pub fn untold_turns()
    ensures turns { UntoldTurns }
    ensures drains { LastTurnsDrain }
{}

/// What stays in their queues has something left to move. A law: it runs nothing.
pub(crate) fn work_is_under_way()
    ensures { WorkIsUnderWay }
{}

/// The next completion of the proactor may be told in the history. A law: it runs nothing.
pub fn untold_tells()
    ensures { UntoldTells }
{}

/// Both have as much to wait for, and until the same time. A law: it runs nothing.
pub fn untold_answers()
    ensures { UntoldAnswers }
{}
