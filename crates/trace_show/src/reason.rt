ghost use Rattle.std.specs.Prelude.{◌≡◌};

/// The conditions that a legal event meets. An event may happen where all conditions of its kind
/// hold of the state that the events before it left; docs/LEGALITY.md has them by name.
#[derive(Clone, Copy)]
pub enum Reason {
    /// A body makes this call next.
    MayCall,
    /// The call has done all that it does.
    MayReturn,
    /// The act is a stop whose call was made and hasn't stopped the context.
    MayStop,
    /// Workers may call the context.
    RoundIsOpen,
    /// A dispatch begins inside its call, with `ok 0`.
    MayBeginInside,
    /// The handler is ready with this code and size.
    IsReady,
    /// Nothing of its lane runs.
    LaneIsFree,
    /// No ready handler of its lane goes before it.
    IsFirstOfLane,
    /// The lane may still begin something.
    MayStart,
    /// All calls of the branch are back.
    MayEnd,
    /// The reactor hasn't failed.
    IsWorking,
    /// Nothing is due.
    NothingIsDue,
    /// After the last time point no operation of a stream is left.
    IsDrained,
    /// The act is a request that wasn't taken.
    IsUntaken,
    /// No other request was back before this one was called.
    IsFirstRequest,
    /// The operation completes now, with this code and size.
    MayTell,
    /// A turn of the reactor goes on.
    IsInTurn,
    /// The round is one of `run`.
    IsRunning,
    /// No handler is ready or runs, and no request waits.
    AllQuiet,
    /// Each call that was made is back.
    NoCallIsOpen,
    /// Something is pending.
    HasPending,
    /// Time moves to the next time point.
    IsNextTime,
    /// The reactor fails before all else, or where its turn wasn't told in part.
    MayBreakOff,
    /// The context isn't stopped.
    IsGoing,
    /// Nothing is outstanding.
    HasNoWork,
    /// The context is stopped.
    IsStopped,
    /// No handler runs.
    NothingRuns,
    /// The round is one of `poll`.
    IsPolling,
    /// Something is outstanding.
    HasWork,
    /// All calls of `open` are back, and not all rounds are closed.
    HasRoundLeft,
    /// The round has a restart.
    HasRestart,
    /// The restart of this round hasn't come.
    IsRestartedOnce,
    /// All rounds are closed, or the reactor failed and nothing runs.
    IsOver,
    /// It is the least operation whose handler wasn't spent.
    IsNextDropped,
}

impl Reason {
    ghost use Rattle.trace_show.specs.RuleLine.{rule_words};

    /// The condition's name, with the heading of docs/LEGALITY.md under which it stands before it,
    /// and what it wants behind it.
    pub fn words(self) -> &'static [u8]
        ensures { result.now ≡ rule_words self }
    {
        match self {
            Reason::MayCall => b"Calls, MayCall: a body makes this call next",
            Reason::MayReturn => b"Calls, MayReturn: the call has done all that it does",
            Reason::MayStop => {
                b"Calls, MayStop: the act is a stop whose call is open and hasn't stopped the context"
            }
            Reason::RoundIsOpen => b"Rounds, RoundIsOpen: a round is open",
            Reason::MayBeginInside => {
                b"Executions, MayBeginInside: a dispatch begins inside its call, with ok 0"
            }
            Reason::IsReady => b"Executions, IsReady: the handler is ready with this code and size",
            Reason::LaneIsFree => b"Executions, LaneIsFree: nothing of its lane runs",
            Reason::IsFirstOfLane => {
                b"Order, IsFirstOfLane: no ready handler of its lane goes before it"
            }
            Reason::MayStart => b"Stopping, MayStart: its lane may still begin something",
            Reason::MayEnd => b"Executions, MayEnd: all calls of the branch are back",
            Reason::IsWorking => b"Time, IsWorking: the reactor hasn't failed",
            Reason::NothingIsDue => b"Requests, NothingIsDue: nothing is due",
            Reason::IsDrained => {
                b"Untold bytes, IsDrained: after `last` no operation of a stream is left"
            }
            Reason::IsUntaken => b"Requests, IsUntaken: the act is a request that wasn't taken",
            Reason::IsFirstRequest => b"Order, IsFirstRequest: no request goes before it",
            Reason::MayTell => {
                b"What completes, MayTell: the operation completes next, with this code and size"
            }
            Reason::IsInTurn => b"What completes, IsInTurn: a turn of the reactor goes on",
            Reason::IsRunning => b"Time, IsRunning: the round is one of `run`",
            Reason::AllQuiet => {
                b"Time, AllQuiet: no handler is ready or runs, and no request waits"
            }
            Reason::NoCallIsOpen => b"Time, NoCallIsOpen: no call is open",
            Reason::HasPending => b"Time, HasPending: something is pending",
            Reason::IsNextTime => b"Time, IsNextTime: time moves to the next time point",
            Reason::MayBreakOff => {
                b"Time, MayBreakOff: the turn that fails hasn't told anything or has told all"
            }
            Reason::IsGoing => b"Rounds, IsGoing: the context isn't stopped",
            Reason::HasNoWork => b"Rounds, HasNoWork: nothing is outstanding",
            Reason::IsStopped => b"Rounds, IsStopped: the context is stopped",
            Reason::NothingRuns => b"Rounds, NothingRuns: no handler runs",
            Reason::IsPolling => b"Rounds, IsPolling: the round is one of `poll`",
            Reason::HasWork => b"Rounds, HasWork: something is outstanding",
            Reason::HasRoundLeft => {
                b"Rounds, HasRoundLeft: the calls of `open` are back, and not all rounds are closed"
            }
            Reason::HasRestart => b"Rounds, HasRestart: the round has a `restart`",
            Reason::IsRestartedOnce => {
                b"Rounds, IsRestartedOnce: the `restart` of the round hasn't come"
            }
            Reason::IsOver => {
                b"Rounds, IsOver: all rounds are closed, or the reactor failed and nothing runs"
            }
            Reason::IsNextDropped => {
                b"Rounds, IsNextDropped: it is the least operation whose handler is left"
            }
        }
    }
}
