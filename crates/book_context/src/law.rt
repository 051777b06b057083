ghost use Rattle.book_context.specs.Bound.{ExecutionsAreBounded, OpeningsAreBounded};
ghost use Rattle.book_context.specs.DropSteps.{DroppedAreLegal, DroppingBegins, DropsGoOn, InlineAreSpent, SpentArePassed, UnspentAreCalled};
ghost use Rattle.book_context.specs.Left.{SessionsAreBounded};
ghost use Rattle.book_context.specs.Next.{NothingLeftIsQuiet, OldestMayBegin, OldestMayBeTaken};
ghost use Rattle.book_context.specs.Parts.{CallsAreLegalInParts, HistoriesGoOn, StatesGoOn};
ghost use Rattle.book_context.specs.RoundSteps.{EndsAreRecorded, OutsideStopsAreRecorded, PollsAreRecorded, RestartsAreRecorded, StopsAreRecorded, WorkIsKnown};
ghost use Rattle.book_context.specs.Steps.{ExecutionsAreRecorded, OldestMayExecute, OpeningsAreRecorded, OpenRoundsAreKnown, UnspentKeepInline};
ghost use Rattle.book_context.specs.TurnSteps.{CompletionsAreRecorded, FaultsAreRecorded, LastIsRecorded, TakesAreRecorded, TicksAreRecorded};
ghost use Rattle.book_context.specs.Turns.{OthersKeepOrder, TakingKeepsOrder, TellingKeepsOrder};

/// What a session at rest that keeps both lists may do next: in an open round begin the oldest
/// ready operation, and take the oldest request where the reactor may turn. Where both lists are
/// empty all is quiet.
pub fn sessions_at_rest_go_on()
    ensures begins { OldestMayBegin }
    ensures takes { OldestMayBeTaken }
    ensures quiet { NothingLeftIsQuiet }
{}

/// What a turn of the reactor leaves of the lists: a take leaves the other requests, a completion
/// puts its operation behind the others that are ready, and whatever changes neither an act nor
/// what was taken leaves both lists as they are.
pub fn turns_keep_order()
    ensures takes { TakingKeepsOrder }
    ensures completions { TellingKeepsOrder }
    ensures others { OthersKeepOrder }
{}

/// The events of one whole execution are no more than two and four for each act of the script, and
/// so are those of the calls of `open`: room for them can be made before.
pub fn executions_are_bounded()
    ensures executions { ExecutionsAreBounded }
    ensures openings { OpeningsAreBounded }
{}

/// What is legal as a whole is legal in parts, one after the other; and a legal history goes on by
/// what is legal in its state, from which its state goes on too.
pub fn histories_go_on()
    ensures parts { CallsAreLegalInParts }
    ensures histories { HistoriesGoOn }
    ensures states { StatesGoOn }
{}

/// A session has no more events than its script has room for: seven for each act, one for each time
/// of its world, three for each round, and three more.
pub fn sessions_are_bounded()
    ensures { SessionsAreBounded }
{}

/// After the calls of `open` what is recorded is a legal history so far. A round is open where the
/// recording says so, and with a handler that wasn't spent none that executes inside its execution
/// was.
pub fn openings_are_recorded()
    ensures openings { OpeningsAreRecorded }
    ensures rounds { OpenRoundsAreKnown }
    ensures inline { UnspentKeepInline }
{}

/// In an open round of a context that isn't stopped the oldest ready operation may execute, and
/// there is room for all that it may call. When it has, what is recorded is a legal history so far,
/// and the handlers of what began are spent.
pub fn executions_are_recorded()
    ensures next { OldestMayExecute }
    ensures executions { ExecutionsAreRecorded }
{}

/// Each step of the reactor that the recording allows is legal, and is recorded: a take of the
/// oldest request, a completion of what may be told, a tick and the last time point where nothing
/// is left but to wait, and a failure.
pub fn turns_are_recorded()
    ensures takes { TakesAreRecorded }
    ensures completions { CompletionsAreRecorded }
    ensures ticks { TicksAreRecorded }
    ensures last { LastIsRecorded }
    ensures faults { FaultsAreRecorded }
{}

/// The outstanding work is what the recording lists, what the reactor has to complete, and the
/// guards. A round closes where it is none, where the context was stopped, or where polling is
/// done; restarts and stops from outside are recorded too.
pub fn rounds_are_recorded()
    ensures work { WorkIsKnown }
    ensures ends { EndsAreRecorded }
    ensures stops { StopsAreRecorded }
    ensures polls { PollsAreRecorded }
    ensures restarts { RestartsAreRecorded }
    ensures outside { OutsideStopsAreRecorded }
{}

/// Once no round is left the unspent handlers are destroyed in rising number, which are those of
/// the operations that were called and not spent. After the last act the history is legal as a
/// whole.
pub fn drops_are_recorded()
    ensures unspent { UnspentAreCalled }
    ensures inline { InlineAreSpent }
    ensures begins { DroppingBegins }
    ensures drops { DropsGoOn }
    ensures passes { SpentArePassed }
    ensures ends { DroppedAreLegal }
{}
