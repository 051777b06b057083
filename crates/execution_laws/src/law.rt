ghost use Rattle.execution_laws.specs.Accounted.{CompletionsStayAccounted, ExecutionsStayAccounted, LastStaysAccounted, OpeningsAreAccounted, TakesStayAccounted, TicksStayAccounted};
ghost use Rattle.execution_laws.specs.Executed.{ExecutionsAreLegal};
ghost use Rattle.execution_laws.specs.Lanes.{ExecutionsLeaveLanesFree, FreeLanesMayStart, OpeningsLeaveLanesFree, RestartsFreeLanes, TurnsLeaveLanesFree};
ghost use Rattle.execution_laws.specs.Opened.{OpeningsAreLegal};
ghost use Rattle.execution_laws.specs.Order.{ExecutionsKeepOrder, OpeningsBeginOrder};
ghost use Rattle.execution_laws.specs.Ready.{OldestIsFirstOfLane, OldestIsFirstRequest};
ghost use Rattle.execution_laws.specs.Shown.{AnyMarkServes, CallsShowTheirEvents, ExecutionsShowMarks, MarksGoOn, OpeningsShowNoMarks};
ghost use Rattle.execution_laws.specs.Work.{WorkIsListed};

/// Where a ready handler may begin outside a call, the events of its whole execution are legal one
/// after another, with the executions inside it and whatever its branch calls. They end it, leave
/// each act that was called back and at rest, and change nothing else but what a stop does.
pub fn executions_are_legal()
    ensures { ExecutionsAreLegal }
{}

/// The events of the calls of `open` are legal from the first state on. They leave each act that
/// was called back and at rest, and change nothing else but what a stop does.
pub fn openings_are_legal()
    ensures { OpeningsAreLegal }
{}

/// Of the ready operations, listed oldest first, the oldest is the first of its lane; of the
/// requests that wait to be taken, listed so, the oldest is the first. So a context that takes the
/// oldest keeps every order.
pub fn oldest_first_is_legal()
    ensures lanes { OldestIsFirstOfLane }
    ensures requests { OldestIsFirstRequest }
{}

/// A context that executes the oldest ready operation keeps its lists: the others stay in their
/// order, with the postings of the execution behind them in order of their calls, and so do the
/// requests. After the calls of `open` the lists are what these called.
pub fn executions_keep_order()
    ensures executions { ExecutionsKeepOrder }
    ensures openings { OpeningsBeginOrder }
{}

/// The outstanding work of a session at rest is as many as are ready, as wait to be taken, as are
/// pending, and as guards are held.
pub fn work_is_listed()
    ensures { WorkIsListed }
{}

/// As many operations are pending as the reactor has to complete: after the calls of `open`, and
/// after an execution, a take, a completion, a tick and the last time point, if it was so before.
pub fn sessions_stay_accounted()
    ensures executions { ExecutionsStayAccounted }
    ensures openings { OpeningsAreAccounted }
    ensures takes { TakesStayAccounted }
    ensures completions { CompletionsStayAccounted }
    ensures ticks { TicksStayAccounted }
    ensures last { LastStaysAccounted }
{}

/// While the context isn't stopped each lane may begin any number: after the calls of `open` and a
/// restart, and after an execution and the begin of a turn if it was so before. Then the lane of
/// each act may begin something.
pub fn lanes_are_free_unless_stopped()
    ensures openings { OpeningsLeaveLanesFree }
    ensures executions { ExecutionsLeaveLanesFree }
    ensures turns { TurnsLeaveLanesFree }
    ensures restarts { RestartsFreeLanes }
    ensures begins { FreeLanesMayStart }
{}

/// The events of calls are of calls, stops during them, and executions alone. Those of a whole
/// execution show the marks of its handlers, and those of the calls of `open` none. An execution of
/// handlers with these marks is one with any marks.
pub fn executions_show_marks()
    ensures calls { CallsShowTheirEvents }
    ensures any { AnyMarkServes }
    ensures executions { ExecutionsShowMarks }
    ensures openings { OpeningsShowNoMarks }
    ensures histories { MarksGoOn }
{}
