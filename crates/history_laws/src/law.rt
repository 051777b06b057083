ghost use Rattle.history_laws.specs.AfterCompletion.{HandlersFollowCompletion};
ghost use Rattle.history_laws.specs.AfterStop.{StopsAreHeeded};
ghost use Rattle.history_laws.specs.Alone.{StrandsRunOneAtATime};
ghost use Rattle.history_laws.specs.Cancelled.{CancellationIsHeeded};
ghost use Rattle.history_laws.specs.InOrder.{PostingsKeepTheirOrder};
ghost use Rattle.history_laws.specs.Length.{HistoriesAreShort};
ghost use Rattle.history_laws.specs.Once.{HandlersRunOnce};
ghost use Rattle.history_laws.specs.Overlap.{StrandsMayOverlap};
ghost use Rattle.history_laws.specs.Promise.{HoldsOfLegalHistories, HoldsOfToldHistories, LegalHistoriesKeepPromise};
ghost use Rattle.history_laws.specs.Rounds.{RoundsCloseOnce};
ghost use Rattle.history_laws.specs.Sent.{WritesAreSentInOrder};
ghost use Rattle.history_laws.specs.Streams.{StreamsKeepTheirBytes};
ghost use Rattle.history_laws.specs.Timers.{TimersKeepTime};

/// The handler of each operation that was called runs once, or is destroyed once without a call,
/// and never both (Overview, "Asynchronous Operations"; `io_context::~io_context`).
pub fn handlers_run_once()
    ensures { HoldsOfLegalHistories HandlersRunOnce }
{}

/// The handler of an asynchronous operation begins behind its completion, with the code and size
/// that this gave, and that of a posting behind its call (Overview, "The Proactor Design Pattern").
pub fn handlers_follow_completion()
    ensures { HoldsOfLegalHistories HandlersFollowCompletion }
{}

/// While a handler runs no other of its strand begins, save inside a call that one of them makes
/// (Overview, "Strands: Use Threads Without Explicit Locking").
pub fn strands_run_one_at_a_time()
    ensures { HoldsOfLegalHistories StrandsRunOneAtATime }
{}

/// Of two postings to one strand the one whose call was back before that of the other began begins
/// first (`io_context::strand`, "Order of handler invocation").
pub fn postings_keep_their_order()
    ensures { HoldsOfLegalHistories PostingsKeepTheirOrder }
{}

/// Once a stop is back each strand begins at most one handler, and the reactor one turn, until the
/// context is restarted; and no more rounds end than there are (`io_context::stop`, `::restart`).
pub fn stops_are_heeded()
    ensures { HoldsOfLegalHistories StopsAreHeeded }
{}

/// Unless the reactor fails each round closes, and none twice; behind the last only handlers that never
/// ran are destroyed (`io_context::run`, `::poll`, `::~io_context`).
pub fn rounds_close_once()
    ensures { HoldsOfLegalHistories RoundsCloseOnce }
{}

/// An operation completes as aborted only where something that may cancel it was taken behind it, and
/// one that is pending where an act is taken that reaches it begins as aborted, if at all
/// (`steady_timer::cancel`, `::cancel_one`, `::expires_after`; `cancellation_signal::emit`; `close`).
pub fn cancellation_is_heeded()
    ensures { HoldsOfLegalHistories CancellationIsHeeded }
{}

/// A wait doesn't complete without an error before its expiry; time rises, and moves only where every
/// call is back and every handler that is ready has run (`steady_timer::async_wait`).
pub fn timers_keep_time()
    ensures { HoldsOfLegalHistories TimersKeepTime }
{}

/// The reads of a stream took, one behind the other, no more bytes than it was fed by then,
/// and its writes had room, where bytes are told (`async_read`, `async_write` and their kin).
pub fn streams_keep_their_bytes()
    ensures { HoldsOfToldHistories StreamsKeepTheirBytes }
{}

/// What the writes of a stream have moved, one behind the other, is a first part of what was sent on it,
/// where bytes are told (`async_write_some`, `async_write`).
pub fn writes_are_sent_in_order()
    ensures { HoldsOfToldHistories WritesAreSentInOrder }
{}

/// A history has at most seven events for each act and 1,154 more, stops from outside aside.
pub fn histories_are_short()
    ensures { HoldsOfLegalHistories HistoriesAreShort }
{}

/// Handlers of two strands may run at a time: of a script that posts to two strands, two histories in
/// which they do are legal, one in each order.
pub fn strands_may_overlap()
    ensures { StrandsMayOverlap }
{}

/// Each legal history of a script keeps all of this.
pub fn legal_histories_keep_promise()
    ensures { LegalHistoriesKeepPromise }
{}
