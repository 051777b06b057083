ghost use Rattle.io_rules.specs.Alone.{AloneOnStrand};
ghost use Rattle.io_rules.specs.Example.{ExampleIsLegal};
ghost use Rattle.io_rules.specs.InOrder.{BeginInOrder};
ghost use Rattle.io_rules.specs.Once.{AllAreOver, BegunBeforeEnded, BegunOrDropped, CalledOnce, CompletedOnce, NumbersRise, OverOnce, ReadyBeforeBegun};
ghost use Rattle.io_rules.specs.Places.{MayInitiateOne, NumbersSuffice, PlacesAddUp};
ghost use Rattle.io_rules.specs.Stopped.{NothingBeginsStopped};

/// In each legal history an operation is initiated once, completes at most once, and its handler is
/// executed once behind that or destroyed once; in a whole history one of the two has come (Asio
/// reference, Requirements on asynchronous operations).
pub fn each_handler_is_called_once()
    ensures rising { NumbersRise }
    ensures called { CalledOnce }
    ensures completed { CompletedOnce }
    ensures ready { ReadyBeforeBegun }
    ensures begun { BegunBeforeEnded }
    ensures never_both { BegunOrDropped }
    ensures over { OverOnce }
    ensures all { AllAreOver }
{}

/// Handlers of one strand never execute at the same time (`strand`).
pub fn handlers_of_a_strand_are_alone()
    ensures { AloneOnStrand }
{}

/// Handlers of one strand begin in the order in which they became ready, with what its own handlers
/// dispatch to it put first (`strand`).
pub fn handlers_of_a_strand_begin_in_order()
    ensures { BeginInOrder }
{}

/// No handler begins between a stop and the next restart (`io_context::stop`).
pub fn nothing_begins_while_stopped()
    ensures { NothingBeginsStopped }
{}

/// Places add up to the limit of operations, numbers don't come to an end, and a handler that has
/// initiated nothing may initiate an operation.
pub fn a_handler_may_go_on()
    ensures places { PlacesAddUp }
    ensures numbers { NumbersSuffice }
    ensures going_on { MayInitiateOne }
{}

/// The rules let a server accept, read beside an idle timer, answer, dispatch and close, to the end of
/// its context.
pub fn a_server_is_legal()
    ensures { ExampleIsLegal }
{}
