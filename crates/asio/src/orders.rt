use asio_command::RunScript;
use asio_types::{NoMemory, Sink, SureSink, SureSource, write_all};
use command_words::CommandStatus;
use order_report::{OrdersStatus, orders_session};
use std::alloc::Global;
use text_io::Unfinished;

/// More bytes than any note has.
const NOTE_ROOM: u32 = 256;

/// What is said of words that are no question.
const NO_QUESTION: &str = "error: these words are no question\n\n\
    Usage: asio orders <FILE> [--net] [--most <N>] [--list | --handlers | --can <CONDITION>]\n\n\
    For more information, try '--help'.\n";

/// The status of the program for that of a session of questions.
fn status_of(status: OrdersStatus) -> CommandStatus {
    match status {
        OrdersStatus::Done => CommandStatus::Done,
        OrdersStatus::Usage => CommandStatus::Usage,
        OrdersStatus::Refused => CommandStatus::Refused,
        OrdersStatus::ReadFault => CommandStatus::ReadFault,
        OrdersStatus::WriteFault => CommandStatus::WriteFault,
        OrdersStatus::NoMemory => CommandStatus::NoMemory,
    }
}

/// Asks the library which orders a script may have; its notes name another program.
fn ask<K: Sink>(
    alloc: Global,
    script: &RunScript,
    words: &[String],
    out: &mut K,
) -> Result<OrdersStatus, NoMemory> {
    let mut source = SureSource::make(alloc, script.text.as_slice())?;
    let mut note = SureSink::make(alloc, NOTE_ROOM)?;
    Ok(orders_session(alloc, words, &mut source, out, &mut note))
}

/// Says which orders a script may have.
pub(crate) fn say_orders<K: Sink, N: Sink>(
    alloc: Global,
    script: &RunScript,
    words: &[String],
    out: &mut K,
    notes: &mut N,
) -> Result<CommandStatus, Unfinished> {
    match ask(alloc, script, words, out) {
        Ok(status) => {
            if status == OrdersStatus::Usage {
                let _ = write_all(notes, NO_QUESTION.as_bytes());
            }
            Ok(status_of(status))
        }
        Err(NoMemory) => Err(Unfinished::NoMemory),
    }
}
