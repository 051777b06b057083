ghost use Rattle.std.specs.Prelude.{◌++◌, OnOk};
ghost use Rattle.std.specs.Fmt.{decimal};
ghost use Rattle.asio_types.specs.Faults.{CountsFaults};
ghost use Rattle.asio_types.specs.Sink.{Extends};
ghost use Rattle.history_book.specs.Trace.{line_end};
ghost use Rattle.session_orders.specs.Listed.{events_in};
ghost use Rattle.order_report.specs.Report.{order_text, orders_text};

use asio_types::{Failed, Sink, write_all};
use history_book::{History, write_trace};
use itoa::Buffer;

/// Writes a line of words and a number behind them.
pub(crate) fn write_number<K: Sink>(out: &mut K, words: &[u8], number: u64) -> Result<(), Failed>
    ensures written { OnOk result
        (Extends (K.written out.old) (words.now ++ decimal number ++ line_end) (K.written out.new)) }
    ensures counts { CountsFaults result (K.faults out.old) (K.faults out.new) }
{
    write_all(out, words)?;
    write_all(out, Buffer::new().format(number).as_bytes())?;
    write_all(out, b"\n")
}

/// Writes a trace behind a line that parts it from what stands before it.
pub(crate) fn write_order<K: Sink>(out: &mut K, history: &History) -> Result<(), Failed>
    ensures written { OnOk result
        (Extends (K.written out.old) (order_text history.now.events) (K.written out.new)) }
    ensures counts { CountsFaults result (K.faults out.old) (K.faults out.new) }
{
    write_all(out, b"--\n")?;
    write_trace(history, out)
}

/// Writes the traces of these histories.
pub(crate) fn write_orders<K: Sink>(out: &mut K, histories: &[History]) -> Result<(), Failed>
    ensures written { OnOk result
        (Extends (K.written out.old) (orders_text (events_in histories.now)) (K.written out.new)) }
    ensures counts { CountsFaults result (K.faults out.old) (K.faults out.new) }
{
    for history in histories {
        write_order(out, history)?;
    }
    Ok(())
}
