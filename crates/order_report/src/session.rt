ghost use Rattle.std.specs.Prelude.{◌≡◌, ℕ, Err, OnOk, false, map, string_bytes};
ghost use Rattle.asio_types.specs.Faults.{CountsFaults};
ghost use Rattle.asio_types.specs.Sink.{Extends};
ghost use Rattle.session_orders.specs.Listed.{events_in};
ghost use Rattle.order_report.specs.Report.{IsReport, IsWithin, answer_text, bounds_of, count_text, listed_text, reactor_of, states_of, word_of};
ghost use Rattle.order_report.specs.Session.{CountsReads, CountsReport, CountsWrites, HasAnswered, HasFault, HasReported, HasWritten, LeavesOut, WasRefused};
ghost use Rattle.order_report.specs.declared.status.OrdersStatus.TheVariants as status;
ghost use Rattle.order_report.specs.declared.unreported.Unreported.TheVariants as unreported;

use crate::form::{Form, Task, form_of};
use crate::lines::{write_number, write_order, write_orders};
use crate::status::OrdersStatus;
use crate::unreported::Unreported;
use asio_types::{Failed, Sink, Source, write_all};
use history_book::History;
use order_questions::{Answer, Asked, Condition, ask, list_handlers};
use session_orders::{Bounds, MOST_BEGINNINGS, ReactorKind, count_orders, list_orders};
use session_script::{MOST_READ, Script, ScriptFault, read_script};
use std::alloc::Global;
use text_io::{Unfinished, read_text};

/// The reactor that is asked about.
fn reactor_of(told: bool) -> ReactorKind
    ensures { result ≡ reactor_of told }
{
    ReactorKind {
        told,
        failing: false,
    }
}

/// Bounds for so many histories.
fn bounds_of(told: bool, most: u64) -> Bounds
    ensures { result ≡ bounds_of told most }
{
    Bounds {
        reactor: reactor_of(told),
        histories: most as usize,
        beginnings: MOST_BEGINNINGS,
    }
}

/// How many states are looked at for a count.
fn states_of(most: u64) -> u32
    ensures { result ≡ states_of most }
{
    most.min(u32::MAX as u64) as u32
}

/// The words of a list's first line.
fn word_of(all: bool) -> &'static [u8]
    ensures { result.now ≡ word_of all }
{
    if all { b"orders " } else { b"not all, orders " }
}

/// Writes these histories, and whether they are all.
fn write_listed<K: Sink>(out: &mut K, histories: &[History], all: bool) -> Result<(), Failed>
    ensures written { OnOk result (Extends (K.written out.old)
        (listed_text (record { orders = events_in histories.now; all = all }))
        (K.written out.new)) }
    ensures counts { CountsFaults result (K.faults out.old) (K.faults out.new) }
{
    write_number(out, word_of(all), histories.len() as u64)?;
    write_orders(out, histories)
}

/// Writes how many histories were counted, and these.
fn write_counted<K: Sink>(
    out: &mut K,
    counted: Option<u64>,
    states: u32,
    shown: &[History],
) -> Result<(), Failed>
    ensures written { OnOk result (Extends (K.written out.old)
        (count_text counted states (events_in shown.now)) (K.written out.new)) }
    ensures counts { CountsFaults result (K.faults out.old) (K.faults out.new) }
{
    let Some(number) = counted else {
        return write_number(out, b"not counted, states ", states as u64);
    };
    write_number(out, b"orders ", number)?;
    write_orders(out, shown)
}

/// Writes what a condition was answered.
fn write_answer<K: Sink>(out: &mut K, asked: &Asked) -> Result<(), Failed>
    requires { IsWithin asked.now.orders asked.now.answer }
    ensures written { OnOk result
        (Extends (K.written out.old) (answer_text asked.now.orders asked.now.answer)
        (K.written out.new)) }
    ensures counts { CountsFaults result (K.faults out.old) (K.faults out.new) }
{
    let histories = asked.orders.histories();
    match asked.answer {
        Answer::Yes { at } => {
            write_all(out, b"yes\n")?;
            write_order(out, &histories[at])
        }
        Answer::Never => write_number(out, b"never, orders ", histories.len() as u64),
        Answer::Undecided => write_number(out, b"not decided, orders ", histories.len() as u64),
    }
}

/// How many histories a script has, and the first that is found.
fn report_count<K: Sink>(
    alloc: Global,
    script: &Script,
    told: bool,
    most: u64,
    out: &mut K,
) -> Result<(), Unreported>
    ensures written { OnOk result
        (HasWritten (IsReport script.now told most Task.Count) (K.written out.old) (K.written out.new)) }
    ensures quiet { result ≡ Err unreported.NoMemory → out.new ≡ out.old }
    ensures counts { CountsReport result (K.faults out.old) (K.faults out.new) }
{
    let states = states_of(most);
    let counted = count_orders(alloc, script, reactor_of(told), states)?;
    let shown = list_orders(alloc, script, bounds_of(told, 1))?;
    write_counted(out, counted, states, shown.histories())?;
    Ok(())
}

/// The histories of a script.
fn report_list<K: Sink>(
    alloc: Global,
    script: &Script,
    told: bool,
    most: u64,
    out: &mut K,
) -> Result<(), Unreported>
    ensures written { OnOk result
        (HasWritten (IsReport script.now told most Task.List) (K.written out.old) (K.written out.new)) }
    ensures quiet { result ≡ Err unreported.NoMemory → out.new ≡ out.old }
    ensures counts { CountsReport result (K.faults out.old) (K.faults out.new) }
{
    let orders = list_orders(alloc, script, bounds_of(told, most))?;
    write_listed(out, orders.histories(), orders.are_all())?;
    Ok(())
}

/// The begins, ends and drops of the histories of a script.
fn report_handlers<K: Sink>(
    alloc: Global,
    script: &Script,
    told: bool,
    most: u64,
    out: &mut K,
) -> Result<(), Unreported>
    ensures written { OnOk result (HasWritten (IsReport script.now told most Task.Handlers)
        (K.written out.old) (K.written out.new)) }
    ensures quiet { result ≡ Err unreported.NoMemory → out.new ≡ out.old }
    ensures counts { CountsReport result (K.faults out.old) (K.faults out.new) }
{
    let found = list_handlers(alloc, script, bounds_of(told, most))?;
    write_listed(out, found.lists.as_slice(), found.all)?;
    Ok(())
}

/// Whether a history of the script meets a condition.
fn report_answer<K: Sink>(
    alloc: Global,
    script: &Script,
    told: bool,
    most: u64,
    condition: Condition,
    out: &mut K,
) -> Result<(), Unreported>
    ensures written { OnOk result (HasWritten (IsReport script.now told most (Task.Can condition))
        (K.written out.old) (K.written out.new)) }
    ensures quiet { result ≡ Err unreported.NoMemory → out.new ≡ out.old }
    ensures counts { CountsReport result (K.faults out.old) (K.faults out.new) }
{
    let asked = ask(alloc, script, bounds_of(told, most), condition)?;
    write_answer(out, &asked)?;
    Ok(())
}

/// What is asked of a script.
fn report<K: Sink>(
    alloc: Global,
    form: Form,
    script: &Script,
    out: &mut K,
) -> Result<(), Unreported>
    ensures written { OnOk result (HasWritten (IsReport script.now form.told form.most form.task)
        (K.written out.old) (K.written out.new)) }
    ensures quiet { result ≡ Err unreported.NoMemory → out.new ≡ out.old }
    ensures counts { CountsReport result (K.faults out.old) (K.faults out.new) }
{
    match form.task {
        Task::Count => report_count(alloc, script, form.told, form.most, out),
        Task::List => report_list(alloc, script, form.told, form.most, out),
        Task::Handlers => report_handlers(alloc, script, form.told, form.most, out),
        Task::Can(condition) => {
            report_answer(alloc, script, form.told, form.most, condition, out)
        }
    }
}

/// Answers what is asked of an input.
fn answer<K: Sink>(alloc: Global, form: Form, input: &[u8], out: &mut K) -> OrdersStatus
    ensures right { result ≡ status.Done →
        HasAnswered form input.now (K.written out.old) (K.written out.new) }
    ensures refused { result ≡ status.Refused → HasFault input.now }
    ensures quiet { LeavesOut result → out.new ≡ out.old }
    ensures used { result ≡ status.Usage → ⊥ }
    ensures reads { (faults : ℕ) → CountsReads result faults faults }
    ensures writes { CountsWrites result (K.faults out.old) (K.faults out.new) }
{
    let script = match read_script(alloc, input) {
        Ok(script) => script,
        Err(ScriptFault::Refused(_)) => return OrdersStatus::Refused,
        Err(ScriptFault::NoMemory) => return OrdersStatus::NoMemory,
    };
    match report(alloc, form, &script, out) {
        Ok(()) => OrdersStatus::Done,
        Err(Unreported::Failed) => OrdersStatus::WriteFault,
        Err(Unreported::NoMemory) => OrdersStatus::NoMemory,
    }
}

/// The session without its note.
fn end<S: Source, K: Sink>(
    alloc: Global,
    words: &[String],
    source: &mut S,
    out: &mut K,
) -> OrdersStatus
    ensures right { result ≡ status.Done → HasReported (map string_bytes words.now)
        (S.left source.old) (S.left source.new) (K.written out.old) (K.written out.new) }
    ensures refused { result ≡ status.Refused → WasRefused (S.left source.old) (S.left source.new) }
    ensures quiet { LeavesOut result → out.new ≡ out.old }
    ensures unread { result ≡ status.Usage → source.new ≡ source.old }
    ensures reads { CountsReads result (S.faults source.old) (S.faults source.new) }
    ensures writes { CountsWrites result (K.faults out.old) (K.faults out.new) }
{
    let form = match form_of(alloc, words) {
        Ok(Some(form)) => form,
        Ok(None) => return OrdersStatus::Usage,
        Err(_) => return OrdersStatus::NoMemory,
    };
    let input = match read_text(alloc, source, MOST_READ) {
        Ok(input) => input,
        Err(Unfinished::Failed) => return OrdersStatus::ReadFault,
        Err(Unfinished::NoMemory) => return OrdersStatus::NoMemory,
    };
    answer(alloc, form, input.as_slice(), out)
}

/// Reads a script from the source, and writes to out which orders it may have: those of its legal
/// whole histories where the reactor doesn't fail. The words are those behind the program's name:
///
/// - none, for how many there are, which is counted by states, and the first that is found;
/// - `--list`, for each of them;
/// - `--handlers`, for the begins, ends and drops of each, and none of these lists twice;
/// - `--can CONDITION`, for whether one meets it.
///
/// `--most N` before these says how many histories are looked at, or states where they are counted:
/// 10,000 where it isn't said. `--net` before all says that the reactor doesn't tell its bytes. With
/// the status `Done` what was asked was written, and is right. With
/// the statuses 1, 2, 3 and 6 nothing was written. The notes get the status's note, and change no
/// status.
pub fn orders_session<S: Source, K: Sink, N: Sink>(
    alloc: Global,
    words: &[String],
    source: &mut S,
    out: &mut K,
    notes: &mut N,
) -> OrdersStatus
    ensures right { result ≡ status.Done → HasReported (map string_bytes words.now)
        (S.left source.old) (S.left source.new) (K.written out.old) (K.written out.new) }
    ensures refused { result ≡ status.Refused → WasRefused (S.left source.old) (S.left source.new) }
    ensures quiet { LeavesOut result → out.new ≡ out.old }
    ensures unread { result ≡ status.Usage → source.new ≡ source.old }
    ensures reads { CountsReads result (S.faults source.old) (S.faults source.new) }
    ensures writes { CountsWrites result (K.faults out.old) (K.faults out.new) }
{
    let status = end(alloc, words, source, out);
    let _ = write_all(notes, status.note());
    status
}
