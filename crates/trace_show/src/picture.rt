ghost use Rattle.std.specs.Prelude.{◌≡◌, ◌<◌, ◌^◌, Err, IfOk, length};
ghost use Rattle.text_io.specs.Counts.{CountsFailures};
ghost use Rattle.trace_check.specs.Verdict.{IsVerdict};

mod bars;
mod frame;
mod layout;
mod marks;

use crate::detail::Detail;
use crate::progress::show_drawn;
use asio_types::{Event, NoMemory, Sink, write_all};
use bars::draw_bar;
use frame::{draw_end, draw_frame};
use layout::PictureLayout;
use marks::draw_marks;
use session_script::Script;
use std::alloc::Global;
use text_io::Unfinished;
use trace_check::{Verdict, check};

/// So many bytes are put together before they are written.
const MOST_KEPT: usize = 32_768;

/// So many bytes are taken for them: what one event adds is less than the rest.
const ROOM: usize = 49_152;

/// Writes what was drawn.
fn flush<K: Sink>(out: &mut K, drawn: &mut Detail) -> Result<(), Unfinished>
    ensures { CountsFailures result (K.faults out.old) (K.faults out.new) }
{
    let Ok(()) = write_all(out, drawn.as_bytes()) else {
        return Err(Unfinished::Failed);
    };
    drawn.clear();
    Ok(())
}

/// What of an event is drawn: executions come first, so that all marks lie over them.
#[derive(Clone, Copy, PartialEq, Eq)]
enum Layer {
    Bars,
    Marks,
}

fn draw(
    drawn: &mut Detail,
    layer: Layer,
    layout: &PictureLayout,
    script: &Script,
    line: u32,
    event: Event,
) -> Result<(), NoMemory> {
    match layer {
        Layer::Bars => draw_bar(drawn, layout, script, event),
        Layer::Marks => draw_marks(drawn, layout, script, line, event),
    }
}

/// How much of the picture is drawn with so many lines of a layer.
fn percent_drawn(layer: Layer, line: u32, lines: u32) -> u32 {
    let half = (line.min(lines) as u64).saturating_mul(50) / (lines.max(1) as u64);
    let before = match layer {
        Layer::Bars => 0,
        Layer::Marks => 50,
    };
    (half.min(50) as u32).saturating_add(before)
}

/// Draws one layer of all events.
fn draw_layer<K: Sink, N: Sink>(
    out: &mut K,
    notes: &mut N,
    shows: bool,
    drawn: &mut Detail,
    layer: Layer,
    layout: &PictureLayout,
    script: &Script,
    events: &[Event],
) -> Result<(), Unfinished>
    ensures { CountsFailures result (K.faults out.old) (K.faults out.new) }
{
    let mut line = 0u32;
    for event in events {
        line = line.saturating_add(1);
        let Ok(()) = draw(drawn, layer, layout, script, line, *event) else {
            return Err(Unfinished::NoMemory);
        };
        if drawn.as_bytes().len() >= MOST_KEPT {
            show_drawn(notes, shows, percent_drawn(layer, line, layout.lines()));
            flush(out, drawn)?;
        }
    }
    Ok(())
}

/// The events that are legal so far by a verdict.
fn legal_events(verdict: Verdict, events: &[Event]) -> &[Event] {
    match verdict {
        Verdict::Illegal(number) => events
            .get(..(number as usize).saturating_sub(1))
            .unwrap_or(events),
        _ => events,
    }
}

/// Writes the whole picture.
fn draw_all<K: Sink, N: Sink>(
    alloc: Global,
    script: &Script,
    verdict: Verdict,
    events: &[Event],
    out: &mut K,
    notes: &mut N,
    shows: bool,
) -> Result<(), Unfinished>
    ensures { CountsFailures result (K.faults out.old) (K.faults out.new) }
{
    let Ok(layout) = PictureLayout::make(alloc, script, events) else {
        return Err(Unfinished::NoMemory);
    };
    let Ok(mut drawn) = Detail::with_room(alloc, ROOM) else {
        return Err(Unfinished::NoMemory);
    };
    let Ok(()) = draw_frame(&mut drawn, &layout, script, verdict) else {
        return Err(Unfinished::NoMemory);
    };
    draw_layer(
        out,
        notes,
        shows,
        &mut drawn,
        Layer::Bars,
        &layout,
        script,
        events,
    )?;
    draw_layer(
        out,
        notes,
        shows,
        &mut drawn,
        Layer::Marks,
        &layout,
        script,
        events,
    )?;
    let Ok(()) = draw_end(&mut drawn, &layout, verdict) else {
        return Err(Unfinished::NoMemory);
    };
    flush(out, &mut drawn)
}

/// Writes a picture of the events of a script as far as they are legal, as an SVG that stands
/// alone. Takes memory in proportion to the acts before it writes; where memory runs out later, a
/// first part was written.
pub(crate) fn write_picture<K: Sink, N: Sink>(
    alloc: Global,
    script: &Script,
    tells: bool,
    events: &[Event],
    out: &mut K,
    notes: &mut N,
    shows: bool,
) -> Result<Verdict, Unfinished>
    requires { length events.now < 2 ^ 32 }
    ensures verdict { IfOk result (IsVerdict script.now tells events.now) }
    ensures counts { CountsFailures result (K.faults out.old) (K.faults out.new) }
{
    let Ok(verdict) = check(alloc, script, tells, events) else {
        return Err(Unfinished::NoMemory);
    };
    draw_all(
        alloc,
        script,
        verdict,
        legal_events(verdict, events),
        out,
        notes,
        shows,
    )?;
    Ok(verdict)
}
