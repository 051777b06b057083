use super::layout::PictureLayout;
use crate::detail::Detail;
use asio_types::{ActNo, Code, Event, NoMemory, OpNo};
use session_script::Script;

/// Draws the mark of an event that stands at one line.
pub(super) fn draw_marks(
    drawn: &mut Detail,
    layout: &PictureLayout,
    script: &Script,
    line: u32,
    event: Event,
) -> Result<(), NoMemory> {
    match event {
        Event::Call { act } => draw_call(drawn, layout, script, line, act),
        Event::Stop { act } => draw_stop(drawn, layout, script, line, act),
        Event::Take { act } => draw_take(drawn, layout, line, act),
        Event::Done { op, code, size } => draw_done(drawn, layout, line, op, code, size),
        Event::Tick { now } => draw_time(drawn, layout, line, now),
        Event::Last => draw_reactor(
            drawn,
            layout,
            line,
            "the last time point has passed",
            "last",
        ),
        Event::Fault => draw_reactor(drawn, layout, line, "the reactor fails", "fault"),
        Event::Ended => draw_round(drawn, layout, line, layout.closing_y(), "ended"),
        Event::Stopped => draw_round(drawn, layout, line, layout.closing_y(), "stopped"),
        Event::Polled => draw_round(drawn, layout, line, layout.closing_y(), "polled"),
        Event::Restart => draw_round(drawn, layout, line, layout.restart_y(), "restart"),
        _ => Ok(()),
    }
}

/// A call: a tick at the execution that makes it.
fn draw_call(
    drawn: &mut Detail,
    layout: &PictureLayout,
    script: &Script,
    line: u32,
    a: ActNo,
) -> Result<(), NoMemory> {
    drawn.fill(
        "<path class=\"call\" d=\"M@ @v10\"><title>act @ is called at line @</title></path>\n",
        &[
            layout.x(line),
            layout.call_y(script, a).saturating_sub(5),
            a as u64,
            line as u64,
        ],
    )
}

/// A stop: an eight-sided mark at the execution that makes it, or in the row of `open`.
fn draw_stop(
    drawn: &mut Detail,
    layout: &PictureLayout,
    script: &Script,
    line: u32,
    act: Option<ActNo>,
) -> Result<(), NoMemory> {
    let y = match act {
        Some(a) => layout.call_y(script, a),
        None => layout.middle(0),
    };
    drawn.fill(
        "<path class=\"stop\" d=\"M@ @h5l4 4v5l-4 4h-5l-4 -4v-5z\">",
        &[layout.x(line).saturating_sub(2), y.saturating_sub(6)],
    )?;
    drawn.fill(
        "<title>the context is stopped at line @</title></path>\n",
        &[line as u64],
    )
}

/// A request that is taken: a triangle that points down.
fn draw_take(
    drawn: &mut Detail,
    layout: &PictureLayout,
    line: u32,
    a: ActNo,
) -> Result<(), NoMemory> {
    let y = layout.middle(layout.reactor_row());
    drawn.fill(
        "<path class=\"take\" d=\"M@ @h8l-4 7z\"><title>request @ is taken at line @</title></path>\n",
        &[
            layout.x(line).saturating_sub(4),
            y.saturating_sub(4),
            a as u64,
            line as u64,
        ],
    )
}

/// A completion: a circle, a cross where it was cancelled, a square where it failed otherwise.
fn draw_done(
    drawn: &mut Detail,
    layout: &PictureLayout,
    line: u32,
    o: OpNo,
    code: Code,
    size: u32,
) -> Result<(), NoMemory> {
    let x = layout.x(line);
    let y = layout.middle(layout.reactor_row());
    match code {
        Code::Ok => drawn.fill("<circle class=\"done\" cx=\"@\" cy=\"@\" r=\"4\">", &[x, y])?,
        Code::Aborted => drawn.fill(
            "<path class=\"cancelled\" d=\"M@ @l8 8m0 -8l-8 8\">",
            &[x.saturating_sub(4), y.saturating_sub(4)],
        )?,
        _ => drawn.fill(
            "<path class=\"failed\" d=\"M@ @h8v8h-8z\">",
            &[x.saturating_sub(4), y.saturating_sub(4)],
        )?,
    }
    drawn.field("<title>operation ", o as u64)?;
    drawn.words(" completes with ")?;
    drawn.outcome(code, size)?;
    drawn.field(" at line ", line as u64)?;
    drawn.words(match code {
        Code::Ok => "</title></circle>\n",
        _ => "</title></path>\n",
    })
}

/// Time moves: a line across the reactor's row, with the time.
fn draw_time(
    drawn: &mut Detail,
    layout: &PictureLayout,
    line: u32,
    now: u64,
) -> Result<(), NoMemory> {
    let x = layout.x(line);
    let y = layout.y(layout.reactor_row());
    drawn.fill(
        "<g><title>time moves to @ at line @</title><path class=\"tick\" d=\"M@ @V@\"/>",
        &[now, line as u64, x, y, layout.floor()],
    )?;
    if layout.step() >= 5 {
        drawn.fill(
            "<text class=\"time\" x=\"@\" y=\"@\">@</text>",
            &[x.saturating_add(2), layout.floor().saturating_sub(2), now],
        )?;
    }
    drawn.words("</g>\n")
}

/// Something else that the reactor does: a double line across its row, with a word.
fn draw_reactor(
    drawn: &mut Detail,
    layout: &PictureLayout,
    line: u32,
    says: &str,
    word: &str,
) -> Result<(), NoMemory> {
    let x = layout.x(line);
    let y = layout.y(layout.reactor_row());
    drawn.words("<g><title>")?;
    drawn.words(says)?;
    drawn.fill(
        " at line @</title><path class=\"tick\" d=\"M@ @V@m3 0V@\"/>",
        &[line as u64, x, y, layout.floor(), y],
    )?;
    drawn.fill(
        "<text class=\"time\" x=\"@\" y=\"@\">",
        &[x.saturating_add(5), layout.floor().saturating_sub(2)],
    )?;
    drawn.words(word)?;
    drawn.words("</text></g>\n")
}

/// A round closes, or the context is restarted: a line across all rows, with a word in that of
/// `open`.
fn draw_round(
    drawn: &mut Detail,
    layout: &PictureLayout,
    line: u32,
    word_y: u64,
    word: &str,
) -> Result<(), NoMemory> {
    let x = layout.x(line);
    drawn.words("<g><title>")?;
    drawn.words(word)?;
    drawn.fill(
        " at line @</title><path class=\"round\" d=\"M@ @V@\"/><text class=\"time\" x=\"@\" y=\"@\">",
        &[
            line as u64,
            x,
            layout.y(0),
            layout.floor(),
            x.saturating_add(3),
            word_y,
        ],
    )?;
    drawn.words(word)?;
    drawn.words("</text></g>\n")
}
