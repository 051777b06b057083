use super::layout::{ActSpot, PictureLayout};
use crate::detail::{Detail, code_word};
use asio_types::{ActNo, Code, Event, NoMemory, OpNo};
use session_script::Script;

/// Draws an execution where it begins, and what becomes of a handler that never ran.
pub(super) fn draw_bar(
    drawn: &mut Detail,
    layout: &PictureLayout,
    script: &Script,
    event: Event,
) -> Result<(), NoMemory> {
    match event {
        Event::Begin { op, size, .. } => draw_execution(drawn, layout, op, size),
        Event::Dropped { op, .. } => draw_dropped(drawn, layout, op),
        Event::Call { act } => draw_join(drawn, layout, script, act),
        Event::Done { op, .. } => draw_completion(drawn, layout, op),
        _ => Ok(()),
    }
}

/// A bar from the line of `begin` to that of `end`. A handler with an error has a cut-off corner.
fn draw_execution(
    drawn: &mut Detail,
    layout: &PictureLayout,
    o: OpNo,
    size: u32,
) -> Result<(), NoMemory> {
    let spot = layout.spot(o);
    drawn.words("<g><title>")?;
    title(drawn, o, spot, size)?;
    drawn.words("</title>")?;
    draw_outline(drawn, layout, spot)?;
    draw_number(drawn, layout, o, spot)?;
    drawn.words("</g>\n")
}

/// How much of a corner is cut off.
fn cut_of(layout: &PictureLayout, spot: ActSpot) -> u64 {
    if spot.code == Code::Ok {
        0
    } else {
        8u64.min(layout.bar_height(spot))
    }
}

/// The outline of a bar.
fn draw_outline(drawn: &mut Detail, layout: &PictureLayout, spot: ActSpot) -> Result<(), NoMemory> {
    let left = layout.x(spot.begun);
    let top = layout.bar_top(spot);
    let cut = cut_of(layout, spot);
    drawn.words(if spot.code == Code::Ok {
        "<path class=\"bar"
    } else {
        "<path class=\"bar error"
    })?;
    drawn.fill(
        "\" d=\"M@ @H@V@H@V@Z\"/>",
        &[
            left.saturating_add(cut),
            top,
            right_of(layout, spot),
            top.saturating_add(layout.bar_height(spot)),
            left,
            top.saturating_add(cut),
        ],
    )
}

/// The number of an operation in its bar, where there is room for it.
fn draw_number(
    drawn: &mut Detail,
    layout: &PictureLayout,
    o: OpNo,
    spot: ActSpot,
) -> Result<(), NoMemory> {
    let left = layout.x(spot.begun);
    if right_of(layout, spot).saturating_sub(left) < 16 || layout.bar_height(spot) < 12 {
        return Ok(());
    }
    drawn.fill(
        "<text class=\"op\" x=\"@\" y=\"@\">@</text>",
        &[
            left.saturating_add(4)
                .saturating_add(cut_of(layout, spot) / 2),
            layout.bar_top(spot).saturating_add(11),
            o as u64,
        ],
    )
}

/// Where an execution ends, or where the lines end before it does.
fn right_of(layout: &PictureLayout, spot: ActSpot) -> u64 {
    if spot.ended > 0 {
        layout.x(spot.ended)
    } else {
        layout.x(layout.lines()).saturating_add(layout.step())
    }
}

fn title(drawn: &mut Detail, o: OpNo, spot: ActSpot, size: u32) -> Result<(), NoMemory> {
    drawn.field("operation ", o as u64)?;
    drawn.words(" with ")?;
    drawn.outcome(spot.code, size)?;
    drawn.field(": begins at line ", spot.begun as u64)?;
    if spot.ended > 0 {
        drawn.field(", ends at line ", spot.ended as u64)
    } else {
        drawn.words(", doesn't end")
    }
}

/// A crossed box.
fn draw_dropped(drawn: &mut Detail, layout: &PictureLayout, o: OpNo) -> Result<(), NoMemory> {
    let spot = layout.spot(o);
    let x = layout.x(spot.dropped);
    let y = layout.middle(spot.row);
    drawn.fill(
        "<g><title>operation @: its handler is destroyed at line @</title>",
        &[o as u64, spot.dropped as u64],
    )?;
    drawn.fill(
        "<path class=\"dropped\" d=\"M@ @h12v12h-12zl12 12m0 -12l-12 12\"/></g>\n",
        &[x.saturating_sub(6), y.saturating_sub(6)],
    )
}

/// The line from a call to what it starts: the taking of a request, an execution, or the end of a
/// handler that never ran.
fn draw_join(
    drawn: &mut Detail,
    layout: &PictureLayout,
    script: &Script,
    a: ActNo,
) -> Result<(), NoMemory> {
    let spot = layout.spot(a);
    let (line, y) = if spot.taken > 0 {
        (spot.taken, layout.middle(layout.reactor_row()))
    } else if spot.begun > 0 {
        (spot.begun, layout.bar_top(spot))
    } else if spot.dropped > 0 {
        (spot.dropped, layout.middle(spot.row))
    } else {
        return Ok(());
    };
    drawn.fill(
        "<path class=\"join\" d=\"M@ @L@ @\"/>\n",
        &[
            layout.x(spot.called),
            layout.call_y(script, a),
            layout.x(line),
            y,
        ],
    )
}

/// The line from a completion to the execution of its handler, or to where that is destroyed.
fn draw_completion(drawn: &mut Detail, layout: &PictureLayout, o: OpNo) -> Result<(), NoMemory> {
    let spot = layout.spot(o);
    let (line, y) = if spot.begun > 0 {
        let height = layout.bar_height(spot);
        (spot.begun, layout.bar_top(spot).saturating_add(height))
    } else if spot.dropped > 0 {
        (spot.dropped, layout.middle(spot.row))
    } else {
        return Ok(());
    };
    drawn.fill(
        "<path class=\"join told\" d=\"M@ @L@ @\"/>\n",
        &[
            layout.x(spot.told),
            layout.middle(layout.reactor_row()),
            layout.x(line),
            y,
        ],
    )
}
