ghost use Rattle.std.specs.Prelude.{◌≡◌};
ghost use Rattle.asio_types.specs.Faults.{CountsFaults};

use crate::drawing::{field, fill, number, words};
use crate::items::{Bar, Bracket, Spot};
use crate::labels::{full_label, kind_held, kind_of, label, label_len, shape_of, verb_of};
use crate::layout::Layout;
use crate::scene::Scene;
use asio_types::{Failed, Sink};
use itoa::Buffer;
use run_lines::Kind;

/// So many looks of bars tell strands apart.
pub(crate) const LOOKS: usize = 64;

/// From which line to which something lasts.
fn write_lines<K: Sink>(out: &mut K, from: Option<u64>, to: Option<u64>) -> Result<(), Failed>
    ensures { CountsFaults result (K.faults out.old) (K.faults out.new) }
{
    match from {
        Some(line) => field(out, ", from line ", line)?,
        None => words(out, ", from before")?,
    }
    match to {
        Some(line) => field(out, " to line ", line),
        None => words(out, " on"),
    }
}

/// Which look the bars of a strand have: that of no strand is the last.
pub(crate) fn look_of(scene: &Scene, strand: Option<u64>) -> u64 {
    match strand {
        Some(strand) => {
            let place = scene.strands.iter().position(|other| *other == strand);
            (place.unwrap_or(0) % LOOKS) as u64
        }
        None => LOOKS as u64,
    }
}

/// What a bar is.
fn write_title<K: Sink>(out: &mut K, scene: &Scene, bar: Bar) -> Result<(), Failed>
    ensures { CountsFaults result (K.faults out.old) (K.faults out.new) }
{
    words(out, "<g><title>")?;
    full_label(out, &scene.names, Kind::Op, bar.op)?;
    match bar.strand {
        Some(strand) => {
            words(out, " on ")?;
            full_label(out, &scene.names, Kind::Strand, strand)?;
        }
        None => words(out, " on no strand")?,
    }
    write_lines(out, bar.begun, bar.ended)?;
    words(out, "</title>")
}

/// How many digits a number has.
fn digits_of(number: u64) -> u64 {
    Buffer::new().format(number).len() as u64
}

/// How wide a text of so many letters may be.
fn text_width(letters: u64) -> u64 {
    letters.saturating_mul(7).saturating_add(7)
}

/// The name of an operation in its bar, or its number, where there is room for it.
fn write_bar_label<K: Sink>(
    out: &mut K,
    scene: &Scene,
    bar: Bar,
    left: u64,
    top: u64,
    width: u64,
) -> Result<(), Failed>
    ensures { CountsFaults result (K.faults out.old) (K.faults out.new) }
{
    if width < text_width(digits_of(bar.op)) {
        return Ok(());
    }
    fill(
        out,
        "<text class=\"op\" x=\"@\" y=\"@\">",
        &[left.saturating_add(4), top.saturating_add(12)],
    )?;
    if width < text_width(label_len(&scene.names, Kind::Op, bar.op)) {
        number(out, bar.op)?;
    } else {
        label(out, &scene.names, Kind::Op, bar.op)?;
    }
    words(out, "</text>")
}

/// Draws a handler that runs.
pub(crate) fn draw_bar<K: Sink>(
    out: &mut K,
    scene: &Scene,
    layout: &Layout,
    bar: Bar,
) -> Result<(), Failed>
    ensures { CountsFaults result (K.faults out.old) (K.faults out.new) }
{
    let left = layout.left_of(bar.begun);
    let width = layout.right_of(bar.ended).saturating_sub(left).max(2);
    let top = layout.bar_y(bar.row, bar.depth);
    let look = look_of(scene, bar.strand);
    write_title(out, scene, bar)?;
    fill(
        out,
        "<rect class=\"bar\" fill=\"url(#look@)\" x=\"@\" y=\"@\" width=\"@\" height=\"17\"/>",
        &[look, left, top, width],
    )?;
    write_bar_label(out, scene, bar, left, top, width)?;
    words(out, "</g>\n")
}

/// Draws what is claimed or locked.
pub(crate) fn draw_bracket<K: Sink>(
    out: &mut K,
    scene: &Scene,
    layout: &Layout,
    one: Bracket,
) -> Result<(), Failed>
    ensures { CountsFaults result (K.faults out.old) (K.faults out.new) }
{
    let (kind, held) = kind_held(one.held);
    let left = layout.left_of(one.taken);
    let right = layout.right_of(one.given).max(left.saturating_add(3));
    let floor = layout.bracket_y(one.row, one.depth);
    words(out, "<g><title>")?;
    full_label(out, &scene.names, kind, held)?;
    write_lines(out, one.taken, one.given)?;
    fill(
        out,
        "</title><path class=\"bracket\" d=\"M@ @v6H@v-6\"/>",
        &[left, floor.saturating_sub(6), right],
    )?;
    let wide = label_len(&scene.names, kind, held)
        .saturating_mul(6)
        .saturating_add(6);
    if right.saturating_sub(left) >= wide {
        fill(
            out,
            "<text class=\"held\" x=\"@\" y=\"@\">",
            &[left.saturating_add(4), floor.saturating_sub(3)],
        )?;
        label(out, &scene.names, kind, held)?;
        words(out, "</text>")?;
    }
    words(out, "</g>\n")
}

/// Draws what happens at one line.
pub(crate) fn draw_spot<K: Sink>(
    out: &mut K,
    scene: &Scene,
    layout: &Layout,
    spot: Spot,
) -> Result<(), Failed>
    ensures { CountsFaults result (K.faults out.old) (K.faults out.new) }
{
    let (kind, about) = kind_of(spot.sign);
    words(out, "<g><title>")?;
    words(out, verb_of(spot.sign))?;
    full_label(out, &scene.names, kind, about)?;
    field(out, ", line ", spot.line)?;
    words(out, "</title>")?;
    let (x, y) = (layout.x(spot.line), layout.y(spot.row).saturating_add(8));
    fill(out, shape_of(spot.sign), &[x, y])?;
    if layout.step() >= 20 {
        fill(
            out,
            "<text class=\"held\" x=\"@\" y=\"@\">@</text>",
            &[x.saturating_add(6), y.saturating_add(9), about],
        )?;
    }
    words(out, "</g>\n")
}
