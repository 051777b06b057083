ghost use Rattle.std.specs.Prelude.{◌≡◌, ◌<◌};
ghost use Rattle.asio_types.specs.Faults.{CountsFaults};

use crate::bars::{LOOKS, look_of};
use crate::drawing::{field, fill, words};
use crate::labels::{full_label, label};
use crate::layout::Layout;
use crate::scene::Scene;
use asio_types::{Failed, Sink};
use run_lines::Kind;

/// What an SVG begins with.
const HEAD: &str = "<svg xmlns=\"http://www.w3.org/2000/svg\" width=\"@\" height=\"@\" \
    viewBox=\"0 0 @ @\" role=\"img\" aria-labelledby=\"title desc\">\n\
    <title id=\"title\">Lines @ to @ of a run</title>\n";

/// What the picture shows, for readers who don't see it.
const DESC: &str = "<desc id=\"desc\">A row for each thread, from left to right by lines. Bars are \
    handlers that run, by strand; brackets are what is claimed and locked.</desc>\n";

/// How things look on light and on dark pages; patterns tell strands apart without colour.
const STYLE: &str = "<style>text{font:11px sans-serif;fill:#1f2328}\
    .name{font-weight:bold}.scale{font-size:10px;fill:#57606a}.held{font-size:9px}\
    .row{fill:#f4f5f7}.other{fill:#fff}.grid{stroke:#d8dade}\
    .bar{stroke:#30363d}.ink{stroke:#30363d;stroke-opacity:.45;fill:none}\
    .c0{fill:#b6d4fe}.c1{fill:#ffd8a8}.c2{fill:#b2e2c0}.c3{fill:#f3c2dd}\
    .c4{fill:#e3d3f7}.c5{fill:#f2eda0}.c6{fill:#b8e6ea}.c7{fill:#e2cfc0}.c8{fill:#fff}\
    .bracket{fill:none;stroke:#1f2328;stroke-width:1.5}\
    .call{stroke:#1f2328;stroke-width:2}.done{fill:#2c7a3f}.drop{fill:none;stroke:#b31d28;\
    stroke-width:2}.mark{fill:#57606a}.after{fill:none;stroke:#57606a;stroke-width:1.5}\
    .stop{fill:#b31d28}\
    @media(prefers-color-scheme:dark){text{fill:#e6edf3}.scale{fill:#9da7b3}\
    .row{fill:#161b22}.other{fill:#0d1117}.grid{stroke:#30363d}\
    .bar{stroke:#c9d1d9}.ink{stroke:#c9d1d9}\
    .c0{fill:#1f4b85}.c1{fill:#7a4a12}.c2{fill:#1f5c37}.c3{fill:#722653}\
    .c4{fill:#4d3675}.c5{fill:#5d5713}.c6{fill:#175a61}.c7{fill:#5b4331}.c8{fill:#0d1117}\
    .bracket,.call{stroke:#e6edf3}.done{fill:#56d364}.drop{stroke:#ff7b72}\
    .mark{fill:#9da7b3}.after{stroke:#9da7b3}.stop{fill:#ff7b72}}</style>\n";

/// The lines of a pattern.
fn lines_of(pattern: u64) -> &'static str {
    match pattern {
        1 => "M0 8L8 0",
        2 => "M0 0L8 8",
        3 => "M0 4H8",
        4 => "M4 0V8",
        5 => "M0 4H8M4 0V8",
        6 => "M0 0L8 8M0 8L8 0",
        7 => "M2 2h2v2h-2z",
        _ => "",
    }
}

/// A look of bars: a ground and a pattern over it.
fn write_look<K: Sink>(out: &mut K, look: u64, ground: u64, pattern: u64) -> Result<(), Failed>
    ensures { CountsFaults result (K.faults out.old) (K.faults out.new) }
{
    fill(
        out,
        "<pattern id=\"look@\" width=\"8\" height=\"8\" patternUnits=\"userSpaceOnUse\">\
        <rect class=\"c@\" width=\"8\" height=\"8\"/><path class=\"ink\" d=\"",
        &[look, ground],
    )?;
    words(out, lines_of(pattern))?;
    words(out, "\"/></pattern>\n")
}

/// The looks of the bars of strands: each has another ground or another pattern.
fn write_strand_looks<K: Sink>(out: &mut K, strands: u64) -> Result<(), Failed>
    ensures { CountsFaults result (K.faults out.old) (K.faults out.new) }
{
    for look in 0..strands {
        let pattern = look.saturating_add(look / 8) % 8;
        write_look(out, look, look % 8, pattern)?;
    }
    Ok(())
}

/// The looks of bars.
fn write_looks<K: Sink>(out: &mut K, scene: &Scene) -> Result<(), Failed>
    ensures { CountsFaults result (K.faults out.old) (K.faults out.new) }
{
    words(out, "<defs>\n")?;
    write_strand_looks(out, scene.strands.len().min(LOOKS) as u64)?;
    write_look(out, LOOKS as u64, 8, 0)?;
    words(out, "</defs>\n")
}

/// Which lines are drawn, and what isn't.
fn write_heading<K: Sink>(out: &mut K, scene: &Scene, layout: &Layout) -> Result<(), Failed>
    ensures { CountsFaults result (K.faults out.old) (K.faults out.new) }
{
    fill(
        out,
        "<text class=\"name\" x=\"16\" y=\"26\">lines @ to @ of the run",
        &[layout.from(), layout.last()],
    )?;
    if layout.from() > 2 {
        words(out, "; those before aren't drawn")?;
    }
    if scene.more {
        words(out, "; more lines follow that aren't drawn")?;
    }
    words(out, "</text>\n")
}

/// The ground and the name of a row.
fn draw_row<K: Sink>(
    out: &mut K,
    scene: &Scene,
    layout: &Layout,
    row: usize,
    thread: u64,
) -> Result<(), Failed>
    ensures { CountsFaults result (K.faults out.old) (K.faults out.new) }
{
    words(
        out,
        if row % 2 == 0 {
            "<rect class=\"row\""
        } else {
            "<rect class=\"other\""
        },
    )?;
    fill(
        out,
        " x=\"10\" y=\"@\" width=\"@\" height=\"@\"/><text class=\"name\" x=\"16\" y=\"@\">",
        &[
            layout.y(row),
            layout.right().saturating_sub(10),
            layout.row_height(),
            layout.y(row).saturating_add(38),
        ],
    )?;
    label(out, &scene.names, Kind::Thread, thread)?;
    words(out, "</text>\n")
}

/// How many lines are between two numbers of the scale.
fn scale_of(step: u64) -> u64
    ensures { 0 < result }
{
    if step >= 12 {
        5
    } else if step >= 5 {
        10
    } else {
        50
    }
}

/// The number of a line above the rows, where the scale has one.
fn draw_number<K: Sink>(out: &mut K, layout: &Layout, line: u64) -> Result<(), Failed>
    ensures { CountsFaults result (K.faults out.old) (K.faults out.new) }
{
    if line != layout.from() && line % scale_of(layout.step()) != 0 {
        return Ok(());
    }
    let x = layout.x(line);
    fill(
        out,
        "<path class=\"grid\" d=\"M@ 58V@\"/><text class=\"scale\" x=\"@\" y=\"54\">@</text>\n",
        &[x, layout.floor(), x.saturating_sub(4), line],
    )
}

/// The numbers of lines.
fn draw_scale<K: Sink>(out: &mut K, layout: &Layout) -> Result<(), Failed>
    ensures { CountsFaults result (K.faults out.old) (K.faults out.new) }
{
    words(
        out,
        "<text class=\"scale\" x=\"16\" y=\"54\">line of the run</text>\n",
    )?;
    for line in layout.from()..layout.last().saturating_add(1) {
        draw_number(out, layout, line)?;
    }
    Ok(())
}

/// Draws what all else stands on.
pub(crate) fn draw_frame<K: Sink>(out: &mut K, scene: &Scene, layout: &Layout) -> Result<(), Failed>
    ensures { CountsFaults result (K.faults out.old) (K.faults out.new) }
{
    let (width, height) = (layout.width(), layout.height());
    fill(
        out,
        HEAD,
        &[width, height, width, height, layout.from(), layout.last()],
    )?;
    words(out, DESC)?;
    words(out, STYLE)?;
    write_looks(out, scene)?;
    fill(
        out,
        "<rect class=\"other\" width=\"@\" height=\"@\"/>\n",
        &[width, height],
    )?;
    write_heading(out, scene, layout)?;
    let mut row = 0usize;
    for thread in scene.rows.as_slice() {
        draw_row(out, scene, layout, row, *thread)?;
        row = row.saturating_add(1);
    }
    draw_scale(out, layout)
}

/// The look of a strand and its name, in four columns.
fn draw_strand<K: Sink>(
    out: &mut K,
    scene: &Scene,
    layout: &Layout,
    place: u64,
    strand: Option<u64>,
) -> Result<(), Failed>
    ensures { CountsFaults result (K.faults out.old) (K.faults out.new) }
{
    let x = (place % 4).saturating_mul(190).saturating_add(16);
    let y = (place / 4)
        .saturating_mul(22)
        .saturating_add(layout.floor())
        .saturating_add(36);
    fill(
        out,
        "<rect class=\"bar\" fill=\"url(#look@)\" x=\"@\" y=\"@\" width=\"28\" height=\"14\"/>\
        <text x=\"@\" y=\"@\">",
        &[
            look_of(scene, strand),
            x,
            y,
            x.saturating_add(34),
            y.saturating_add(11),
        ],
    )?;
    match strand {
        Some(strand) => full_label(out, &scene.names, Kind::Strand, strand)?,
        None => words(out, "no strand")?,
    }
    words(out, "</text>\n")
}

/// What each sign means.
const SIGNS: &str = "<g transform=\"translate(16 @)\"><path class=\"call\" d=\"M6 0v12\"/>\
    <text x=\"14\" y=\"10\">call</text><path class=\"done\" d=\"M60 0l5 6l-5 6l-5 -6z\"/>\
    <text x=\"70\" y=\"10\">done</text><path class=\"drop\" d=\"M115 1l10 10m0 -10l-10 10\"/>\
    <text x=\"130\" y=\"10\">drop</text><path class=\"drop\" d=\"M176 6h8m-4 -5v10\"/>\
    <text x=\"190\" y=\"10\">cancel</text><path class=\"mark\" d=\"M250 0l5 11h-10z\"/>\
    <text x=\"260\" y=\"10\">mark</text><path class=\"after\" d=\"M310 1h10l-5 11z\"/>\
    <text x=\"326\" y=\"10\">after</text><path class=\"stop\" d=\"M377 0h6l3 3v6l-3 3h-6l-3 -3v-6z\"/>\
    <text x=\"392\" y=\"10\">stop</text><path class=\"after\" d=\"M440 0l10 6l-10 6z\"/>\
    <text x=\"456\" y=\"10\">restart</text><path class=\"bracket\" d=\"M520 5v6h30v-6\"/>\
    <text x=\"556\" y=\"10\">claimed or locked</text></g>\n";

/// Draws what each look and each sign means.
pub(crate) fn draw_legend<K: Sink>(
    out: &mut K,
    scene: &Scene,
    layout: &Layout,
) -> Result<(), Failed>
    ensures { CountsFaults result (K.faults out.old) (K.faults out.new) }
{
    fill(out, SIGNS, &[layout.floor().saturating_add(12)])?;
    let mut place = 0u64;
    for strand in scene.strands.as_slice() {
        if place < layout.named_strands() {
            draw_strand(out, scene, layout, place, Some(*strand))?;
            place = place.saturating_add(1);
        }
    }
    draw_strand(out, scene, layout, place, None)?;
    let more = (scene.strands.len() as u64).saturating_sub(layout.named_strands());
    if more > 0 {
        fill(
            out,
            "<text x=\"16\" y=\"@\">",
            &[layout.height().saturating_sub(8)],
        )?;
        field(out, "strands that aren't named here: ", more)?;
        words(out, "</text>\n")?;
    }
    Ok(())
}
