ghost use Rattle.std.specs.Prelude.{◌<◌};

use super::layout::PictureLayout;
use crate::detail::Detail;
use asio_types::NoMemory;
use session_script::Script;
use trace_check::Verdict;

/// What an SVG begins with, and its title up to the number of events.
const HEAD: &str =
    "<svg xmlns=\"http://www.w3.org/2000/svg\" width=\"@\" height=\"@\" viewBox=\"0 0 @ @\" \
    role=\"img\" aria-labelledby=\"title desc\">\n<title id=\"title\">A session of ";

/// What the rows and the bars are, behind the number of events.
const ROWS: &str = " of a session, a column each; its acts: @, its strands: @. Rows from \
    top to bottom: open, each strand, handlers without a strand, the reactor. \
    Bars are executions, from begin to end. ";

/// What is said where handlers share a row.
const CROWDED: &str = "More than 16 handlers without a strand run at once: some share a row. ";

/// What lies under all.
const GROUND: &str = "<rect class=\"other\" width=\"@\" height=\"@\"/>\n";

/// How far the names of the rows are apart where the picture is wide.
const NAMES_APART: u64 = 1_600;

/// The room for a name.
const NAME_WIDTH: u64 = 130;

/// How things look, on light pages and on dark ones; nothing is told by colour alone.
const STYLE: &str = "<style>text{font:11px sans-serif;fill:#222}\
    .name{font-weight:bold}.scale,.time,.again{font-size:10px;fill:#444}\
    .row{fill:#f4f5f7}.other{fill:#fff}.grid{stroke:#d8dade}\
    .bar{fill:#bcd4f0;stroke:#23527c}.error{fill:#f6d9b0;stroke:#7a4a00}\
    .op{fill:#111}.dropped,.cancelled{fill:none;stroke:#a11;stroke-width:2}\
    .join{fill:none;stroke:#7a8794;stroke-opacity:.6}.told{stroke-dasharray:4 2}\
    .call{stroke:#222;stroke-width:2}.take{fill:#fff;stroke:#222}.done{fill:#2c7a3f}\
    .failed{fill:#c77700}.tick{fill:none;stroke:#555}\
    .stop{fill:#a11}.round{stroke:#222;stroke-dasharray:2 3}\
    .broken{fill:none;stroke:#a11;stroke-width:3}\
    @media(prefers-color-scheme:dark){text{fill:#ddd}.scale,.time,.again{fill:#aaa}\
    .row{fill:#23262b}.other{fill:#17191c}.grid{stroke:#3a3f46}\
    .bar{fill:#24405f;stroke:#8db8e8}.error{fill:#5a3f12;stroke:#e0a850}.op{fill:#eee}\
    .dropped,.cancelled,.broken{stroke:#f47}.join{stroke:#9aa5b1}.call,.round{stroke:#ddd}\
    .take{fill:#17191c;stroke:#ddd}.done{fill:#5fc07a}.failed{fill:#f0a040}.tick{stroke:#aaa}\
    .stop{fill:#f47}}</style>\n";

/// What each shape means, from two heights.
const LEGEND: &str = "<g transform=\"translate(16 @)\">\
    <path class=\"bar\" d=\"M0 -10H30V4H0Z\"/><text x=\"36\" y=\"2\">execution</text>\
    <path class=\"bar error\" d=\"M118 -10H140V4H110V-2Z\"/>\
    <text x=\"146\" y=\"2\">with an error (cut corner)</text>\
    <path class=\"call\" d=\"M300 -8v10\"/><text x=\"308\" y=\"2\">call</text>\
    <path class=\"take\" d=\"M350 -7h8l-4 7z\"/><text x=\"364\" y=\"2\">taken</text>\
    <circle class=\"done\" cx=\"420\" cy=\"-3\" r=\"4\"/><text x=\"430\" y=\"2\">completed</text>\
    <path class=\"cancelled\" d=\"M504 -7l8 8m0 -8l-8 8\"/><text x=\"518\" y=\"2\">cancelled</text>\
    <path class=\"failed\" d=\"M586 -7h8v8h-8z\"/><text x=\"600\" y=\"2\">failed</text>\
    </g><g transform=\"translate(16 @)\">\
    <path class=\"join\" d=\"M0 4L30 -10\"/><text x=\"36\" y=\"2\">what a call starts</text>\
    <path class=\"join told\" d=\"M150 4L180 -10\"/><text x=\"186\" y=\"2\">its handler</text>\
    <path class=\"tick\" d=\"M270 -12v16\"/><text x=\"278\" y=\"2\">time moves</text>\
    <path class=\"dropped\" d=\"M356 -9h12v12h-12zl12 12m0 -12l-12 12\"/>\
    <text x=\"374\" y=\"2\">handler destroyed</text>\
    <path class=\"stop\" d=\"M488 -10h5l4 4v5l-4 4h-5l-4 -4v-5z\"/><text x=\"504\" y=\"2\">stop</text>\
    <path class=\"round\" d=\"M546 -12v16\"/><text x=\"554\" y=\"2\">a round closes, or restart</text></g>\n";

/// Draws what all else stands on: names, rows and the scale of lines.
pub(super) fn draw_frame(
    drawn: &mut Detail,
    layout: &PictureLayout,
    script: &Script,
    verdict: Verdict,
) -> Result<(), NoMemory> {
    let (width, height) = (layout.width(), layout.height());
    drawn.fill(HEAD, &[width, height, width, height])?;
    name_events(drawn, layout)?;
    drawn.words("</title>\n")?;
    describe(drawn, layout, script, verdict)?;
    drawn.words(STYLE)?;
    drawn.fill(GROUND, &[width, height])?;
    draw_heading(drawn, layout, verdict)?;
    draw_rows(drawn, layout)?;
    draw_scale(drawn, layout)?;
    draw_names_again(drawn, layout)
}

/// How many events are drawn.
fn name_events(drawn: &mut Detail, layout: &PictureLayout) -> Result<(), NoMemory> {
    drawn.number(layout.lines() as u64)?;
    drawn.words(if layout.lines() == 1 {
        " event"
    } else {
        " events"
    })
}

/// How many events there are, and the verdict on them.
fn draw_heading(
    drawn: &mut Detail,
    layout: &PictureLayout,
    verdict: Verdict,
) -> Result<(), NoMemory> {
    drawn.words("<text class=\"name\" x=\"16\" y=\"26\">")?;
    name_events(drawn, layout)?;
    drawn.words(": ")?;
    match verdict {
        Verdict::Legal => drawn.words("a legal history"),
        Verdict::Illegal(number) => drawn.field(
            "legal so far, and illegal at line ",
            number as u64,
        ),
        Verdict::Incomplete => drawn.words("legal so far, and not whole"),
    }?;
    drawn.words("</text>\n")
}

/// What the picture shows, for readers who don't see it.
fn describe(
    drawn: &mut Detail,
    layout: &PictureLayout,
    script: &Script,
    verdict: Verdict,
) -> Result<(), NoMemory> {
    drawn.words("<desc id=\"desc\">")?;
    name_events(drawn, layout)?;
    drawn.fill(ROWS, &[script.acts() as u64, layout.strands() as u64])?;
    drawn.words(if layout.is_crowded() { CROWDED } else { "" })?;
    match verdict {
        Verdict::Legal => drawn.words("The history is legal."),
        Verdict::Illegal(number) => drawn.fill(
            "It breaks off before line @, which is illegal.",
            &[number as u64],
        ),
        Verdict::Incomplete => drawn.words("The history isn't whole."),
    }?;
    drawn.words("</desc>\n")
}

/// The rows with their names at the left; every other one is shaded.
fn draw_rows(drawn: &mut Detail, layout: &PictureLayout) -> Result<(), NoMemory> {
    for row in 0..layout.reactor_row().saturating_add(1) {
        draw_shade(drawn, layout, row)?;
        drawn.fill(
            "<text class=\"name\" x=\"16\" y=\"@\">",
            &[layout.middle(row).saturating_add(4)],
        )?;
        name_row(drawn, layout, row)?;
        drawn.words("</text>\n")?;
    }
    Ok(())
}

/// The name of a row; of the rows of handlers without a strand, the first has one, and the last if
/// handlers share it.
fn name_row(drawn: &mut Detail, layout: &PictureLayout, row: u32) -> Result<(), NoMemory> {
    if row == 0 {
        drawn.words("open")
    } else if row < layout.own_row() {
        drawn.field("strand ", row.saturating_sub(1) as u64)
    } else if row == layout.own_row() {
        drawn.words("without a strand")
    } else if row == layout.reactor_row() {
        drawn.words("reactor")
    } else if layout.is_shared(row) {
        drawn.words("and all others")
    } else {
        Ok(())
    }
}

/// The names of the rows once more, small, over the executions.
fn draw_names_at(drawn: &mut Detail, layout: &PictureLayout, x: u64) -> Result<(), NoMemory> {
    for row in 0..layout.reactor_row().saturating_add(1) {
        let y = layout.y(row).saturating_add(9);
        drawn.fill("<text class=\"again\" x=\"@\" y=\"@\">", &[x, y])?;
        name_row(drawn, layout, row)?;
        drawn.words("</text>\n")?;
    }
    Ok(())
}

/// The names of the rows again and again, where the picture is wide.
fn draw_names_again(drawn: &mut Detail, layout: &PictureLayout) -> Result<(), NoMemory> {
    let mut x = NAMES_APART;
    for _ in 0..layout.right().saturating_sub(NAME_WIDTH) / NAMES_APART {
        draw_names_at(drawn, layout, x)?;
        x = x.saturating_add(NAMES_APART);
    }
    Ok(())
}

/// The ground of a row.
fn draw_shade(drawn: &mut Detail, layout: &PictureLayout, row: u32) -> Result<(), NoMemory> {
    drawn.words(if row % 2 == 0 {
        "<rect class=\"row\""
    } else {
        "<rect class=\"other\""
    })?;
    drawn.fill(
        " x=\"10\" y=\"@\" width=\"@\" height=\"@\"/>",
        &[
            layout.y(row),
            layout.right().saturating_sub(10),
            layout.row_height(),
        ],
    )
}

/// How many lines of the trace are between two numbers of the scale.
fn scale_of(step: u64) -> u32
    ensures { 0 < result }
{
    if step >= 12 {
        5
    } else if step >= 5 {
        10
    } else {
        50
    }
}

/// The numbers of lines, above the rows.
fn draw_scale(drawn: &mut Detail, layout: &PictureLayout) -> Result<(), NoMemory> {
    drawn.words("<text class=\"scale\" x=\"16\" y=\"52\">line of the trace</text>\n")?;
    let scale = scale_of(layout.step());
    for line in 1..layout.lines().saturating_add(1) {
        if line == 1 || line % scale == 0 {
            let x = layout.x(line);
            drawn.fill(
                "<path class=\"grid\" d=\"M@ 56V@\"/><text class=\"scale\" x=\"@\" y=\"52\">@</text>\n",
                &[x, layout.floor(), x.saturating_sub(4), line as u64],
            )?;
        }
    }
    Ok(())
}

/// Draws where the trace breaks off, and the legend.
pub(super) fn draw_end(
    drawn: &mut Detail,
    layout: &PictureLayout,
    verdict: Verdict,
) -> Result<(), NoMemory> {
    let x = layout.x(layout.lines().saturating_add(1));
    match verdict {
        Verdict::Legal => {}
        Verdict::Illegal(number) => {
            drawn.fill(
                "<path class=\"broken\" d=\"M@ @l6 10l-12 20l12 20l-6 10V@\"/>",
                &[x, layout.y(0), layout.floor()],
            )?;
            drawn.fill(
                "<text class=\"name\" x=\"@\" y=\"@\">illegal at line @</text>\n",
                &[
                    x.saturating_add(10),
                    layout.y(0).saturating_add(30),
                    number as u64,
                ],
            )?;
        }
        Verdict::Incomplete => drawn.fill(
            "<text class=\"name\" x=\"@\" y=\"@\">incomplete</text>\n",
            &[x, layout.y(0).saturating_add(30)],
        )?,
    }
    draw_legend(drawn, layout)?;
    drawn.words("</svg>\n")
}

/// What each shape means.
fn draw_legend(drawn: &mut Detail, layout: &PictureLayout) -> Result<(), NoMemory> {
    let y = layout.floor().saturating_add(26);
    drawn.fill(LEGEND, &[y, y.saturating_add(28)])
}
