ghost use Rattle.std.specs.Prelude.{◌≡◌};
ghost use Rattle.asio_types.specs.Faults.{CountsFaults};

use crate::bars::{draw_bar, draw_bracket, draw_spot};
use crate::drawing::words;
use crate::frame::{draw_frame, draw_legend};
use crate::layout::Layout;
use crate::scene::Scene;
use asio_types::{Failed, Sink};

fn draw_bars<K: Sink>(out: &mut K, scene: &Scene, layout: &Layout) -> Result<(), Failed>
    ensures { CountsFaults result (K.faults out.old) (K.faults out.new) }
{
    for bar in scene.bars.as_slice() {
        draw_bar(out, scene, layout, *bar)?;
    }
    Ok(())
}

fn draw_brackets<K: Sink>(out: &mut K, scene: &Scene, layout: &Layout) -> Result<(), Failed>
    ensures { CountsFaults result (K.faults out.old) (K.faults out.new) }
{
    for one in scene.brackets.as_slice() {
        draw_bracket(out, scene, layout, *one)?;
    }
    Ok(())
}

fn draw_spots<K: Sink>(out: &mut K, scene: &Scene, layout: &Layout) -> Result<(), Failed>
    ensures { CountsFaults result (K.faults out.old) (K.faults out.new) }
{
    for spot in scene.spots.as_slice() {
        draw_spot(out, scene, layout, *spot)?;
    }
    Ok(())
}

/// Writes a picture, as an SVG that stands alone and serves light and dark pages. It fails where the
/// sink does, and takes no memory.
pub fn write_picture<K: Sink>(out: &mut K, scene: &Scene) -> Result<(), Failed>
    ensures { CountsFaults result (K.faults out.old) (K.faults out.new) }
{
    let layout = Layout::of(scene);
    draw_frame(out, scene, &layout)?;
    draw_bars(out, scene, &layout)?;
    draw_brackets(out, scene, &layout)?;
    draw_spots(out, scene, &layout)?;
    draw_legend(out, scene, &layout)?;
    words(out, "</svg>\n")
}
