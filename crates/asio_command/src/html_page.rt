//! A page round a picture: zoom by the wheel, the lines of the trace, and the reasons.
use asio_types::NoMemory;
use std::alloc::Global;
use text_places::{Text, lines_of};

/// What stands before the picture.
const PAGE_FRONT: &str = "<!DOCTYPE html>
<html lang=\"en\">
<meta charset=\"utf-8\">
<title>A session</title>
<style>
body { margin: 0; height: 100vh; display: flex; flex-direction: column; background: #fff; color: #222; font: 13px sans-serif }
#view { flex: 3; overflow: auto; border-bottom: 1px solid #999 }
#said { flex: 1; overflow: auto; padding: 0 1em }
li { cursor: pointer }
svg { display: block }
text.again { display: none }
text.name { paint-order: stroke; stroke: #fff; stroke-width: 3px }
@media (prefers-color-scheme: dark) {
  body { background: #17191c; color: #ddd }
  text.name { stroke: #17191c }
}
</style>
<div id=\"view\">
";

/// What stands between the picture and the reasons.
const PAGE_REASONS: &str = "</div>
<div id=\"said\">
<pre>";

/// What stands between the reasons and the lines of the trace.
const PAGE_LINES: &str = "</pre>
<ol>
";

/// What stands behind the lines: the wheel zooms round the pointer, the names of the rows stay in
/// sight, and a line of the list leads to its column.
const PAGE_END: &str = "</ol>
</div>
<script>
const view = document.getElementById('view'), svg = view.querySelector('svg')
const width = svg.width.baseVal.value, height = svg.height.baseVal.value
const names = [...svg.querySelectorAll('text.name[x=\"16\"]')], scale = [...svg.querySelectorAll('text.scale')]
const marks = scale.filter(mark => /^[0-9]+$/.test(mark.textContent))
const at = mark => Number(mark.getAttribute('x')), line = mark => Number(mark.textContent)
const last = marks[marks.length - 1], step = marks.length > 1 ? (at(last) - at(marks[0])) / (line(last) - line(marks[0])) : 22
svg.append(...names)
let zoom = 1
const keep = () => names.forEach(name => name.setAttribute('transform', `translate(${view.scrollLeft / zoom} 0)`))
const resize = (to, x, y) => {
  const left = (view.scrollLeft + x) / zoom, top = (view.scrollTop + y) / zoom
  zoom = Math.min(8, Math.max(.02, to))
  svg.setAttribute('width', width * zoom)
  svg.setAttribute('height', height * zoom)
  view.scrollLeft = left * zoom - x
  view.scrollTop = top * zoom - y
  keep()
}
view.addEventListener('scroll', keep)
view.addEventListener('wheel', event => {
  event.preventDefault()
  if (event.shiftKey) view.scrollLeft += event.deltaY || event.deltaX
  else resize(zoom * Math.exp(-event.deltaY / 400), event.clientX - view.offsetLeft, event.clientY - view.offsetTop)
}, { passive: false })
document.querySelectorAll('li').forEach((item, i) => item.addEventListener('click', () => {
  view.scrollLeft = (at(marks[0]) + i * step) * zoom - view.clientWidth / 2
}))
</script>
</html>
";

/// A text within the page.
fn write_escaped(text: &mut Text, bytes: &[u8]) {
    for byte in bytes {
        match *byte {
            b'&' => text.words("&amp;"),
            b'<' => text.words("&lt;"),
            b'>' => text.words("&gt;"),
            other => text.bytes(&[other]),
        }
    }
}

/// A text as it stands within the page, or in a picture.
pub(crate) fn escaped(alloc: Global, bytes: &[u8]) -> Result<Vec<u8>, NoMemory> {
    let mut text = Text::empty(alloc);
    write_escaped(&mut text, bytes);
    text.finish()
}

/// Writes what stands before the picture.
pub(crate) fn write_page_front(text: &mut Text) {
    text.words(PAGE_FRONT);
}

/// Writes what stands behind the picture: the reasons, and the lines of the trace.
pub(crate) fn write_page_end(reasons: &[u8], trace: &[u8], text: &mut Text) {
    text.words(PAGE_REASONS);
    write_escaped(text, reasons);
    text.words(PAGE_LINES);
    for line in lines_of(trace) {
        text.words("<li>");
        write_escaped(text, line);
        text.words("\n");
    }
    text.words(PAGE_END);
}
