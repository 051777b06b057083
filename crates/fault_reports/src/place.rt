ghost use Rattle.std.specs.Prelude.{◌≡◌, ◌≤◌, ◌+◌, length};
ghost use Rattle.text_places.specs.Column.{IsColumn};

use crate::fault::Place;
use text_places::column_of;

/// A place of a part of a file, before which so many bytes stand.
pub(crate) fn place_in(file: &[u8], before: usize, at: usize, width: usize) -> Place
    ensures at { before + at ≤ length file.now → result.at ≡ before + at }
    ensures column { IsColumn file.now result.at result.column }
{
    let at = before.saturating_add(at).min(file.len());
    Place {
        at,
        width,
        column: column_of(file, at),
    }
}
