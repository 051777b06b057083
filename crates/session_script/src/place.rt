ghost use Rattle.std.specs.Prelude.{◌≡◌, ◌+◌, ◌*◌, ◌<◌, ◌≤◌, length, map, IfOk};
ghost use Rattle.session_script.specs.Groups.{class_number, place_number};
ghost use Rattle.session_script.specs.Outcome.{entries_of};
ghost use Rattle.session_script.specs.Layout.{HoldsPlaces};
ghost use Rattle.session_script.specs.Limits.{most_acts};

use crate::groups::Groups;
use crate::parts::PlacedAct;
use asio_types::{Class, NoMemory, OpNo};
use std::alloc::Global;

/// A class as a number.
pub(crate) fn class_number(class: Class) -> usize
    ensures value { result ≡ class_number class }
    ensures below { result < 3 }
{
    match class {
        Class::Ok => 0,
        Class::Abort => 1,
        Class::Other => 2,
    }
}

/// A place as a number: `open`, three places for each of so many acts, and one for all others.
fn place_number(acts: usize, place: Option<(OpNo, Class)>) -> u32
    requires { acts ≤ most_acts }
    ensures value { result ≡ place_number acts place }
    ensures below { result < 3 * acts + 2 }
{
    match place {
        Some((op, class)) if (op as usize) < acts => 1 + 3 * op + class_number(class) as u32,
        Some(_) => 3 * acts as u32 + 1,
        None => 0,
    }
}

/// The numbers of the places where acts stand.
fn place_numbers(alloc: Global, acts: &[PlacedAct]) -> Result<Vec<u32>, NoMemory>
    requires { length acts.now ≤ most_acts }
    ensures value { IfOk result (λ numbers.
        numbers.items ≡ map (λ entry. place_number (length acts.now) entry.parent) acts.now) }
{
    let mut numbers = Vec::with_capacity(alloc, acts.len())?;
    for entry in acts {
        numbers.push(place_number(acts.len(), entry.parent))?;
    }
    Ok(numbers)
}

/// The acts of each place.
pub(crate) fn places(alloc: Global, acts: &[PlacedAct]) -> Result<Groups, NoMemory>
    requires { length acts.now ≤ most_acts }
    ensures { IfOk result (λ places. HoldsPlaces (entries_of acts.now) places) }
{
    let numbers = place_numbers(alloc, acts)?;
    Groups::of(alloc, numbers.as_slice(), 3 * acts.len() + 2)
}
