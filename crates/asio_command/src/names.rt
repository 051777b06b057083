ghost use Rattle.std.specs.Prelude.{◌≡◌, All, Any, IfNone, IfSome};

use asio_types::NoMemory;
use std::alloc::Global;
use std::str;
use text_places::lines_of;

/// What may have a name.
#[derive(Clone, Copy, PartialEq, Eq)]
pub(crate) enum NamedKind {
    /// A strand of the script.
    Strand,
    /// A timer.
    Timer,
    /// A cancellation slot.
    Slot,
    /// A stream.
    Stream,
    /// An act, and so an operation.
    Act,
}

/// The name that a line of a head gives.
#[derive(Clone, Copy)]
pub(crate) struct Name<'t> {
    /// To what.
    pub(crate) kind: NamedKind,
    /// Its number in the script.
    pub(crate) number: u32,
    /// The name.
    pub(crate) name: &'t str,
}

/// The names that the head of a script gives, in their order.
#[derive(Drop)]
pub(crate) struct Names<'t> {
    /// The names.
    pub(crate) list: Vec<Name<'t>>,
}

/// The kind that a word names.
fn kind_of(word: &str) -> Option<NamedKind> {
    match word {
        "strand" => Some(NamedKind::Strand),
        "timer" => Some(NamedKind::Timer),
        "slot" => Some(NamedKind::Slot),
        "stream" => Some(NamedKind::Stream),
        "act" => Some(NamedKind::Act),
        _ => None,
    }
}

/// The name that a line of a head gives, as `# strand 0 room`; none of any other comment. A name is
/// what stands behind the number, up to the blanks at the line's end.
fn name_in(line: &[u8]) -> Option<Name<'_>> {
    let text = str::from_utf8(line).ok()?;
    let words = text.strip_prefix("#")?.trim();
    let (kind, rest) = words.split_once(' ')?;
    let (number, name) = rest.trim().split_once(' ')?;
    let kind = kind_of(kind)?;
    let number = number.parse::<u32>().ok()?;
    let name = name.trim();
    if name.is_empty() {
        return None;
    }
    Some(Name { kind, number, name })
}

impl<'t> Names<'t> {
    /// The names that the lines of a head give. Takes memory in proportion to their number.
    pub(crate) fn of_head(alloc: Global, head: &'t [u8]) -> Result<Names<'t>, NoMemory> {
        let mut list = Vec::new(alloc);
        for line in lines_of(head) {
            if let Some(name) = name_in(line) {
                list.push(name)?;
            }
        }
        Ok(Names { list })
    }

    /// Whether nothing has a name.
    pub(crate) fn is_empty(&self) -> bool {
        self.list.is_empty()
    }

    /// The name of what has this kind and number: that of the first line that gives it one.
    pub(crate) fn find(&self, kind: NamedKind, number: u32) -> Option<&'t str>
        ensures found { IfSome result (λ text. Any (λ one. (one.kind ≡ kind)
            × (one.number ≡ number) × (one.name.now ≡ text.now)) self.now.list.items) }
        ensures none { IfNone result (All (λ one. one.kind ≡ kind → one.number ≡ number → ⊥)
            self.now.list.items) }
    {
        for name in &self.list {
            if name.kind == kind && name.number == number {
                return Some(name.name);
            }
        }
        None
    }
}
