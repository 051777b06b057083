use crate::line::Line;
use crate::name::Name;

/// What a line of a run holds.
#[derive(Clone, Copy)]
pub enum Entry<'a> {
    /// What happened.
    Line(Line),
    /// A name.
    Name(Name<'a>),
}
