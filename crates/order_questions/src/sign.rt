ghost use Rattle.std.specs.Prelude.{◌≡◌, ◌↔◌, IsTrue};
ghost use Rattle.order_questions.specs.Sign.{Shows, coded, plain};

use asio_types::{Code, Event};

/// What is asked of one event.
#[derive(Clone, Copy, Debug, PartialEq, Eq)]
pub enum Sign {
    /// It is this event.
    Whole(Event),
    /// It is this event but for its size and its mark.
    Coded(Event),
    /// It is this event but for its code, its size and its mark.
    Plain(Event),
}

/// An event without its size and its mark.
fn coded(event: Event) -> Event
    ensures { result ≡ coded event }
{
    match event {
        Event::Begin { op, code, .. } => Event::Begin { op, code, size: 0 },
        Event::Done { op, code, .. } => Event::Done { op, code, size: 0 },
        Event::End { op, .. } => Event::End { op, mark: 0 },
        Event::Dropped { op, .. } => Event::Dropped { op, mark: 0 },
        other => other,
    }
}

/// An event without its code, its size and its mark.
fn plain(event: Event) -> Event
    ensures { result ≡ plain event }
{
    match coded(event) {
        Event::Begin { op, .. } => Event::Begin {
            op,
            code: Code::Ok,
            size: 0,
        },
        Event::Done { op, .. } => Event::Done {
            op,
            code: Code::Ok,
            size: 0,
        },
        other => other,
    }
}

impl Sign {
    /// Whether an event shows it.
    pub fn is_shown_by(self, event: Event) -> bool
        ensures { IsTrue result ↔ Shows self event }
    {
        match self {
            Sign::Whole(wanted) => event == wanted,
            Sign::Coded(wanted) => coded(event) == coded(wanted),
            Sign::Plain(wanted) => plain(event) == plain(wanted),
        }
    }
}
