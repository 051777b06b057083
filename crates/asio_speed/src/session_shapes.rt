use asio_types::NoMemory;
use std::alloc::Global;

/// How many strands the postings of `many_strands` go over.
const MANY: u32 = 64;

/// How many strands those of the other shapes go over that have some.
const FOUR: u32 = 4;

/// How many acts a timer has: one sets it, and the others wait.
const ACTS_OF_TIMER: u32 = 32;

/// How many steps a computing handler takes where its shape says no number: some 5 microseconds.
const COMPUTED: u32 = 3_500;

/// How many it takes at most.
const MOST_COMPUTED: u32 = 10_000;

/// What stands in `open` of a session that is measured: so many acts, one like the other.
#[derive(Clone, Copy, PartialEq, Eq)]
pub(crate) enum Shape {
    /// Postings over 4 strands, in turn.
    FourStrands,
    /// Postings over 64 strands, in turn.
    ManyStrands,
    /// Postings to no strand.
    NoStrand,
    /// Postings to one strand.
    OneStrand,
    /// Postings over 4 strands, whose handlers compute so many steps.
    Computing { steps: u32 },
    /// Waits over 4 strands for timers that have expired.
    Expired,
}

impl Shape {
    /// The shape with this name.
    pub(crate) fn named(word: &str) -> Option<Shape> {
        match word {
            "four_strands" => Some(Shape::FourStrands),
            "many_strands" => Some(Shape::ManyStrands),
            "no_strand" => Some(Shape::NoStrand),
            "one_strand" => Some(Shape::OneStrand),
            "computing" => Some(Shape::Computing { steps: COMPUTED }),
            "expired" => Some(Shape::Expired),
            _ => Shape::computing(word.strip_prefix("computing_")?),
        }
    }

    /// The shape whose handlers compute so many steps.
    fn computing(number: &str) -> Option<Shape> {
        match number.parse::<u32>() {
            Ok(steps) if steps <= MOST_COMPUTED => Some(Shape::Computing { steps }),
            _ => None,
        }
    }

    /// How many strands there are.
    fn strands(self) -> u32 {
        match self {
            Shape::NoStrand => 0,
            Shape::OneStrand => 1,
            Shape::ManyStrands => MANY,
            Shape::FourStrands | Shape::Computing { .. } | Shape::Expired => FOUR,
        }
    }

    /// How many timers there are for so many acts.
    fn timers(self, acts: u32) -> u32 {
        match self {
            Shape::Expired => (acts / ACTS_OF_TIMER).max(1),
            _ => 0,
        }
    }

    /// How many handlers so many acts have.
    pub(crate) fn handlers(self, acts: u32) -> u32 {
        acts.saturating_sub(self.timers(acts))
    }
}

/// Writes the act with this number.
fn push_act(text: &mut String, act: u32, strands: u32, timers: u32) -> Result<(), NoMemory> {
    if act < timers {
        write!(text, " expires {act} 0")?;
        return Ok(());
    }
    if timers > 0 {
        let timer = act % timers;
        write!(text, " wait {timer}")?;
    } else {
        text.push_str(" post")?;
    }
    if strands > 0 {
        let strand = act % strands;
        write!(text, " {strand}")?;
    } else {
        text.push_str(" -")?;
    }
    text.push_str(if timers > 0 { " - { }" } else { " { }" })?;
    Ok(())
}

/// The text of a script of this shape: so many acts, all in `open`, and one round of so many workers.
pub(crate) fn text_of(
    alloc: Global,
    shape: Shape,
    acts: u32,
    workers: u32,
) -> Result<String, NoMemory> {
    let strands = shape.strands();
    let timers = shape.timers(acts);
    let mut text = String::from_str(alloc, "session 2")?;
    if strands > 0 {
        write!(text, " strands {strands}")?;
    }
    if timers > 0 {
        write!(text, " timers {timers}")?;
    }
    text.push_str(" open {")?;
    for act in 0..acts {
        push_act(&mut text, act, strands, timers)?;
    }
    write!(text, " }} run {workers}")?;
    Ok(text)
}
