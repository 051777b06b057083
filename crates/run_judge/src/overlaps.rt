use crate::listing::{Group, Listing, list_things};
use crate::session::Sources;
use crate::status::Status;
use asio_types::{Failed, Sink, Source, write_all};
use itoa::Buffer;
use run_lines::{Entry, Kind, Line, read_line};
use run_names::{Names, NotNamed, read_names};
use run_orders::Guard;
use run_overlaps::{Guards, NotFound, claims_of, find_guards, find_handed};
use run_reader::{LineReader, ReadFault};
use run_witness::find_witness;
use std::alloc::{AllocError, Global};

/// Why a run isn't told of.
#[derive(Clone, Copy, Debug, PartialEq, Eq)]
pub(crate) enum Unread {
    Bad,
    ReadFault,
    NoMemory,
}

impl Unread {
    pub(crate) fn status(self) -> Status {
        match self {
            Unread::Bad => Status::Bad,
            Unread::ReadFault => Status::ReadFault,
            Unread::NoMemory => Status::NoMemory,
        }
    }
}

/// Keeps the line that stands here, if one does.
fn keep(lines: &mut Vec<Line>, bytes: &[u8]) -> Result<(), Unread> {
    match read_line(bytes) {
        Ok(Entry::Line(line)) => match lines.push(line) {
            Ok(()) => Ok(()),
            Err(_) => Err(Unread::NoMemory),
        },
        Ok(Entry::Name(_)) => Ok(()),
        Err(_) => Err(Unread::Bad),
    }
}

/// Reads the next line; `false` where all were read.
fn advance<S: Source>(reader: &mut LineReader, source: &mut S) -> Result<bool, Unread> {
    match reader.advance(source) {
        Ok(more) => Ok(more),
        Err(ReadFault::Failed) => Err(Unread::ReadFault),
        Err(ReadFault::NoLineFeed | ReadFault::TooLong) => Err(Unread::Bad),
    }
}

/// The lines of a run.
pub(crate) fn read_lines<S: Source>(alloc: Global, source: &mut S) -> Result<Vec<Line>, Unread> {
    let Ok(mut reader) = LineReader::make(alloc) else {
        return Err(Unread::NoMemory);
    };
    let mut lines = Vec::new(alloc);
    if !advance(&mut reader, source)? || reader.line() != b"run 1".as_slice() {
        return Err(Unread::Bad);
    }
    for _ in 0..u64::MAX {
        if !advance(&mut reader, source)? {
            return Ok(lines);
        }
        keep(&mut lines, reader.line())?;
    }
    Ok(lines)
}

/// A number of things, with a name if it has one.
fn write_item<K: Sink>(
    out: &mut K,
    names: &Names,
    words: &str,
    kind: Kind,
    number: u64,
) -> Result<(), Failed> {
    write_all(out, words.as_bytes())?;
    write_all(out, Buffer::new().format(number).as_bytes())?;
    match names.of(kind, number) {
        Some(text) => {
            write_all(out, b" ")?;
            write_all(out, text)
        }
        None => Ok(()),
    }
}

/// A count behind words, and what is counted.
fn write_count<K: Sink>(out: &mut K, words: &str, count: u64, of: &str) -> Result<(), Failed> {
    write_all(out, words.as_bytes())?;
    write_all(out, Buffer::new().format(count).as_bytes())?;
    write_all(out, of.as_bytes())
}

/// What keeps the claims of a thing apart.
fn write_guard<K: Sink>(out: &mut K, names: &Names, guard: Guard) -> Result<(), Failed> {
    match guard {
        Guard::Strand { strand } => write_item(out, names, ", on strand ", Kind::Strand, strand),
        Guard::Lock { lock } => write_item(out, names, ", under lock ", Kind::Lock, lock),
        Guard::Thread { thread } => write_item(out, names, ", on thread ", Kind::Thread, thread),
    }
}

/// Who makes claims, and where.
fn write_group<K: Sink>(out: &mut K, names: &Names, group: &Group) -> Result<(), Failed> {
    write_count(out, "  ", group.count, " by ")?;
    let claim = group.first;
    match claim.op {
        Some(op) => match names.of(Kind::Op, op) {
            Some(text) => write_all(out, text)?,
            None => write_all(out, b"handlers without a name")?,
        },
        None => write_item(
            out,
            names,
            "the outside of thread ",
            Kind::Thread,
            claim.thread,
        )?,
    }
    match claim.strand {
        Some(strand) => write_item(out, names, ", on strand ", Kind::Strand, strand)?,
        None => write_all(out, b", on no strand")?,
    }
    write_all(out, b"\n")
}

/// What keeps the claims of a thing apart.
#[derive(Clone, Copy)]
enum Kept {
    By { guard: Guard },
    /// Each claim is given back before the next one, in each order.
    HandedOver,
}

/// What keeps the claims of the things of a run apart.
#[derive(Drop)]
struct Known {
    guards: Guards,
    handed: Vec<u64>,
}

impl Known {
    /// What keeps the claims of a thing apart, if that is known.
    fn of(&self, thing: u64) -> Option<Kept> {
        match self.guards.of(thing) {
            Some(guard) => Some(Kept::By { guard }),
            None if self.handed.contains(&thing) => Some(Kept::HandedOver),
            None => None,
        }
    }
}

/// So many things without a guard are asked whether they are handed over: each takes time for all lines.
const MOST_ASKED: usize = 64;

/// The first things for which no guard was found.
fn unguarded(alloc: Global, guards: &Guards, all: &[Listing]) -> Result<Vec<u64>, AllocError> {
    let mut things = Vec::new(alloc);
    for listing in all {
        if things.len() < MOST_ASKED && guards.of(listing.thing).is_none() {
            things.push(listing.thing)?;
        }
    }
    Ok(things)
}

/// Finds what keeps the claims of things without a guard apart.
fn find_known(
    alloc: Global,
    lines: &[Line],
    guards: Guards,
    all: &[Listing],
) -> Result<Known, NotFound> {
    let Ok(things) = unguarded(alloc, &guards, all) else {
        return Err(NotFound::NoMemory);
    };
    let handed = if things.is_empty() {
        things
    } else {
        find_handed(alloc, lines, &things)?
    };
    Ok(Known { guards, handed })
}

/// What is said of a thing whose claims are kept apart.
fn write_never<K: Sink>(
    out: &mut K,
    names: &Names,
    listing: &Listing,
    kept: Kept,
) -> Result<(), Failed> {
    write_item(out, names, "never: thing ", Kind::Thing, listing.thing)?;
    write_count(out, ": ", listing.count, " claims")?;
    match kept {
        Kept::By { guard } => write_guard(out, names, guard)?,
        Kept::HandedOver => write_all(out, b", handed over")?,
    }
    write_all(out, b"\n")
}

/// What is said of a thing of which nothing is known to keep the claims apart.
fn write_unguarded<K: Sink>(
    out: &mut K,
    names: &Names,
    listing: &Listing,
    may: bool,
) -> Result<(), Failed> {
    let words = if may {
        "may: thing "
    } else {
        "unknown: thing "
    };
    write_item(out, names, words, Kind::Thing, listing.thing)?;
    write_count(out, ": ", listing.count, " claims\n")?;
    for group in &listing.groups {
        write_group(out, names, group)?;
    }
    Ok(())
}

/// How many things are told of by each answer.
#[derive(Clone, Copy)]
struct Counts {
    may: u64,
    unknown: u64,
    never: u64,
}

/// Tells of a thing of which nothing is known to keep the claims apart; whether an order overlaps them.
fn tell_unguarded<K: Sink>(
    alloc: Global,
    lines: &[Line],
    names: &Names,
    listing: &Listing,
    out: &mut K,
) -> Result<bool, Status> {
    let Ok(found) = find_witness(alloc, lines, listing.thing) else {
        return Err(Status::NoMemory);
    };
    let may = found.is_some();
    match write_unguarded(out, names, listing, may) {
        Ok(()) => Ok(may),
        Err(_) => Err(Status::WriteFault),
    }
}

/// Tells of the things of which nothing is known to keep the claims apart.
fn tell_open<K: Sink>(
    alloc: Global,
    lines: &[Line],
    names: &Names,
    known: &Known,
    all: &[Listing],
    out: &mut K,
) -> Result<Counts, Status> {
    let mut counts = Counts {
        may: 0,
        unknown: 0,
        never: 0,
    };
    for listing in all {
        if known.of(listing.thing).is_some() {
            counts.never = counts.never.saturating_add(1);
        } else if tell_unguarded(alloc, lines, names, listing, out)? {
            counts.may = counts.may.saturating_add(1);
        } else {
            counts.unknown = counts.unknown.saturating_add(1);
        }
    }
    Ok(counts)
}

/// Tells of the things whose claims are kept apart, and of how many things each answer was given.
fn write_rest<K: Sink>(
    out: &mut K,
    names: &Names,
    known: &Known,
    all: &[Listing],
    counts: Counts,
) -> Result<(), Failed> {
    for listing in all {
        if let Some(kept) = known.of(listing.thing) {
            write_never(out, names, listing, kept)?;
        }
    }
    write_count(out, "things: ", counts.may, " may overlap, ")?;
    write_count(out, "", counts.unknown, " unknown, ")?;
    write_count(out, "", counts.never, " never\n")
}

/// The status of a report with these counts.
fn status_of(counts: Counts) -> Status {
    if 0 < counts.may {
        Status::May
    } else if 0 < counts.unknown {
        Status::Unknown
    } else {
        Status::Legal
    }
}

/// What is said of the claims of a run that is legal so far.
fn tell<K: Sink>(
    alloc: Global,
    lines: &[Line],
    names: &Names,
    guards: Guards,
    out: &mut K,
) -> Status {
    let Ok(claims) = claims_of(alloc, lines) else {
        return Status::NoMemory;
    };
    let Ok(things) = list_things(alloc, names, &claims) else {
        return Status::NoMemory;
    };
    let Ok(known) = find_known(alloc, lines, guards, &things.all) else {
        return Status::NoMemory;
    };
    let counts = match tell_open(alloc, lines, names, &known, &things.all, out) {
        Ok(counts) => counts,
        Err(status) => return status,
    };
    match write_rest(out, names, &known, &things.all, counts) {
        Ok(()) => status_of(counts),
        Err(_) => Status::WriteFault,
    }
}

/// What keeps the claims of each thing apart in each order of a run, by the names of the run, which is
/// read twice. Its lines are all kept.
pub fn overlaps<S: Source, K: Sink>(
    alloc: Global,
    sources: &mut Sources<S>,
    out: &mut K,
) -> Status {
    let lines = match read_lines(alloc, &mut sources.first) {
        Ok(lines) => lines,
        Err(unread) => return unread.status(),
    };
    let names = match read_names(alloc, &mut sources.second) {
        Ok(names) => names,
        Err(NotNamed::ReadFault) => return Status::ReadFault,
        Err(NotNamed::NoMemory) => return Status::NoMemory,
    };
    match find_guards(alloc, &lines) {
        Ok(guards) => tell(alloc, &lines, &names, guards, out),
        Err(NotFound::Illegal { .. }) => Status::NotLegal,
        Err(NotFound::NoMemory) => Status::NoMemory,
        // (as where a frame unlocks a mutex and goes on with what that seemed to guard)
        Err(NotFound::WrongGuess) => Status::Unknown,
    }
}
