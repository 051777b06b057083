use crate::detail::Detail;
use asio_types::NoMemory;
use itoa::Buffer;
use session_script::{ScriptFault, read_script};
use std::alloc::Global;

/// The words and marks of a script, as they are named.
const WORDS: [&str; 38] = [
    "session",
    "strands",
    "timers",
    "slots",
    "streams",
    "guards",
    "at",
    "feed",
    "end",
    "reset",
    "room",
    "open",
    "{",
    "}",
    "abort",
    "other",
    "-",
    "only",
    "post",
    "defer",
    "dispatch",
    "release",
    "stop",
    "expires",
    "expiresat",
    "wait",
    "cancel",
    "cancelone",
    "emit",
    "readsome",
    "read",
    "until",
    "writesome",
    "write",
    "close",
    "restart",
    "run",
    "poll",
];

/// Bytes, of which a place takes all that are no longer than it wants, or none.
const LEAST_BYTES: &str = "x00";

/// A place in a script, whose tokens before it have no fault: what could stand there is what a
/// script that ends with it isn't refused for.
#[derive(Drop)]
struct TokenPlace {
    text: Vec<u8>,
    before: usize,
    token: u32,
}

impl TokenPlace {
    /// The place behind these bytes.
    fn behind(alloc: Global, before: &[u8], token: u32) -> Result<TokenPlace, NoMemory> {
        let mut text = Vec::new(alloc);
        text.extend_from_slice(before)?;
        text.push(b' ')?;
        let before = text.len();
        Ok(TokenPlace {
            text,
            before,
            token,
        })
    }

    /// Whether this token could stand in the place. Reads the script up to there.
    fn takes(&mut self, alloc: Global, token: &[u8]) -> Result<bool, NoMemory> {
        self.text.truncate(self.before);
        self.text.extend_from_slice(token)?;
        match read_script(alloc, self.text.as_slice()) {
            Ok(_) => Ok(true),
            Err(ScriptFault::Refused(refusal)) => Ok(refusal.token > self.token),
            Err(ScriptFault::NoMemory) => Err(NoMemory),
        }
    }

    fn takes_number(&mut self, alloc: Global, number: u64) -> Result<bool, NoMemory> {
        self.takes(alloc, Buffer::new().format(number).as_bytes())
    }

    /// The least number that could stand in a place: all numbers do from 0 or 1 on, or none does.
    fn least_number(&mut self, alloc: Global) -> Result<Option<u64>, NoMemory> {
        if self.takes_number(alloc, 0)? {
            Ok(Some(0))
        } else if self.takes_number(alloc, 1)? {
            Ok(Some(1))
        } else {
            Ok(None)
        }
    }

    /// The greatest number that could stand in a place where this one could: there all numbers up
    /// to a limit could.
    fn most_number(&mut self, alloc: Global, least: u64) -> Result<u64, NoMemory> {
        let mut most = least;
        let mut step = 1u64 << 63;
        for _ in 0..64u32 {
            let next = most.saturating_add(step);
            if next > most && self.takes_number(alloc, next)? {
                most = next;
            }
            step = step / 2;
        }
        Ok(most)
    }
}

/// One more of what could stand in a place, before it is named.
fn begin_name(detail: &mut Detail, count: &mut u32) -> Result<(), NoMemory> {
    detail.words(if *count == 0 {
        "could stand here: "
    } else {
        ", "
    })?;
    *count = count.saturating_add(1);
    Ok(())
}

/// A word or mark that could stand in a place.
fn name_word(detail: &mut Detail, count: &mut u32, word: &str) -> Result<(), NoMemory> {
    begin_name(detail, count)?;
    detail.words("`")?;
    detail.words(word)?;
    detail.words("`")
}

/// The words and marks that could stand in a place.
fn name_words(
    detail: &mut Detail,
    count: &mut u32,
    alloc: Global,
    place: &mut TokenPlace,
) -> Result<(), NoMemory> {
    for word in WORDS.as_slice() {
        if place.takes(alloc, word.as_bytes())? {
            name_word(detail, count, *word)?;
        }
    }
    if place.takes(alloc, LEAST_BYTES.as_bytes())? {
        begin_name(detail, count)?;
        detail.words("bytes as x6869")?;
    }
    Ok(())
}

/// The numbers that could stand in a place.
fn name_numbers(
    detail: &mut Detail,
    count: &mut u32,
    alloc: Global,
    place: &mut TokenPlace,
) -> Result<(), NoMemory> {
    match place.least_number(alloc)? {
        Some(least) => {
            let most = place.most_number(alloc, least)?;
            begin_name(detail, count)?;
            detail.field("a number from ", least)?;
            detail.field(" to ", most)
        }
        None => Ok(()),
    }
}

/// A line of what could stand behind these bytes, as the token with this number; nothing where
/// nothing could.
pub(crate) fn name_what_could_stand(
    detail: &mut Detail,
    alloc: Global,
    before: &[u8],
    token: u32,
) -> Result<(), NoMemory> {
    let mut place = TokenPlace::behind(alloc, before, token)?;
    let mut count = 0u32;
    name_words(detail, &mut count, alloc, &mut place)?;
    name_numbers(detail, &mut count, alloc, &mut place)?;
    if count > 0 {
        detail.words("\n")?;
    }
    Ok(())
}
