use server_program::{ServerWords, addresses_of, words_of};
use std::net::IpAddr;
use std::rt::Env;

/// A head never has more than so many seconds.
const MOST_IDLE: u64 = 3600;

/// How many seconds a head has where no word says so.
const IDLE: u64 = 60;

/// What the program's words ask for.
#[derive(Drop)]
pub(crate) struct Asked {
    pub(crate) words: ServerWords,
    /// A head has to come whole within so many seconds.
    pub(crate) idle: u64,
    /// Where it listens.
    pub(crate) addresses: Vec<IpAddr>,
}

/// How many seconds a word asks for.
fn idle_of(word: &str) -> Option<u64> {
    let idle = word.parse::<u64>().ok()?;
    if 1 <= idle && idle <= MOST_IDLE {
        Some(idle)
    } else {
        None
    }
}

/// Takes `--idle SECONDS` out of these words, and answers how many seconds a head has.
fn take_idle(words: &mut Vec<String>) -> Option<u64> {
    let Some(at) = words.iter().position(|word| word.as_str() == "--idle") else {
        return Some(IDLE);
    };
    if words.len() - at < 2 {
        return None;
    }
    let seconds = words.remove(at + 1);
    let _option = words.remove(at);
    idle_of(seconds.as_str())
}

/// What all words ask for; `None` where they ask for nothing that the program does, and without memory.
pub(crate) fn asked_of<R: Env + AllocGlobal>(rt: &R) -> Option<Asked> {
    let mut words = words_of(rt)?;
    let idle = take_idle(&mut words.others)?;
    let addresses = addresses_of(rt.alloc(), words.others.as_slice())?;
    Some(Asked {
        words,
        idle,
        addresses,
    })
}
