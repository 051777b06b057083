ghost use Rattle.std.specs.Prelude.{◌≤◌, IfSome};

use std::alloc::Global;
use std::env;
use std::rt::Env;

/// More workers than these aren't started.
pub const MOST_WORKERS: usize = 64;

/// What a server's words ask for: `PORT WORD.. [--workers N]`.
#[derive(Drop)]
pub struct ServerWords {
    /// Where it listens; 0 for any free port.
    pub port: u16,
    /// How many threads run the context, from 1 on.
    pub workers: usize,
    /// The other words, in their order.
    pub others: Vec<String>,
    ghost some: { 1 ≤ workers },
    ghost few: { workers ≤ 64 },
}

/// How many workers a word asks for.
fn workers_of(word: &str) -> Option<usize>
    ensures some { IfSome result (λ workers. 1 ≤ workers) }
    ensures few { IfSome result (λ workers. workers ≤ 64) }
{
    let workers = word.parse::<usize>().ok()?;
    if 1 <= workers && workers <= MOST_WORKERS {
        Some(workers)
    } else {
        None
    }
}

/// Takes a word that isn't the port: a number of workers, where one is due.
fn take_word(asked: &mut ServerWords, alloc: Global, word: &str, counts: bool) -> Option<()> {
    if counts {
        asked.workers = workers_of(word)?;
        Some(())
    } else {
        let word = String::from_str(alloc, word).ok()?;
        asked.others.push(word).ok()
    }
}

/// Takes the words behind the port.
fn take_words(asked: &mut ServerWords, alloc: Global, words: &[String]) -> Option<()> {
    let mut counts = false;
    for word in words {
        if !counts && word.as_str() == "--workers" {
            counts = true;
        } else {
            take_word(asked, alloc, word.as_str(), counts)?;
            counts = false;
        }
    }
    if counts { None } else { Some(()) }
}

/// What these words ask for.
fn asked_of(alloc: Global, words: &[String]) -> Option<ServerWords> {
    let (port, rest) = words.split_first()?;
    let mut asked = ServerWords {
        port: port.as_str().parse::<u16>().ok()?,
        workers: 1,
        others: Vec::new(alloc),
    };
    take_words(&mut asked, alloc, rest)?;
    Some(asked)
}

/// What the words of the program's command line ask for, one worker where they don't say. `None` where the first is
/// no port, or `--workers` isn't followed by a number from 1 to `MOST_WORKERS`, and without memory.
pub fn words_of<R: Env + AllocGlobal>(rt: &R) -> Option<ServerWords> {
    let words = env::args(rt)
        .ok()?
        .skip(1)
        .collect::<Vec<String>>(rt.alloc())
        .ok()?;
    asked_of(rt.alloc(), words.as_slice())
}
