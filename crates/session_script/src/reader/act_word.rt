ghost use Rattle.std.specs.Prelude.{◌≡◌, false, OnOk};
ghost use Rattle.session_script.specs.Acts.{context_word, timer_word, stream_word, act_word_of, act_word};

use crate::kind::{is, misplaced};
use crate::refusal::Rule;

/// The words that begin an act.
#[derive(Clone, Copy)]
pub(crate) enum ActWord {
    Post,
    Defer,
    Dispatch,
    Expires,
    ExpiresAt,
    Wait,
    Cancel,
    CancelOne,
    Emit,
    ReadSome,
    Read,
    Until,
    WriteSome,
    Write,
    Close,
    Release,
    Stop,
}

/// The word of a posting, of `release` or of `stop`.
#[tactic(auto, unfolding(crate::specs::Acts::context_word))]
fn context_word(bytes: &[u8]) -> Option<ActWord>
    ensures { result ≡ context_word bytes.now }
{
    if is(bytes, b"post") {
        Some(ActWord::Post)
    } else if is(bytes, b"defer") {
        Some(ActWord::Defer)
    } else if is(bytes, b"dispatch") {
        Some(ActWord::Dispatch)
    } else if is(bytes, b"release") {
        Some(ActWord::Release)
    } else if is(bytes, b"stop") {
        Some(ActWord::Stop)
    } else {
        None
    }
}

/// The word of an act on a timer or a slot. `expiresat` belongs to version 2.
#[tactic(auto, unfolding(crate::specs::Acts::timer_word))]
fn timer_word(version: u8, bytes: &[u8]) -> Option<ActWord>
    ensures { result ≡ timer_word version bytes.now }
{
    if is(bytes, b"expires") {
        Some(ActWord::Expires)
    } else if is(bytes, b"expiresat") && version != 1 {
        Some(ActWord::ExpiresAt)
    } else if is(bytes, b"wait") {
        Some(ActWord::Wait)
    } else if is(bytes, b"cancel") {
        Some(ActWord::Cancel)
    } else if is(bytes, b"cancelone") {
        Some(ActWord::CancelOne)
    } else if is(bytes, b"emit") {
        Some(ActWord::Emit)
    } else {
        None
    }
}

/// The word of an act on a stream.
#[tactic(auto, unfolding(crate::specs::Acts::stream_word))]
fn stream_word(bytes: &[u8]) -> Option<ActWord>
    ensures { result ≡ stream_word bytes.now }
{
    if is(bytes, b"readsome") {
        Some(ActWord::ReadSome)
    } else if is(bytes, b"read") {
        Some(ActWord::Read)
    } else if is(bytes, b"until") {
        Some(ActWord::Until)
    } else if is(bytes, b"writesome") {
        Some(ActWord::WriteSome)
    } else if is(bytes, b"write") {
        Some(ActWord::Write)
    } else if is(bytes, b"close") {
        Some(ActWord::Close)
    } else {
        None
    }
}

/// The act that a token begins in a script of this version, if it is an act word.
#[tactic(auto, unfolding(crate::specs::Acts::act_word_of))]
fn act_word_of(version: u8, bytes: &[u8]) -> Option<ActWord>
    ensures { result ≡ act_word_of version bytes.now }
{
    if let Some(word) = context_word(bytes) {
        Some(word)
    } else if let Some(word) = timer_word(version, bytes) {
        Some(word)
    } else {
        stream_word(bytes)
    }
}

/// An act word, while there is room for one more act.
#[tactic(auto, unfolding(crate::specs::Acts::act_word))]
pub(crate) fn act_word(version: u8, full: bool, bytes: &[u8]) -> Result<ActWord, Rule>
    ensures value { result ≡ act_word version full bytes.now }
    ensures room { OnOk result (full ≡ false) }
{
    match act_word_of(version, bytes) {
        Some(word) => { if full { Err(Rule::Limit) } else { Ok(word) } }
        None => Err(misplaced(bytes)),
    }
}
