ghost use Rattle.std.specs.Prelude.{◌≡◌, ◌∷◌, [], true, IfOk, IfSome, codes, map, string_bytes};
ghost use Rattle.order_report.specs.Form.{IsBounded, IsForm, IsMost, IsTask};

use crate::reading::{condition_of, event_in};
use asio_types::{Event, NoMemory};
use order_questions::Condition;
use std::alloc::Global;

/// What is asked of a script.
#[derive(Clone, Copy)]
pub enum Task {
    /// How many legal whole histories it has, and one of them.
    Count,
    /// All of them.
    List,
    /// The begins, ends and drops of all of them, each list of these once.
    Handlers,
    /// Whether one meets this condition.
    Can(Condition),
}

/// What the words of a command say.
#[derive(Clone, Copy)]
pub struct Form {
    /// What is asked.
    pub task: Task,
    /// How many histories are looked at, or states where they are counted.
    pub most: u64,
    /// Whether the reactor tells its bytes.
    pub told: bool,
}

/// How many are looked at where the words don't say it.
const USUAL: u64 = 10_000;

/// The bound that a word says.
fn most_of(alloc: Global, word: &String) -> Result<Option<u64>, NoMemory>
    ensures { IfOk result (λ found. IfSome found (IsMost (string_bytes word.now))) }
{
    match event_in(alloc, b"tick ", word.as_bytes(), b"\n")? {
        Some(Event::Tick { now }) => Ok(Some(now)),
        _ => Ok(None),
    }
}

/// Whether a word is this one.
fn is_word(word: &String, wanted: &[u8]) -> bool
    ensures { result ≡ true → wanted.now ≡ string_bytes word.now }
{
    word.as_bytes() == wanted
}

/// What a word alone asks.
fn task_word(word: &String) -> Option<Task>
    ensures { IfSome result (IsTask (string_bytes word.now ∷ [])) }
{
    if is_word(word, b"--list") {
        return Some(Task::List);
    }
    if is_word(word, b"--handlers") {
        return Some(Task::Handlers);
    }
    None
}

/// The question that a text asks.
fn task_can(alloc: Global, text: &String) -> Result<Option<Task>, NoMemory>
    ensures { IfOk result (λ found. IfSome found
        (IsTask (codes "--can" ∷ string_bytes text.now ∷ []))) }
{
    match condition_of(alloc, text.as_bytes())? {
        Some(condition) => Ok(Some(Task::Can(condition))),
        None => Ok(None),
    }
}

/// What two words ask.
fn task_pair(alloc: Global, word: &String, text: &String) -> Result<Option<Task>, NoMemory>
    ensures { IfOk result (λ found. IfSome found
        (IsTask (string_bytes word.now ∷ string_bytes text.now ∷ []))) }
{
    if is_word(word, b"--can") {
        task_can(alloc, text)
    } else {
        Ok(None)
    }
}

/// What is asked by these words.
fn task_of(alloc: Global, words: &[String]) -> Result<Option<Task>, NoMemory>
    ensures { IfOk result (λ found. IfSome found (IsTask (map string_bytes words.now))) }
{
    match words {
        [] => Ok(Some(Task::Count)),
        [word] => Ok(task_word(word)),
        [word, text] => task_pair(alloc, word, text),
        _ => Ok(None),
    }
}

/// The form of these words, with the bound that the word before them says.
fn form_within(
    alloc: Global,
    told: bool,
    number: &String,
    rest: &[String],
) -> Result<Option<Form>, NoMemory>
    ensures { IfOk result (λ found. IfSome found (λ form. (form.told ≡ told)
        × IsBounded (codes "--most" ∷ string_bytes number.now ∷ map string_bytes rest.now) form)) }
{
    let Some(most) = most_of(alloc, number)? else {
        return Ok(None);
    };
    match task_of(alloc, rest)? {
        Some(task) => Ok(Some(Form { task, most, told })),
        None => Ok(None),
    }
}

/// The form of these words, of which the first is known to say a bound.
fn form_behind(
    alloc: Global,
    told: bool,
    word: &String,
    number: &String,
    rest: &[String],
) -> Result<Option<Form>, NoMemory>
    requires { codes "--most" ≡ string_bytes word.now }
    ensures { IfOk result (λ found. IfSome found (λ form. (form.told ≡ told)
        × IsBounded (string_bytes word.now ∷ string_bytes number.now ∷ map string_bytes rest.now)
        form)) }
{
    form_within(alloc, told, number, rest)
}

/// The form of these words, with the usual bound.
fn form_usual(alloc: Global, told: bool, words: &[String]) -> Result<Option<Form>, NoMemory>
    ensures { IfOk result (λ found. IfSome found (λ form. (form.told ≡ told)
        × IsBounded (map string_bytes words.now) form)) }
{
    match task_of(alloc, words)? {
        Some(task) => Ok(Some(Form {
            task,
            most: USUAL,
            told,
        })),
        None => Ok(None),
    }
}

/// The form of these words but for what is known of the reactor.
fn form_bounded(alloc: Global, told: bool, words: &[String]) -> Result<Option<Form>, NoMemory>
    ensures { IfOk result (λ found. IfSome found (λ form. (form.told ≡ told)
        × IsBounded (map string_bytes words.now) form)) }
{
    match words {
        [word, number, rest @ ..] => if is_word(word, b"--most") {
            form_behind(alloc, told, word, number, rest)
        } else {
            form_usual(alloc, told, words)
        },
        _ => form_usual(alloc, told, words),
    }
}

/// The form of these words, of which the first is known to say that bytes are untold.
fn form_net(alloc: Global, word: &String, rest: &[String]) -> Result<Option<Form>, NoMemory>
    requires { codes "--net" ≡ string_bytes word.now }
    ensures { IfOk result (λ found. IfSome found
        (IsForm (string_bytes word.now ∷ map string_bytes rest.now))) }
{
    form_bounded(alloc, false, rest)
}

/// The form of these words where bytes are told.
fn form_told(alloc: Global, words: &[String]) -> Result<Option<Form>, NoMemory>
    ensures { IfOk result (λ found. IfSome found (IsForm (map string_bytes words.now))) }
{
    form_bounded(alloc, true, words)
}

/// The form of the command that the words are.
pub(crate) fn form_of(alloc: Global, words: &[String]) -> Result<Option<Form>, NoMemory>
    ensures { IfOk result (λ found. IfSome found (IsForm (map string_bytes words.now))) }
{
    match words {
        [word, rest @ ..] => if is_word(word, b"--net") {
            form_net(alloc, word, rest)
        } else {
            form_told(alloc, words)
        },
        _ => form_told(alloc, words),
    }
}
