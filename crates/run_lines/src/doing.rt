ghost use Rattle.std.specs.Prelude.{◌≡◌, Ok};
ghost use Rattle.run_lines.specs.Reading.{HasOne, Rest, call_in, doing_in, one_in, outcome_in, words_left};

use crate::bad_line::BadLine;
use crate::code::Code;
use crate::line::Doing;
use crate::verb::Verb;
use crate::words::Words;

/// What happened, of which the verb is read already.
#[tactic(auto, unfolding(crate::specs::Reading::doing_in))]
pub(crate) fn doing_of(verb: Verb, words: &mut Words<'_>) -> Result<Doing, BadLine>
    ensures { result ≡ doing_in verb (words_left words.old) }
{
    match verb {
        Verb::Call => call_of(words),
        Verb::Done => {
            let (op, code, size) = outcome_of(words)?;
            Ok(Doing::Done { op, code, size })
        }
        Verb::Begin => {
            let (op, code, size) = outcome_of(words)?;
            Ok(Doing::Begin { op, code, size })
        }
        _ => said_of_one(verb, one_of(words)),
    }
}

/// What a verb says of the number behind it.
#[tactic(auto, unfolding(crate::specs::Reading::doing_in))]
fn said_of_one(verb: Verb, number: Result<u64, BadLine>) -> Result<Doing, BadLine>
    requires { HasOne verb }
    ensures { (words : Rest) → number ≡ one_in words → result ≡ doing_in verb words }
{
    match number {
        Ok(number) => Ok(with_one(verb, number)),
        Err(bad) => Err(bad),
    }
}

/// What a verb says of one number.
#[tactic(auto, unfolding(crate::specs::Reading::doing_in))]
fn with_one(verb: Verb, number: u64) -> Doing
    requires { HasOne verb }
    ensures { (words : Rest) → one_in words ≡ Ok number → doing_in verb words ≡ Ok result }
{
    match verb {
        Verb::Back => Doing::Back { op: number },
        Verb::End => Doing::End { op: number },
        Verb::Throw => Doing::Throw { op: number },
        Verb::Drop => Doing::Drop { op: number },
        Verb::Claim => Doing::Claim { thing: number },
        Verb::Release => Doing::Release { thing: number },
        Verb::Lock => Doing::Lock { lock: number },
        Verb::Unlock => Doing::Unlock { lock: number },
        Verb::Mark => Doing::Mark { mark: number },
        Verb::After => Doing::After { mark: number },
        Verb::Cancel => Doing::Cancel { thing: number },
        Verb::Work => Doing::Work { context: number },
        Verb::Stop => Doing::Stop { context: number },
        Verb::Restart => Doing::Restart { context: number },
        Verb::Call | Verb::Done | Verb::Begin => unreachable!(),
    }
}

/// A number alone.
#[tactic(auto, unfolding(crate::specs::Reading::one_in))]
fn one_of(words: &mut Words<'_>) -> Result<u64, BadLine>
    ensures { result ≡ one_in (words_left words.old) }
{
    let number = words.number(3)?;
    words.end(4)?;
    Ok(number)
}

/// An operation, its code and its size.
#[tactic(auto, unfolding(crate::specs::Reading::outcome_in))]
fn outcome_of(words: &mut Words<'_>) -> Result<(u64, Code, u64), BadLine>
    ensures { result ≡ outcome_in (words_left words.old) }
{
    let op = words.number(3)?;
    let code = words.code(4)?;
    let size = words.number(5)?;
    words.end(6)?;
    Ok((op, code, size))
}

/// An operation that is initiated.
#[tactic(auto, unfolding(crate::specs::Reading::call_in))]
fn call_of(words: &mut Words<'_>) -> Result<Doing, BadLine>
    ensures { result ≡ call_in (words_left words.old) }
{
    let op = words.number(3)?;
    let word = words.word(4)?;
    let context = words.number(5)?;
    let strand = words.optional(6)?;
    let thing = words.optional(7)?;
    words.end(8)?;
    Ok(Doing::Call {
        op,
        word,
        context,
        strand,
        thing,
    })
}
