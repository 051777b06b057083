use run_picture::Window;
use run_rules::{Level, Strictness};

/// What is asked of a run.
#[derive(Clone, Copy, Debug, PartialEq, Eq)]
pub enum Question {
    /// The verdict on it.
    Check,
    /// The verdict, and which line stands against the one that breaks a rule.
    Why,
    /// A picture of the lines of a window.
    Picture { window: Window },
    /// What keeps claims apart in each order of it.
    Overlaps,
    /// An order of it that overlaps two claims of this thing.
    Order { thing: u64 },
}

/// A command: what is asked, at which level, of which file. The file `-` is standard input, of which
/// `why` and `overlaps` can't be asked.
#[derive(Clone, Copy)]
pub struct Form<'a> {
    pub question: Question,
    pub level: Level,
    pub file: &'a str,
}

/// What is asked where no option is given.
const PLAIN: Level = Level {
    streams: false,
    strictness: Strictness::Plain,
};

/// The command that the words behind the program's name are.
pub fn form_of(words: &[String]) -> Option<Form<'_>> {
    let [first, ..] = words else {
        return None;
    };
    if first.as_bytes() == b"picture".as_slice() {
        picture_of(words)
    } else if first.as_bytes() == b"order".as_slice() {
        order_of(words)
    } else {
        verdict_of(words)
    }
}

/// A command for a verdict.
fn verdict_of(words: &[String]) -> Option<Form<'_>> {
    match words {
        [question, file] => form_by(question.as_str(), PLAIN, file.as_str()),
        [question, option, file] => {
            form_by(
                question.as_str(),
                with(PLAIN, option.as_str())?,
                file.as_str(),
            )
        }
        [question, one, other, file] => {
            let level = with(with(PLAIN, one.as_str())?, other.as_str())?;
            form_by(question.as_str(), level, file.as_str())
        }
        _ => None,
    }
}

/// A level with what this option asks for, too.
fn with(level: Level, option: &str) -> Option<Level> {
    if option.as_bytes() == b"--streams".as_slice() {
        Some(Level {
            streams: true,
            strictness: level.strictness,
        })
    } else if option.as_bytes() == b"--strict".as_slice() {
        Some(Level {
            streams: level.streams,
            strictness: Strictness::Strict,
        })
    } else {
        None
    }
}

fn form_by<'a>(word: &str, level: Level, file: &'a str) -> Option<Form<'a>> {
    let question = question_of(word)?;
    if question != Question::Check && file.as_bytes() == b"-".as_slice() {
        return None;
    }
    Some(Form {
        question,
        level,
        file,
    })
}

fn question_of(word: &str) -> Option<Question> {
    if word.as_bytes() == b"check".as_slice() {
        Some(Question::Check)
    } else if word.as_bytes() == b"why".as_slice() {
        Some(Question::Why)
    } else if word.as_bytes() == b"overlaps".as_slice() {
        Some(Question::Overlaps)
    } else {
        None
    }
}

/// A command for an order.
fn order_of(words: &[String]) -> Option<Form<'_>> {
    let [_, file, number] = words else {
        return None;
    };
    let Ok(thing) = number.as_str().parse::<u64>() else {
        return None;
    };
    Some(Form {
        question: Question::Order { thing },
        level: PLAIN,
        file: file.as_str(),
    })
}

/// The ends of a window as they are asked for.
#[derive(Clone, Copy)]
struct Ends {
    from: u64,
    to: u64,
}

/// All lines, as far as they are drawn.
const ALL: Ends = Ends {
    from: 1,
    to: u64::MAX,
};

/// A command for a picture.
fn picture_of(words: &[String]) -> Option<Form<'_>> {
    match words {
        [_, file] => picture_by(ALL, file.as_str()),
        [_, file, option, number] => {
            let ends = with_end(ALL, option.as_str(), number.as_str())?;
            picture_by(ends, file.as_str())
        }
        [_, file, one, first, other, second] => {
            let ends = with_end(ALL, one.as_str(), first.as_str())?;
            let ends = with_end(ends, other.as_str(), second.as_str())?;
            picture_by(ends, file.as_str())
        }
        _ => None,
    }
}

/// A window with the end that this option names.
fn with_end(ends: Ends, option: &str, number: &str) -> Option<Ends> {
    let Ok(line) = number.parse::<u64>() else {
        return None;
    };
    if option.as_bytes() == b"--from".as_slice() {
        Some(Ends {
            from: line,
            to: ends.to,
        })
    } else if option.as_bytes() == b"--to".as_slice() {
        Some(Ends {
            from: ends.from,
            to: line,
        })
    } else {
        None
    }
}

fn picture_by(ends: Ends, file: &str) -> Option<Form<'_>> {
    let window = Window::of(ends.from, ends.to);
    Some(Form {
        question: Question::Picture { window },
        level: PLAIN,
        file,
    })
}
