//! How the lines of a trace look, by their first word.

/// What a field of a line says.
#[derive(Clone, Copy)]
pub enum Field {
    /// The number of an act.
    Act,
    /// The number of the act that stopped, or `-`.
    StopAct,
    /// The number of an operation.
    Operation,
    /// A completion code.
    Code,
    /// How many bytes were moved.
    Size,
    /// What a handler returned.
    Mark,
    /// A scripted time.
    Time,
}

impl Field {
    /// Whether its numbers have 64 bits, and not 32.
    pub(crate) fn is_wide(self) -> bool {
        matches!(self, Field::Mark | Field::Time)
    }

    /// What is wrong where it is missing.
    pub(crate) fn missing(self) -> &'static str {
        match self {
            Field::Act => "the number of the act is missing",
            Field::StopAct => "the number of the act, or `-`, is missing",
            Field::Operation => "the number of the operation is missing",
            Field::Code => "the code is missing",
            Field::Size => "the size is missing",
            Field::Mark => "the mark is missing",
            Field::Time => "the time is missing",
        }
    }
}

/// The line of a kind of event.
pub struct EventWords {
    /// Its first word.
    pub name: &'static str,
    /// What stands behind its first word.
    pub fields: &'static [Field],
    /// Such a line.
    pub example: &'static str,
}

const NOTHING: &[Field] = &[];

const ACT: &[Field] = &[Field::Act];

const STOP: &[Field] = &[Field::StopAct];

const OUTCOME: &[Field] = &[Field::Operation, Field::Code, Field::Size];

const MARKED: &[Field] = &[Field::Operation, Field::Mark];

const TIME: &[Field] = &[Field::Time];

/// The lines of all kinds of events.
const LINES: &[EventWords] = &[
    EventWords {
        name: "call",
        fields: ACT,
        example: "call 0",
    },
    EventWords {
        name: "back",
        fields: ACT,
        example: "back 0",
    },
    EventWords {
        name: "stop",
        fields: STOP,
        example: "stop 0",
    },
    EventWords {
        name: "begin",
        fields: OUTCOME,
        example: "begin 0 ok 0",
    },
    EventWords {
        name: "end",
        fields: MARKED,
        example: "end 0 1000",
    },
    EventWords {
        name: "take",
        fields: ACT,
        example: "take 0",
    },
    EventWords {
        name: "done",
        fields: OUTCOME,
        example: "done 0 ok 0",
    },
    EventWords {
        name: "tick",
        fields: TIME,
        example: "tick 5",
    },
    EventWords {
        name: "last",
        fields: NOTHING,
        example: "last",
    },
    EventWords {
        name: "fault",
        fields: NOTHING,
        example: "fault",
    },
    EventWords {
        name: "ended",
        fields: NOTHING,
        example: "ended",
    },
    EventWords {
        name: "stopped",
        fields: NOTHING,
        example: "stopped",
    },
    EventWords {
        name: "polled",
        fields: NOTHING,
        example: "polled",
    },
    EventWords {
        name: "restart",
        fields: NOTHING,
        example: "restart",
    },
    EventWords {
        name: "drop",
        fields: MARKED,
        example: "drop 0 1000",
    },
];

/// The line that begins with this word.
pub fn event_words(word: &[u8]) -> Option<&'static EventWords> {
    for line in LINES {
        if line.name.as_bytes() == word {
            return Some(line);
        }
    }
    None
}

/// The first words of all lines.
pub(crate) const EVENTS: &str =
    "`call`, `back`, `stop`, `begin`, `end`, `take`, `done`, `tick`, `last`, `fault`, `ended`, \
    `stopped`, `polled`, `restart`, `drop`";

/// The words of the codes.
pub(crate) const CODES: &str = "`ok`, `aborted`, `eof`, `not_found`, `bad`, `broken`, `reset`";

/// Whether a word is one of these.
pub(crate) fn is_among(words: &[&str], word: &[u8]) -> bool {
    for one in words {
        if one.as_bytes() == word {
            return true;
        }
    }
    false
}

/// Whether a word is that of a code.
pub(crate) fn is_code(word: &[u8]) -> bool {
    is_among(
        &[
            "ok",
            "aborted",
            "eof",
            "not_found",
            "bad",
            "broken",
            "reset",
        ],
        word,
    )
}
