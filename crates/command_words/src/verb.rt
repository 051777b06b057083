use crate::pages;

/// What the first word asks for.
#[derive(Clone, Copy)]
pub(crate) enum Verb {
    Run,
    Check,
    Why,
    Picture,
    Orders,
    Upgrade,
}

/// An option of a command.
#[derive(Clone, Copy)]
pub(crate) enum Choice {
    Net,
    Json,
    Html,
    Workers,
    Out,
    Help,
}

/// The words that ask for something.
const VERBS: &[(&str, Verb)] = &[
    ("run", Verb::Run),
    ("check", Verb::Check),
    ("why", Verb::Why),
    ("picture", Verb::Picture),
    ("orders", Verb::Orders),
    ("upgrade", Verb::Upgrade),
];

/// The names of options.
const CHOICES: &[(&str, Choice)] = &[
    ("--net", Choice::Net),
    ("--json", Choice::Json),
    ("--html", Choice::Html),
    ("--workers", Choice::Workers),
    ("-o", Choice::Out),
    ("--out", Choice::Out),
    ("-h", Choice::Help),
    ("--help", Choice::Help),
];

impl Verb {
    /// The verb that a word is.
    pub(crate) fn of(word: &str) -> Option<Verb> {
        for (name, verb) in VERBS {
            if *name == word {
                return Some(*verb);
            }
        }
        None
    }

    /// Its page of help.
    pub(crate) fn page(self) -> &'static str {
        match self {
            Verb::Run => pages::RUN,
            Verb::Check => pages::CHECK,
            Verb::Why => pages::WHY,
            Verb::Picture => pages::PICTURE,
            Verb::Orders => pages::ORDERS,
            Verb::Upgrade => pages::UPGRADE,
        }
    }

    /// How it is used.
    pub(crate) fn usage(self) -> &'static str {
        match self {
            Verb::Run => "asio run [OPTIONS] <FILE>",
            Verb::Check => "asio check [OPTIONS] <FILE>...",
            Verb::Why => "asio why [OPTIONS] <FILE> [TRACE]",
            Verb::Picture => "asio picture [OPTIONS] <FILE> [TRACE]",
            Verb::Orders => pages::ORDERS_USAGE,
            Verb::Upgrade => "asio upgrade [OPTIONS] <FILE>",
        }
    }

    /// How many files it takes at most.
    pub(crate) fn most_files(self) -> usize {
        match self {
            Verb::Run | Verb::Upgrade => 1,
            Verb::Why | Verb::Picture => 2,
            Verb::Check | Verb::Orders => usize::MAX,
        }
    }

    /// Whether it has an option.
    fn has(self, choice: Choice) -> bool {
        match choice {
            Choice::Help => true,
            Choice::Json => !matches!(self, Verb::Orders),
            Choice::Net => !matches!(self, Verb::Upgrade | Verb::Orders),
            Choice::Html | Choice::Out => matches!(self, Verb::Picture),
            Choice::Workers => matches!(self, Verb::Run),
        }
    }

    /// The option of this name, if it has one.
    pub(crate) fn choice(self, name: &str) -> Option<Choice> {
        let choice = choice_of(name)?;
        if self.has(choice) { Some(choice) } else { None }
    }
}

/// The option of this name.
fn choice_of(name: &str) -> Option<Choice> {
    for (one, choice) in CHOICES {
        if *one == name {
            return Some(*choice);
        }
    }
    None
}
