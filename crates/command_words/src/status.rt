ghost use Rattle.std.specs.Prelude.{◌≡◌, ◌≤◌, ◌⊎◌};
ghost use Rattle.command_words.specs.CommandStatus.{IsWorst, number_of};

/// How a command ended: the program's exit status. The numbers are those of the libraries.
#[derive(Clone, Copy)]
pub enum CommandStatus {
    /// All was done and written; a trace that was judged is legal.
    Done,
    /// The words are no command.
    Usage,
    /// A script is refused.
    Refused,
    /// A file couldn't be read.
    ReadFault,
    /// Writing failed.
    WriteFault,
    /// The reactor failed; the trace shows it.
    ReactorFault,
    /// Memory was asked for and not given.
    NoMemory,
    /// There is no trace, or it is bad.
    BadTrace,
    /// The trace isn't one of a legal history.
    Illegal,
}

impl CommandStatus {
    /// The exit status, from 0 to 8.
    pub fn number(self) -> u8
        ensures { result ≡ number_of self }
    {
        self as u8
    }

    /// The worse of two: the one with the greater number.
    fn or_worse(self, other: CommandStatus) -> CommandStatus
        ensures first { number_of self ≤ number_of result }
        ensures second { number_of other ≤ number_of result }
        ensures one { (result ≡ self) ⊎ (result ≡ other) }
    {
        if self.number() < other.number() {
            other
        } else {
            self
        }
    }
}

/// The worst of several statuses: the one with the greatest number; `Done` where there are none.
pub fn worst_of(statuses: &[CommandStatus]) -> CommandStatus
    ensures { IsWorst statuses.now result }
{
    let mut worst = CommandStatus::Done;
    for status in statuses {
        worst = worst.or_worse(*status);
    }
    worst
}
