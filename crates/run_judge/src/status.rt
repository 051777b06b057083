use run_verdict::Ending;

/// How the program ends: its exit status.
#[derive(Clone, Copy, Debug, PartialEq, Eq)]
pub enum Status {
    /// The run is legal.
    Legal,
    /// The words are no command.
    Usage,
    /// Reading failed, or the file can't be opened.
    ReadFault,
    /// Writing failed.
    WriteFault,
    /// Memory was asked for and not given.
    NoMemory,
    /// A line is none of a run.
    Bad,
    /// The run isn't legal: a line breaks a rule, or something is under way at the end.
    NotLegal,
    /// Of some claims of the run it isn't known that they never overlap.
    Unknown,
    /// Some claims of the run overlap in another order of it.
    May,
}

impl Status {
    /// The status of what came of a run.
    pub fn of(ending: &Ending) -> Status {
        match ending {
            Ending::Legal => Status::Legal,
            Ending::SoFar { .. } | Ending::Illegal { .. } => Status::NotLegal,
            Ending::Bad { .. }
            | Ending::NoHeader
            | Ending::NoLineFeed { .. }
            | Ending::TooLong { .. } => Status::Bad,
            Ending::ReadFault { .. } => Status::ReadFault,
            Ending::NoRoom { .. } => Status::NoMemory,
        }
    }

    pub fn number(self) -> u8 {
        match self {
            Status::Legal => 0,
            Status::Usage => 1,
            Status::ReadFault => 3,
            Status::WriteFault => 4,
            Status::NoMemory => 6,
            Status::Bad => 7,
            Status::NotLegal => 8,
            Status::Unknown => 9,
            Status::May => 10,
        }
    }

    /// The line that is written to standard error: none with a verdict.
    pub fn note(self) -> &'static [u8] {
        match self {
            Status::Legal | Status::Bad | Status::NotLegal | Status::Unknown | Status::May => b"",
            Status::Usage => b"run_judge: usage: run_judge check|why [--streams] [--strict] FILE, \
                run_judge overlaps FILE, run_judge order FILE THING, or run_judge picture FILE [--from LINE] [--to LINE]\n",
            Status::ReadFault => b"run_judge: read fault\n",
            Status::WriteFault => b"run_judge: write fault\n",
            Status::NoMemory => b"run_judge: no memory\n",
        }
    }
}
