/// What the words say beside the files.
#[derive(Clone, Copy)]
pub struct Options {
    /// The reactor is a network, whose bytes nobody told.
    pub net: bool,
    /// Answers are objects, one a line.
    pub json: bool,
    /// A picture stands in a page of its own, with the trace and the reasons.
    pub html: bool,
}

/// What the program is asked to do.
#[derive(Drop)]
pub enum Command<'w> {
    /// Run a script, and write its trace.
    Run {
        /// The file.
        file: &'w str,
        /// Whether streams are sockets, and how the trace is written.
        options: Options,
        /// How many workers each round has, from 1 to 16; as the script says where there is none.
        workers: Option<u8>,
    },
    /// Judge traces.
    Check {
        /// The files: a script and its trace, or files that have both.
        files: Vec<&'w str>,
        /// How they are judged and told.
        options: Options,
    },
    /// Say why a trace is judged as it is.
    Why {
        /// The script, with its trace or without.
        file: &'w str,
        /// The trace.
        trace: Option<&'w str>,
        /// How it is judged and told.
        options: Options,
    },
    /// Draw a session.
    Picture {
        /// The script, with its trace or without.
        file: &'w str,
        /// The trace.
        trace: Option<&'w str>,
        /// The file that gets the picture; standard output where there is none.
        out: Option<&'w str>,
        /// How the trace is judged.
        options: Options,
    },
    /// Say which orders a script may have.
    Orders {
        /// The file.
        file: &'w str,
        /// The words behind the command: the file, and then the question.
        words: Vec<&'w str>,
    },
    /// Write a script in version 2.
    Upgrade {
        /// The file.
        file: &'w str,
        /// How the text is written.
        options: Options,
    },
}
