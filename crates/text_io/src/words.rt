use std::rt::Env;
use std::{env, io};

/// Why there is no command line.
#[derive(Clone, Copy, Debug, PartialEq, Eq)]
pub enum NoWords {
    /// A word isn't UTF-8. The command line is faulty as a whole, whatever its other words say.
    Unreadable,
    /// Memory was asked for and not given.
    NoMemory,
}

/// The words behind the program's name. No contract can say which words the system gives.
pub fn words_of<R: Env + AllocGlobal>(rt: &R) -> Result<Vec<String>, NoWords> {
    let args = match env::args(rt) {
        Ok(args) => args,
        Err(error) if error.kind() == io::ErrorKind::OutOfMemory => return Err(NoWords::NoMemory),
        Err(_) => return Err(NoWords::Unreadable),
    };
    match args.skip(1).collect(rt.alloc()) {
        Ok(words) => Ok(words),
        Err(_) => Err(NoWords::NoMemory),
    }
}
