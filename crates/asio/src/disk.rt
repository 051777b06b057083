use asio_command::{ReadFile, Unreadable};
use asio_types::{NoMemory, Source, StdSource};
use std::alloc::Global;
use std::cell::Cell;
use std::fs;
use std::fs::OpenFile;
use std::io::{ErrorKind, Read};
use std::rt::Files;
use text_io::{Unfinished, read_text};
use trace_check::MOST_INPUT_READ;

/// The files of the system by their names, and standard input by the name `-`, once.
#[derive(Drop)]
pub(crate) struct DiskFiles<'f, R, I> {
    rt: &'f R,
    alloc: Global,
    stdin: Cell<Option<StdSource<I>>>,
}

/// A file as it was read.
#[derive(Drop)]
pub(crate) struct DiskFile<'w> {
    name: &'w str,
    text: Result<Vec<u8>, Unreadable>,
}

impl DiskFile<'_> {
    /// Its name and what was read.
    pub(crate) fn read_file(&self) -> ReadFile<'_> {
        ReadFile {
            name: self.name,
            text: match &self.text {
                Ok(text) => Ok(text.as_slice()),
                Err(why) => Err(*why),
            },
        }
    }
}

fn read<S: Source>(alloc: Global, source: &mut S) -> Result<Vec<u8>, Unreadable> {
    match read_text(alloc, source, MOST_INPUT_READ) {
        Ok(text) => Ok(text),
        Err(Unfinished::Failed) => Err(Unreadable::Failed),
        Err(Unfinished::NoMemory) => Err(Unreadable::NoMemory),
    }
}

fn why(kind: ErrorKind) -> Unreadable {
    match kind {
        ErrorKind::NotFound => Unreadable::Missing,
        ErrorKind::PermissionDenied => Unreadable::Denied,
        ErrorKind::IsADirectory => Unreadable::Folder,
        ErrorKind::OutOfMemory => Unreadable::NoMemory,
        _ => Unreadable::Failed,
    }
}

/// The text of the file of the system with this name.
fn read_named<R: Files>(rt: &R, alloc: Global, name: &str) -> Result<Vec<u8>, Unreadable> {
    let file = match fs::open(rt, name) {
        Ok(file) => file,
        Err(error) => return Err(why(error.kind())),
    };
    let is_folder = match file.metadata() {
        Ok(data) => data.is_dir(),
        Err(_) => false,
    };
    if is_folder {
        return Err(Unreadable::Folder);
    }
    read(alloc, &mut StdSource::of(file))
}

impl<'f, R, I> DiskFiles<'f, R, I> {
    pub(crate) fn of(rt: &'f R, alloc: Global, stdin: I) -> DiskFiles<'f, R, I> {
        DiskFiles {
            rt,
            alloc,
            stdin: Cell::new(Some(StdSource::of(stdin))),
        }
    }
}

impl<'f, R: Files, I: Read + Drop> DiskFiles<'f, R, I> {
    /// Reads standard input, once.
    fn read_stdin(&self) -> Result<Vec<u8>, Unreadable> {
        match self.stdin.replace(None) {
            Some(mut stdin) => read(self.alloc, &mut stdin),
            None => Err(Unreadable::ReadBefore),
        }
    }

    /// Reads a file.
    pub(crate) fn file<'w>(&self, name: &'w str) -> DiskFile<'w> {
        DiskFile {
            name,
            text: if name == "-" {
                self.read_stdin()
            } else {
                read_named(self.rt, self.alloc, name)
            },
        }
    }

    /// Reads files, in their order.
    pub(crate) fn all<'w>(&self, names: &[&'w str]) -> Result<Vec<DiskFile<'w>>, NoMemory> {
        let mut files = Vec::new(self.alloc);
        for name in names {
            files.push(self.file(*name))?;
        }
        Ok(files)
    }

    /// The handle.
    pub(crate) fn rt(&self) -> &'f R {
        self.rt
    }

    /// Memory.
    pub(crate) fn alloc(&self) -> Global {
        self.alloc
    }
}
