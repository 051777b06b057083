//! Words become commands, and commands answer over files in memory.

use asio_command::{Prepared, ReadFile, Said, Unreadable, check_files, prepare_run};
use command_words::{Command, CommandStatus, NoCommand, Options, command_in};
use std::alloc::Global;
use std::process::Abort;
use std::test::Fail;

const TEXT: Options = Options {
    net: false,
    json: false,
    html: false,
};

/// A session that is legal.
const LEGAL: &str = "session 1 open { } run 1\n--\nended\n";

/// The same, of which nothing has happened yet.
const CUT: &str = "session 1 open { } run 1\n--\n";

/// A script alone.
const SCRIPT: &str = "session 1 open { } run 1 poll 2\n";

fn file<'t>(name: &'t str, text: &'t str) -> ReadFile<'t> {
    ReadFile {
        name,
        text: Ok(text.as_bytes()),
    }
}

/// These files have this output and this status.
fn says(
    rt: &impl Abort,
    alloc: Global,
    files: &[ReadFile],
    wanted: &str,
    status: CommandStatus,
) -> Result<(), Fail> {
    let mut said = Said::nothing(alloc);
    let ended = check_files(alloc, &mut said, files, TEXT)?;
    assert!(rt; said.out.as_bytes() == wanted.as_bytes() && ended.number() == status.number());
    Ok(())
}

#[test]
fn several_files_have_a_verdict_each_and_the_worst_status(rt: HostRuntime) -> Result<(), Fail> {
    let alloc = rt.alloc();
    let none = ReadFile {
        name: "none",
        text: Err(Unreadable::Missing),
    };
    let several = [file("legal", LEGAL), file("cut", CUT), none];
    let all = "legal: legal\ncut: incomplete after line 0\nnone: unreadable\n";
    says(&rt, alloc, &several, all, CommandStatus::Illegal)?;
    says(
        &rt,
        alloc,
        &[file("legal", LEGAL)],
        "legal\n",
        CommandStatus::Done,
    )
}

/// The script that is run where so many workers are asked for.
fn script_with(alloc: Global, workers: Option<u8>) -> Result<Vec<u8>, Fail> {
    let mut said = Said::nothing(alloc);
    match prepare_run(alloc, &mut said, file("script", SCRIPT), workers, TEXT)? {
        Prepared::Ready(script) => Ok(script.text),
        Prepared::Ended(_) => Err("no script")?,
    }
}

#[test]
fn run_gets_the_script_with_its_workers(rt: HostRuntime) -> Result<(), Fail> {
    let asked = script_with(rt.alloc(), Some(16))?;
    assert!(rt; asked.as_slice() == b"session 1 open { } run 16 poll 16\n".as_slice());
    Ok(())
}

#[test]
fn words_are_commands(rt: HostRuntime) {
    let run = ["run", "-", "--workers", "16", "--json"];
    let command = command_in(rt.alloc(), &run);
    assert!(rt;
        matches!(&command, Ok(Command::Run { file, workers: Some(16), .. }) if *file == "-")
    );
    let check = ["check", "a", "b", "c", "--net"];
    let command = command_in(rt.alloc(), &check);
    assert!(rt;
        matches!(&command, Ok(Command::Check { files, options }) if files.len() == 3 && options.net)
    );
    let more = ["run", "a", "--workers", "17"];
    assert!(rt; matches!(command_in(rt.alloc(), &more), Err(NoCommand::Usage(_))));
    let version = ["--version"];
    assert!(rt; matches!(command_in(rt.alloc(), &version), Err(NoCommand::Shown(_))));
}
