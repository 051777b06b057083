//! The program: it makes the handlers of a session and its reactor, which plays the world in memory
//! or over sockets as the words ask, and runs the session that standard input describes.
#![tactic(auto)]

ghost use Rattle.std.specs.Prelude.{◌≡◌, length};
ghost use Rattle.op_handlers.specs.Job.{answer};
ghost use Rattle.op_handlers.specs.Rack.{IsWholeRack, handlers_in};
ghost use Rattle.session_script.specs.Limits.{most_acts};

use asio_types::{Class, NoMemory, Sink, StdSink, StdSource, SureSink, class_of, write_all};
use op_handlers::{CompletionHandler, Handler, Rack, Ran, Spend};
use reactor_mio::MioReactor;
use reactor_script::ScriptReactor;
use reactor_trait::Reactor;
use session_run::{Status, asio_session, asks_for_sockets, end_buffered};
use session_script::MOST_ACTS;
use std::io::{Stdin, Stdout};
use std::process::ExitCode;
use std::rt::Env;
use std::sync::Wait;
use std::thread::Threads;
use text_io::{BufferedSink, NoWords, words_of};

type Job = Box<dyn FnOnce(Spend) -> Ran + Send>;

/// More bytes than any note has.
const NOTE_ROOM: u32 = 256;

/// The bytes of a trace that go out at a time.
const OUT_ROOM: usize = 8_192;

/// What a job answers that has this number as its run mark and its drop mark.
fn answered(mark: u64, spend: Spend) -> Ran
    ensures { result ≡ answer (record { run = mark; drop = mark }) spend }
{
    match spend {
        Spend::Execute(call) => Ran {
            mark,
            class: class_of(call.code),
            begun: call.begun,
        },
        Spend::Discard => Ran {
            mark,
            class: Class::Ok,
            begun: 0,
        },
    }
}

/// The session of these words, which standard input describes, over this reactor. Its note is kept
/// until all is written, and is written then.
fn session<
    R: Threads + Wait + Sync + AllocGlobal,
    N: Sink,
    X: Reactor + Send,
    H: CompletionHandler + Send,
>(
    rt: &R,
    words: &[String],
    stdin: Stdin,
    stdout: Stdout,
    notes: &mut N,
    reactor: X,
    rack: &mut Rack<H>,
) -> Result<Status, NoMemory>
    requires whole { IsWholeRack rack.old }
    requires count { length (handlers_in rack.old) ≡ most_acts }
{
    let alloc = rt.alloc();
    let mut source = StdSource::of(stdin);
    let mut out = BufferedSink::make(alloc, StdSink::of(stdout), OUT_ROOM)?;
    let mut note = SureSink::make(alloc, NOTE_ROOM)?;
    let (ended, _) = asio_session(
        rt,
        alloc,
        words,
        &mut source,
        &mut out,
        &mut note,
        reactor,
        rack,
    );
    Ok(end_buffered(ended, note.bytes(), &mut out, notes))
}

/// Says why no session began.
fn begin_none<N: Sink>(notes: &mut N, status: Status) -> ExitCode {
    let _ = write_all(notes, status.note());
    ExitCode::from(status.number())
}

/// The status where there is no command line: one that can't be read as a whole is faulty.
fn status_without_words(why: NoWords) -> Status {
    match why {
        NoWords::Unreadable => Status::Usage,
        NoWords::NoMemory => Status::NoMemory,
    }
}

fn main(rt: HostRuntime) -> ExitCode {
    let alloc = rt.alloc();
    let mut notes = StdSink::of(rt.stderr());
    let words = match words_of(&rt) {
        Ok(words) => words,
        Err(why) => return begin_none(&mut notes, status_without_words(why)),
    };
    let Ok(mut handlers) = Vec::<Option<Handler>>::with_capacity(alloc, MOST_ACTS as usize) else {
        return begin_none(&mut notes, Status::NoMemory);
    };
    for n in 0..MOST_ACTS as u64 {
        let mark = 1000 + n;
        let boxed = Box::new(
            alloc,
            move |spend: Spend| -> Ran
                ensures { result ≡ answer (record { run = mark; drop = mark }) spend }
            { answered(mark, spend) },
        );
        let job: Job = match boxed {
            Ok(job) => job,
            Err(_) => {
                Rack::of(handlers).discard_all();
                return begin_none(&mut notes, Status::NoMemory);
            }
        };
        let handler = Handler::of(job);
        handlers.push_reserved(Some(handler));
    }
    let mut rack = Rack::of(handlers);
    let words = words.as_slice();
    let ended = if asks_for_sockets(words) {
        let reactor = MioReactor::make(rt);
        session(
            &rt,
            words,
            rt.stdin(),
            rt.stdout(),
            &mut notes,
            reactor,
            &mut rack,
        )
    } else {
        match ScriptReactor::make(alloc, &[]) {
            Ok(reactor) => session(
                &rt,
                words,
                rt.stdin(),
                rt.stdout(),
                &mut notes,
                reactor,
                &mut rack,
            ),
            Err(NoMemory) => Err(NoMemory),
        }
    };
    let code = match ended {
        Ok(status) => ExitCode::from(status.number()),
        Err(NoMemory) => begin_none(&mut notes, Status::NoMemory),
    };
    rack.discard_all();
    code
}
