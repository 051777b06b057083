ghost use Rattle.std.specs.Prelude.{◌≡◌, ◌++◌, ◌==◌, IfOk, OnErr, vec_len};
ghost use Rattle.chat_handlers.specs.Chats.{Answers, Begins, GoesAway, Greets, Hears, IsAsking, IsHeard, Meets, MeetsIf, PassesUnless, ReadsFirst, ReadsOn, Refuses, Takes, Waits, came_in, is_long, long_line, no_room, reading, refusing, to_join};
ghost use Rattle.chat_handlers.specs.Links.{GoesOn, posted};
ghost use Rattle.chat_handlers.specs.declared.chat.Chat.TheVariants as chat;
ghost use Rattle.chat_handlers.specs.Serving.{EndsIf};

use crate::chat::Chat;
use crate::lines::{MOST_LINE, next_line, without_return};
use crate::link::{Link, close, part, until};
use crate::room::Room;
use crate::texts::{say_all, tell_of, words_of};
use crate::watching::watch;
use asio_types::{Code, NoMemory};
use io_handlers::{Full, FullTransfer, Initiator};
use io_rules::{Lane, Name};
use std::alloc::Global;

/// How many bytes one read takes at most.
pub const MOST_READ: usize = 1024;

/// A client has so many nanoseconds to join a room.
const TO_JOIN: u64 = 60_000_000_000;

const NO_ROOM: &[u8] = b"* no such room\n";

pub(crate) const FULL_ROOM: &[u8] = b"* the room is full\n";

const LONG_LINE: &[u8] = b"* the line is too long\n";

/// A client that hasn't said yet where it wants to be.
#[derive(Drop)]
pub struct Caller {
    pub alloc: Global,
    /// The strand of the room that is asked first.
    pub door: Name,
    /// Its connection.
    pub link: Link,
    /// What has come of its first line.
    pub kept: Vec<u8>,
}

/// A client that has joined a room, or asks for it.
#[derive(Drop)]
pub struct Speaker {
    pub alloc: Global,
    /// The strand of the room.
    pub room: Name,
    /// Its connection.
    pub link: Link,
    /// Its name.
    pub name: Vec<u8>,
    /// What is behind the last line end.
    pub kept: Vec<u8>,
}

/// What a first line asks for.
#[derive(Drop)]
struct Asked {
    word: Vec<u8>,
    speaker: Speaker,
    text: Vec<u8>,
}

/// Writes all of this buffer to a client that is let go.
fn write_last(io: &mut Initiator<Chat, Room>, link: Link, buffer: Vec<u8>)
    ensures writes { GoesOn link (refusing link buffer) io.old io.new }
    ensures grant { io.new.granted ≡ io.old.granted }
    ensures kept { io.new.kept ≡ io.old.kept }
{
    let size = buffer.len() as u64;
    match io.write_all(Lane::Own, link.stream, buffer, size, Chat::Refused { link }) {
        Ok(()) => {}
        Err(
            FullTransfer {
                buffer: _,
                handler: _,
            },
        ) => part(io, link),
    }
}

/// A client is told why it is let go, and is closed then.
pub(crate) fn refuse(io: &mut Initiator<Chat, Room>, alloc: Global, link: Link, why: &[u8])
    ensures refuses { Refuses link why.now io.old io.new }
    ensures grant { io.new.granted ≡ io.old.granted }
    ensures kept { io.new.kept ≡ io.old.kept }
{
    match Vec::from_slice(alloc, why) {
        Ok(buffer) => write_last(io, link, buffer),
        Err(_) => part(io, link),
    }
}

/// Reads what comes next from a client.
fn read(io: &mut Initiator<Chat, Room>, link: Link, buffer: Vec<u8>, handler: Chat)
    ensures reads { GoesOn link (reading link buffer handler) io.old io.new }
    ensures grant { io.new.granted ≡ io.old.granted }
    ensures kept { io.new.kept ≡ io.old.kept }
{
    match io.read_some(Lane::Own, link.stream, buffer, handler) {
        Ok(()) => {}
        Err(
            FullTransfer {
                buffer: _,
                handler: _,
            },
        ) => part(io, link),
    }
}

/// A handler goes to the strand of a room.
pub(crate) fn post(io: &mut Initiator<Chat, Room>, room: Name, link: Link, handler: Chat)
    ensures posts { GoesOn link (posted room handler) io.old io.new }
    ensures grant { io.new.granted ≡ io.old.granted }
    ensures kept { io.new.kept ≡ io.old.kept }
{
    match io.post(Lane::Strand(room), handler) {
        Ok(()) => {}
        Err(Full(_)) => part(io, link),
    }
}

/// Reads a client's first line; closes the connection where there is no memory for a buffer.
fn read_first(io: &mut Initiator<Chat, Room>, alloc: Global, door: Name, link: Link)
    ensures reads { ReadsFirst door link io.old io.new }
    ensures grant { io.new.granted ≡ io.old.granted }
    ensures kept { io.new.kept ≡ io.old.kept }
{
    let caller = Caller {
        alloc,
        door,
        link,
        kept: Vec::new(alloc),
    };
    match vec![in alloc; 0; MOST_READ] {
        Ok(buffer) => read(io, link, buffer, Chat::Met { caller }),
        Err(_) => part(io, link),
    }
}

/// A new connection is watched, and its first line is read; it is closed where no timer is left.
pub(crate) fn begin(
    io: &mut Initiator<Chat, Room>,
    alloc: Global,
    door: Name,
    stream: Name,
    now: u64,
)
    ensures begins { Begins door stream now io.old io.new }
    ensures grant { io.new.granted ≡ io.old.granted }
    ensures kept { io.new.kept ≡ io.old.kept }
{
    match io.make_timer() {
        None => close(io, stream),
        Some(timer) => {
            let link = Link { stream, timer };
            watch(io, door, link, until(now, TO_JOIN));
            read_first(io, alloc, door, link);
        }
    }
}

/// A member leaves.
fn leave(io: &mut Initiator<Chat, Room>, speaker: Speaker)
    ensures leaves { GoesAway speaker io.old io.new }
    ensures grant { io.new.granted ≡ io.old.granted }
    ensures kept { io.new.kept ≡ io.old.kept }
{
    let room = speaker.room;
    let link = speaker.link;
    post(io, room, link, Chat::Leaves { speaker });
}

/// Whether what is behind its last line end is too long for a line.
pub(crate) fn is_long(speaker: &Speaker) -> bool
    ensures { result ≡ is_long speaker.now }
{
    speaker.kept.len() > MOST_LINE
}

/// Reads more of what a member says, unless a line is too long already: then it leaves.
pub(crate) fn read_on(io: &mut Initiator<Chat, Room>, speaker: Speaker, buffer: Vec<u8>)
    ensures reads { ReadsOn speaker buffer io.old io.new }
    ensures grant { io.new.granted ≡ io.old.granted }
    ensures kept { io.new.kept ≡ io.old.kept }
{
    if is_long(&speaker) {
        leave(io, speaker);
    } else {
        let link = speaker.link;
        read(io, link, buffer, Chat::Came { speaker });
    }
}

/// A member's connection ends: it is told why, if its line was too long.
pub(crate) fn end(io: &mut Initiator<Chat, Room>, speaker: &Speaker)
    ensures ends { EndsIf (is_long speaker.now) speaker.now.link io.old io.new }
    ensures grant { io.new.granted ≡ io.old.granted }
    ensures kept { io.new.kept ≡ io.old.kept }
{
    if is_long(speaker) {
        refuse(io, speaker.alloc, speaker.link, LONG_LINE);
    } else {
        part(io, speaker.link);
    }
}

/// No room has the word that a client asks for.
pub(crate) fn turn_away(io: &mut Initiator<Chat, Room>, alloc: Global, link: Link)
    ensures refuses { Refuses link no_room io.old io.new }
    ensures grant { io.new.granted ≡ io.old.granted }
    ensures kept { io.new.kept ≡ io.old.kept }
{
    refuse(io, alloc, link, NO_ROOM);
}

/// These bytes behind those.
fn joined(alloc: Global, kept: &[u8], came: &[u8]) -> Result<Vec<u8>, NoMemory>
    ensures { IfOk result (λ bytes. bytes.items ≡ kept.now ++ came.now) }
{
    let mut bytes = Vec::from_slice(alloc, kept)?;
    bytes.extend_from_slice(came)?;
    Ok(bytes)
}

/// The bytes that came in a buffer.
fn came_in(buffer: &Vec<u8>, size: u64) -> &[u8]
    ensures { result.now ≡ came_in size buffer.now }
{
    let bytes = buffer.as_slice();
    &bytes[..(size as usize).min(bytes.len())]
}

/// What a member says by what has come; what is behind the last line end is kept.
fn hear(speaker: &mut Speaker, came: &[u8]) -> Result<Vec<u8>, NoMemory>
    ensures heard { IfOk result (λ text. IsHeard speaker.old speaker.new came.now text.items) }
    ensures same { OnErr result (speaker.new ≡ speaker.old) }
{
    let bytes = joined(speaker.alloc, speaker.kept.as_slice(), came)?;
    let mut text = Vec::new(speaker.alloc);
    let rest = say_all(&mut text, speaker.name.as_slice(), bytes.as_slice())?;
    speaker.kept = Vec::from_slice(speaker.alloc, rest)?;
    Ok(text)
}

/// What a member says goes to its room; without a whole line more is read at once.
fn pass(io: &mut Initiator<Chat, Room>, speaker: Speaker, buffer: Vec<u8>, text: Vec<u8>)
    ensures passes { PassesUnless (vec_len text == 0) speaker buffer text io.old io.new }
    ensures grant { io.new.granted ≡ io.old.granted }
    ensures kept { io.new.kept ≡ io.old.kept }
{
    if text.is_empty() {
        read_on(io, speaker, buffer);
    } else {
        let room = speaker.room;
        let link = speaker.link;
        let says = Chat::Says {
            speaker,
            buffer,
            text,
        };
        post(io, room, link, says);
    }
}

/// Bytes have come from a member.
fn take(io: &mut Initiator<Chat, Room>, mut speaker: Speaker, buffer: Vec<u8>, size: u64)
    ensures takes { Takes speaker (came_in size buffer) buffer io.old io.new }
    ensures grant { io.new.granted ≡ io.old.granted }
    ensures kept { io.new.kept ≡ io.old.kept }
{
    match hear(&mut speaker, came_in(&buffer, size)) {
        Err(_) => leave(io, speaker),
        Ok(text) => pass(io, speaker, buffer, text),
    }
}

/// Likewise, or the end, or an error.
pub(crate) fn came(
    io: &mut Initiator<Chat, Room>,
    speaker: Speaker,
    code: Code,
    size: u64,
    buffer: Option<Vec<u8>>,
)
    ensures hears { Hears speaker code size buffer io.old io.new }
    ensures grant { io.new.granted ≡ io.old.granted }
    ensures kept { io.new.kept ≡ io.old.kept }
{
    match (code, buffer) {
        (Code::Ok, Some(buffer)) => take(io, speaker, buffer, size),
        _ => leave(io, speaker),
    }
}

/// A client of this name asks for the room of this word.
fn asking(caller: &Caller, word: &[u8], name: &[u8], behind: &[u8]) -> Result<Asked, NoMemory>
    ensures asks { IfOk result (λ asked. IsAsking caller.now name.now behind.now asked.text.items asked.speaker) }
    ensures word { IfOk result (λ asked. asked.word.items ≡ word.now) }
{
    let alloc = caller.alloc;
    let mut text = Vec::new(alloc);
    tell_of(&mut text, name, b" joined\n")?;
    let rest = say_all(&mut text, name, behind)?;
    let word = Vec::from_slice(alloc, word)?;
    let name = Vec::from_slice(alloc, name)?;
    let kept = Vec::from_slice(alloc, rest)?;
    let speaker = Speaker {
        alloc,
        room: caller.door,
        link: caller.link,
        name,
        kept,
    };
    Ok(Asked {
        word,
        speaker,
        text,
    })
}

/// Likewise on the strand of that room.
fn ask(io: &mut Initiator<Chat, Room>, door: Name, link: Link, asked: Asked, buffer: Vec<u8>)
    ensures asks { GoesOn link (posted door (chat.Joins asked.word asked.speaker buffer asked.text)) io.old io.new }
    ensures grant { io.new.granted ≡ io.old.granted }
    ensures kept { io.new.kept ≡ io.old.kept }
{
    let Asked {
        word,
        speaker,
        text,
    } = asked;
    let joins = Chat::Joins {
        word,
        speaker,
        buffer,
        text,
    };
    post(io, door, link, joins);
}

/// More is read of a first line that isn't whole, or it is too long.
fn wait(io: &mut Initiator<Chat, Room>, caller: Caller, bytes: Vec<u8>, buffer: Vec<u8>)
    ensures waits { Waits (record caller { kept = bytes }) buffer io.old io.new }
    ensures grant { io.new.granted ≡ io.old.granted }
    ensures kept { io.new.kept ≡ io.old.kept }
{
    if bytes.len() > MOST_LINE {
        refuse(io, caller.alloc, caller.link, LONG_LINE);
    } else {
        let link = caller.link;
        let caller = Caller {
            alloc: caller.alloc,
            door: caller.door,
            link,
            kept: bytes,
        };
        read(io, link, buffer, Chat::Met { caller });
    }
}

/// A first line that is whole is answered.
fn answer(
    io: &mut Initiator<Chat, Room>,
    caller: &Caller,
    line: &[u8],
    behind: &[u8],
    buffer: Vec<u8>,
)
    ensures answers { Answers caller.now line.now behind.now buffer io.old io.new }
    ensures grant { io.new.granted ≡ io.old.granted }
    ensures kept { io.new.kept ≡ io.old.kept }
{
    match words_of(line) {
        None => turn_away(io, caller.alloc, caller.link),
        Some((word, name)) => match asking(caller, word, name, behind) {
            Err(_) => part(io, caller.link),
            Ok(asked) => ask(io, caller.door, caller.link, asked, buffer),
        },
    }
}

/// Likewise, if it is.
fn greet(io: &mut Initiator<Chat, Room>, caller: Caller, bytes: Vec<u8>, buffer: Vec<u8>)
    ensures greets { Greets caller bytes buffer io.old io.new }
    ensures grant { io.new.granted ≡ io.old.granted }
    ensures kept { io.new.kept ≡ io.old.kept }
{
    match next_line(bytes.as_slice()) {
        None => wait(io, caller, bytes, buffer),
        Some((line, behind)) => answer(io, &caller, without_return(line), behind, buffer),
    }
}

/// Bytes of a first line have come.
fn meet(io: &mut Initiator<Chat, Room>, caller: Caller, buffer: Vec<u8>, size: u64)
    ensures meets { Meets caller (came_in size buffer) buffer io.old io.new }
    ensures grant { io.new.granted ≡ io.old.granted }
    ensures kept { io.new.kept ≡ io.old.kept }
{
    match joined(caller.alloc, caller.kept.as_slice(), came_in(&buffer, size)) {
        Err(_) => part(io, caller.link),
        Ok(bytes) => greet(io, caller, bytes, buffer),
    }
}

/// Likewise, or the end, or an error.
pub(crate) fn met(
    io: &mut Initiator<Chat, Room>,
    caller: Caller,
    code: Code,
    size: u64,
    buffer: Option<Vec<u8>>,
)
    ensures meets { MeetsIf caller code size buffer io.old io.new }
    ensures grant { io.new.granted ≡ io.old.granted }
    ensures kept { io.new.kept ≡ io.old.kept }
{
    match (code, buffer) {
        (Code::Ok, Some(buffer)) => meet(io, caller, buffer, size),
        _ => part(io, caller.link),
    }
}
