ghost use Rattle.std.specs.Prelude.{◌≡◌, length, nat_lt, true};
ghost use Rattle.chat_handlers.specs.Rooms.{has_member, most_members};
ghost use Rattle.chat_handlers.specs.Serving.{Admits, AsksNext, Counts, Joins, Parts, ReadsAndTells, SaysIf, Tells, TellsLeft};

use crate::chat::Chat;
use crate::link::{close, part};
use crate::reading::{FULL_ROOM, Speaker, end, post, read_on, refuse, turn_away};
use crate::room::{MOST_MEMBERS, Room, count_down, has_member, new_member, remove};
use crate::telling::tell;
use crate::texts::tell_of;
use asio_types::Code;
use io_handlers::Initiator;
use io_rules::Name;

/// All members of a room are told this text.
fn tell_room(io: &mut Initiator<Chat, Room>, room: &mut Room, strand: Name, text: &[u8])
    ensures tells { Tells strand text.now room.old.members.items io.old io.new room.old room.new }
    ensures grant { io.new.granted ≡ io.old.granted }
    ensures kept { io.new.kept ≡ io.old.kept }
{
    let refused = tell(io, room.alloc, strand, &mut room.members, text);
    room.refused = room.refused.saturating_add(refused);
}

/// Likewise, and more is read from the one who says it.
fn read_and_tell(
    io: &mut Initiator<Chat, Room>,
    room: &mut Room,
    speaker: Speaker,
    buffer: Vec<u8>,
    text: &[u8],
)
    ensures tells { ReadsAndTells speaker buffer text.now room.old.members.items io.old io.new room.old room.new }
    ensures grant { io.new.granted ≡ io.old.granted }
    ensures kept { io.new.kept ≡ io.old.kept }
{
    let strand = speaker.room;
    read_on(io, speaker, buffer);
    tell_room(io, room, strand, text);
}

/// A client joins behind the others.
fn admit(
    io: &mut Initiator<Chat, Room>,
    room: &mut Room,
    speaker: Speaker,
    buffer: Vec<u8>,
    text: Vec<u8>,
    now: u64,
)
    requires { nat_lt (length room.old.members.items) most_members ≡ true }
    ensures admits { Admits speaker buffer text now io.old io.new room.old room.new }
    ensures grant { io.new.granted ≡ io.old.granted }
    ensures kept { io.new.kept ≡ io.old.kept }
{
    let member = new_member(speaker.link.stream, now);
    match room.members.push_back(member) {
        Err(_) => part(io, speaker.link),
        Ok(()) => read_and_tell(io, room, speaker, buffer, text.as_slice()),
    }
}

/// Likewise where there is room.
fn admit_if(
    io: &mut Initiator<Chat, Room>,
    room: &mut Room,
    speaker: Speaker,
    buffer: Vec<u8>,
    text: Vec<u8>,
    now: u64,
)
    ensures admits { Admits speaker buffer text now io.old io.new room.old room.new }
    ensures grant { io.new.granted ≡ io.old.granted }
    ensures kept { io.new.kept ≡ io.old.kept }
{
    if room.members.len() < MOST_MEMBERS {
        admit(io, room, speaker, buffer, text, now);
    } else {
        refuse(io, speaker.alloc, speaker.link, FULL_ROOM);
    }
}

/// The next room is asked, if there is one.
fn ask_next(
    io: &mut Initiator<Chat, Room>,
    next: Option<Name>,
    word: Vec<u8>,
    speaker: Speaker,
    buffer: Vec<u8>,
    text: Vec<u8>,
)
    ensures asks { AsksNext next word speaker buffer text io.old io.new }
    ensures grant { io.new.granted ≡ io.old.granted }
    ensures kept { io.new.kept ≡ io.old.kept }
{
    match next {
        None => turn_away(io, speaker.alloc, speaker.link),
        Some(room) => {
            let link = speaker.link;
            let speaker = Speaker {
                alloc: speaker.alloc,
                room,
                link,
                name: speaker.name,
                kept: speaker.kept,
            };
            let joins = Chat::Joins {
                word,
                speaker,
                buffer,
                text,
            };
            post(io, room, link, joins);
        }
    }
}

/// A client asks for the room of this word.
pub(crate) fn join(
    io: &mut Initiator<Chat, Room>,
    room: &mut Room,
    word: Vec<u8>,
    speaker: Speaker,
    buffer: Vec<u8>,
    text: Vec<u8>,
    now: u64,
)
    ensures joins { Joins word speaker buffer text now io.old io.new room.old room.new }
    ensures grant { io.new.granted ≡ io.old.granted }
    ensures kept { io.new.kept ≡ io.old.kept }
{
    if room.word.as_slice() == word.as_slice() {
        admit_if(io, room, speaker, buffer, text, now);
    } else {
        ask_next(io, room.next, word, speaker, buffer, text);
    }
}

/// A member leaves: it is taken out, its stream ends, and the others are told.
pub(crate) fn leave(io: &mut Initiator<Chat, Room>, room: &mut Room, speaker: Speaker)
    ensures parts { Parts speaker io.old io.new room.old room.new }
    ensures grant { io.new.granted ≡ io.old.granted }
    ensures kept { io.new.kept ≡ io.old.kept }
{
    remove(&mut room.members, speaker.link.stream);
    end(io, &speaker);
    tell_left(io, room, &speaker);
}

/// The others are told that it has left.
fn tell_left(io: &mut Initiator<Chat, Room>, room: &mut Room, speaker: &Speaker)
    ensures tells { TellsLeft speaker.now room.old.members.items io.old io.new room.old room.new }
    ensures grant { io.new.granted ≡ io.old.granted }
    ensures kept { io.new.kept ≡ io.old.kept }
{
    let mut text = Vec::new(speaker.alloc);
    match tell_of(&mut text, speaker.name.as_slice(), b" left\n") {
        Err(_) => {}
        Ok(()) => tell_room(io, room, speaker.room, text.as_slice()),
    }
}

/// All members are told what one says, and more is read from it; one that was dropped leaves.
pub(crate) fn say(
    io: &mut Initiator<Chat, Room>,
    room: &mut Room,
    speaker: Speaker,
    buffer: Vec<u8>,
    text: Vec<u8>,
)
    ensures says { SaysIf (has_member speaker.link.stream room.old.members.items) speaker buffer text io.old io.new room.old room.new }
    ensures grant { io.new.granted ≡ io.old.granted }
    ensures kept { io.new.kept ≡ io.old.kept }
{
    if has_member(&room.members, speaker.link.stream) {
        read_and_tell(io, room, speaker, buffer, text.as_slice());
    } else {
        leave(io, room, speaker);
    }
}

/// A write to a member is over; one to which it can't be written is dropped.
pub(crate) fn written(
    io: &mut Initiator<Chat, Room>,
    room: &mut Room,
    stream: Name,
    code: Code,
    now: u64,
)
    ensures counts { Counts stream code now io.old io.new room.old room.new }
    ensures grant { io.new.granted ≡ io.old.granted }
    ensures kept { io.new.kept ≡ io.old.kept }
{
    match code {
        Code::Ok => count_down(&mut room.members, stream, now),
        _ => {
            remove(&mut room.members, stream);
            close(io, stream);
        }
    }
}
