ghost use Rattle.std.specs.Prelude.{◌≡◌};
ghost use Rattle.chat_handlers.specs.Links.{GoesOn};
ghost use Rattle.chat_handlers.specs.Rooms.{member_of};
ghost use Rattle.chat_handlers.specs.Watching.{IsKeptOn, LooksFor, WaitsOn, Watches, idling};

use crate::chat::Chat;
use crate::link::{Link, part, set};
use crate::reading::post;
use crate::room::{Member, Room, member_of};
use asio_types::Code;
use io_handlers::{Full, Initiator};
use io_rules::{Lane, Name};

/// Waits for the timer of a connection, on the strand of a room.
fn wait(io: &mut Initiator<Chat, Room>, room: Name, link: Link)
    ensures waits { GoesOn link (idling room link) io.old io.new }
    ensures grant { io.new.granted ≡ io.old.granted }
    ensures kept { io.new.kept ≡ io.old.kept }
{
    match io.wait(link.timer, Lane::Strand(room), Chat::Idle { room, link }) {
        Ok(()) => {}
        Err(Full(_)) => part(io, link),
    }
}

/// It expires at this time, and is waited for.
pub(crate) fn watch(io: &mut Initiator<Chat, Room>, room: Name, link: Link, at: u64)
    ensures watches { Watches room link at io.old io.new }
    ensures grant { io.new.granted ≡ io.old.granted }
    ensures kept { io.new.kept ≡ io.old.kept }
{
    set(io, link.timer, at);
    wait(io, room, link);
}

/// A member that is kept for longer is watched on; another one is let go.
fn watch_on(io: &mut Initiator<Chat, Room>, room: Name, link: Link, now: u64, kept: u64)
    ensures watches { IsKeptOn room link now kept io.old io.new }
    ensures grant { io.new.granted ≡ io.old.granted }
    ensures kept { io.new.kept ≡ io.old.kept }
{
    if now < kept {
        watch(io, room, link, kept);
    } else {
        part(io, link);
    }
}

/// A room looks for a client: it is this member of the room, or none.
fn look_for(
    io: &mut Initiator<Chat, Room>,
    member: Option<Member>,
    next: Option<Name>,
    room: Name,
    link: Link,
    now: u64,
)
    ensures looks { LooksFor member next room link now io.old io.new }
    ensures grant { io.new.granted ≡ io.old.granted }
    ensures kept { io.new.kept ≡ io.old.kept }
{
    match (member, next) {
        (Some(member), _) => watch_on(io, room, link, now, member.until),
        (None, Some(next)) => {
            let room = next;
            post(io, next, link, Chat::Idle { room, link });
        }
        (None, None) => part(io, link),
    }
}

/// Likewise where a client's timer has expired; one that is destroyed isn't waited for.
pub(crate) fn wait_on(
    io: &mut Initiator<Chat, Room>,
    at: &Room,
    room: Name,
    link: Link,
    code: Code,
    now: u64,
)
    ensures waits { WaitsOn code at.now.members.items at.now.next room link now io.old io.new }
    ensures grant { io.new.granted ≡ io.old.granted }
    ensures kept { io.new.kept ≡ io.old.kept }
{
    match code {
        Code::Ok => {
            let member = member_of(&at.members, link.stream);
            look_for(io, member, at.next, room, link, now);
        }
        _ => {}
    }
}
