ghost use Rattle.std.specs.Prelude.{◌≡◌, ◌≤◌, ◌∷◌, List, IfOk, OnErr, true, false};
ghost use Rattle.io_handlers.specs.Initiated.{MayInitiate, called};
ghost use Rattle.chat_handlers.specs.declared.room.Member.{Member};
ghost use Rattle.chat_handlers.specs.Telling.{IsWritten, TellsFirst, TellsOne, Told, writing};

use crate::chat::Chat;
use crate::link::close;
use crate::room::{MOST_PENDING, Member, Room};
use asio_types::NoMemory;
use io_handlers::{FullTransfer, Initiator};
use io_rules::{Lane, Name};
use std::alloc::Global;
use std::collections::VecDeque;

/// What became of a member that is to be told something.
pub(crate) enum Fate {
    /// It is told, and one write more to it is pending.
    Told(Member),
    /// Too many writes to it are pending, or no place is left: it is dropped.
    Dropped,
    /// Memory for it was refused: it is dropped too.
    Refused,
}

/// Writes all of this buffer to a member of a room; answers whether it is initiated.
fn write(io: &mut Initiator<Chat, Room>, room: Name, stream: Name, buffer: Vec<u8>) -> bool
    ensures may { result ≡ true → MayInitiate io.old }
    ensures written { result ≡ true → io.new ≡ called (writing room stream buffer) io.old }
    ensures full { result ≡ false → ¬ MayInitiate io.old }
    ensures same { result ≡ false → io.new ≡ io.old }
    ensures grant { io.new.granted ≡ io.old.granted }
    ensures kept { io.new.kept ≡ io.old.kept }
{
    let size = buffer.len() as u64;
    let written = Chat::Written { room, stream };
    match io.write_all(Lane::Strand(room), stream, buffer, size, written) {
        Ok(()) => true,
        Err(
            FullTransfer {
                buffer: _,
                handler: _,
            },
        ) => false,
    }
}

/// Likewise a copy of this text.
fn write_copy(
    io: &mut Initiator<Chat, Room>,
    alloc: Global,
    room: Name,
    stream: Name,
    text: &[u8],
) -> Result<bool, NoMemory>
    ensures written { IfOk result (λ done. done ≡ true → IsWritten room stream text.now io.old io.new) }
    ensures full { IfOk result (λ done. done ≡ false → ¬ MayInitiate io.old) }
    ensures same { IfOk result (λ done. done ≡ false → io.new ≡ io.old) }
    ensures refused { OnErr result (io.new ≡ io.old) }
    ensures grant { io.new.granted ≡ io.old.granted }
    ensures kept { io.new.kept ≡ io.old.kept }
{
    match Vec::from_slice(alloc, text) {
        Ok(buffer) => Ok(write(io, room, stream, buffer)),
        Err(_) => Err(NoMemory),
    }
}

/// Likewise where not too many writes to it are pending. A member to which nothing is written is no member any
/// more: its stream is closed.
fn tell_one(
    io: &mut Initiator<Chat, Room>,
    alloc: Global,
    room: Name,
    member: Member,
    text: &[u8],
) -> Fate
    ensures tells { TellsOne room text.now member io.old io.new result }
    ensures grant { io.new.granted ≡ io.old.granted }
    ensures kept { io.new.kept ≡ io.old.kept }
{
    let stream = member.stream;
    if member.pending >= MOST_PENDING {
        close(io, stream);
        return Fate::Dropped;
    }
    match write_copy(io, alloc, room, stream, text) {
        Ok(true) => Fate::Told(Member {
            stream,
            pending: member.pending + 1,
            until: member.until,
        }),
        Ok(false) => {
            close(io, stream);
            Fate::Dropped
        }
        Err(NoMemory) => {
            close(io, stream);
            Fate::Refused
        }
    }
}

/// The first is told this text, and goes behind the others; answers for how many memory was refused.
fn tell_first(
    io: &mut Initiator<Chat, Room>,
    alloc: Global,
    room: Name,
    members: &mut VecDeque<Member>,
    text: &[u8],
) -> u64
    ensures tells { (first : Member) (rest : List Member) → members.old.items ≡ first ∷ rest →
        TellsFirst room text.now first rest io.old io.new members.new.items result }
    ensures one { result ≤ 1 }
    ensures grant { io.new.granted ≡ io.old.granted }
    ensures kept { io.new.kept ≡ io.old.kept }
{
    let Some(member) = members.pop_front() else {
        return 0;
    };
    match tell_one(io, alloc, room, member, text) {
        Fate::Told(told) => {
            members.push_back_reserved(told);
            0
        }
        Fate::Dropped => 0,
        Fate::Refused => 1,
    }
}

/// All members are told this text; answers for how many of them memory was refused.
pub(crate) fn tell(
    io: &mut Initiator<Chat, Room>,
    alloc: Global,
    room: Name,
    members: &mut VecDeque<Member>,
    text: &[u8],
) -> u64
    ensures told { Told room text.now io.old members.old.items io.new members.new.items result }
    ensures grant { io.new.granted ≡ io.old.granted }
    ensures kept { io.new.kept ≡ io.old.kept }
{
    let mut refused = 0;
    for _ in 0..members.len() {
        refused += tell_first(io, alloc, room, members, text);
    }
    refused
}
