ghost use Rattle.std.specs.Prelude.{◌≡◌, ◌&&◌, ◌==◌, ◌∷◌, ◌++◌, List, [], map};
ghost use Rattle.io_rules.specs.Names.{same_name};
ghost use Rattle.chat_handlers.specs.declared.room.Member.{Member};
ghost use Rattle.chat_handlers.specs.Rooms.{has_member, member_of, new_member, one_less, without};

use crate::link::until;
use io_rules::Name;
use std::alloc::Global;
use std::collections::VecDeque;

/// A room has at most so many members.
pub const MOST_MEMBERS: usize = 64;

/// Of a member at most so many writes are pending.
pub const MOST_PENDING: u64 = 128;

/// A member is kept for so many nanoseconds after it joined, and after each text that was written to it.
const IDLE: u64 = 3_600_000_000_000;

/// A client that has joined.
#[derive(Clone, Copy)]
pub struct Member {
    /// Its stream.
    pub stream: Name,
    /// How many writes to it aren't over.
    pub pending: u64,
    /// Until this time of the context's clock it is kept though nothing is written to it.
    pub until: u64,
}

/// A room: the state of its strand.
#[derive(Drop)]
pub struct Room {
    pub alloc: Global,
    /// Its word.
    pub word: Vec<u8>,
    /// The strand of the room that is asked next, if any.
    pub next: Option<Name>,
    /// Its members, in the order in which they joined.
    pub members: VecDeque<Member>,
    /// How many of them were dropped since memory for what they were to be told was refused.
    pub refused: u64,
}

impl Room {
    /// With no member.
    pub fn of(alloc: Global, word: Vec<u8>, next: Option<Name>) -> Room
        ensures members { result.members.items ≡ [] }
        ensures word { result.word ≡ word }
        ensures next { result.next ≡ next }
        ensures alloc { result.alloc ≡ alloc }
        ensures refused { result.refused ≡ 0 }
    {
        let members = VecDeque::new(alloc);
        Room {
            alloc,
            word,
            next,
            members,
            refused: 0,
        }
    }
}

/// Who joins now, with this stream.
pub(crate) fn new_member(stream: Name, now: u64) -> Member
    ensures { result ≡ new_member stream now }
{
    Member {
        stream,
        pending: 0,
        until: until(now, IDLE),
    }
}

pub(crate) fn is_same(one: Name, other: Name) -> bool
    ensures { result ≡ same_name one other }
{
    one.place == other.place && one.generation == other.generation
}

/// Whether a member has this stream.
pub(crate) fn has_member(members: &VecDeque<Member>, stream: Name) -> bool
    ensures { result ≡ has_member stream members.now.items }
{
    members.iter().any(|member| is_same(member.stream, stream))
}

/// The member that has this stream.
pub(crate) fn member_of(members: &VecDeque<Member>, stream: Name) -> Option<Member>
    ensures { result ≡ member_of stream members.now.items }
{
    members
        .iter()
        .copied()
        .find(|member| is_same(member.stream, stream))
}

/// Takes out whoever has this stream.
pub(crate) fn remove(members: &mut VecDeque<Member>, stream: Name)
    ensures { members.new.items ≡ without stream members.old.items }
{
    members.retain(|member| !is_same(member.stream, stream));
}

/// One write to this stream is over.
fn less_of(member: Member, stream: Name, now: u64) -> Member
    ensures { result ≡ one_less stream now member }
{
    if is_same(member.stream, stream) {
        Member {
            stream: member.stream,
            pending: member.pending.saturating_sub(1),
            until: until(now, IDLE),
        }
    } else {
        member
    }
}

/// The first goes behind the others; a write to it is over, if it has this stream.
fn count_first_down(members: &mut VecDeque<Member>, stream: Name, now: u64)
    ensures { (first : Member) (rest : List Member) → members.old.items ≡ first ∷ rest →
        members.new.items ≡ rest ++ one_less stream now first ∷ [] }
{
    if let Some(member) = members.pop_front() {
        members.push_back_reserved(less_of(member, stream, now));
    }
}

/// Likewise of whoever has it.
pub(crate) fn count_down(members: &mut VecDeque<Member>, stream: Name, now: u64)
    ensures { members.new.items ≡ map (one_less stream now) members.old.items }
{
    for _ in 0..members.len() {
        count_first_down(members, stream, now);
    }
}
