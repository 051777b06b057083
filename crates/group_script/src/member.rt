ghost use Rattle.std.specs.Prelude.{◌≡◌};
ghost use Rattle.group_script.specs.Group.{cancels};

use asio_types::{Class, NoMemory, StreamNo};
use std::marker::Model;

/// One operation of a group.
#[derive(Clone, Copy, Debug, PartialEq, Eq)]
pub enum Member {
    /// `steady_timer::async_wait` on a timer of its own, which expires after so long; a time from 0
    /// to 2^40 - 1.
    Wait { after: u64 },
    /// `asio::async_read` of exactly `size` bytes, from 1 to 16,384, of a stream of the world.
    Read { stream: StreamNo, size: u32 },
}

/// The operations of a group, each with its place as its number. Contracts see the list of them.
#[derive(Debug, Drop)]
pub struct Members {
    items: Vec<Member>,
}

impl Model for Members {
    ghost use Rattle.std.specs.Prelude.{List};
    ghost use Rattle.group_script.specs.declared.member.Member.{Member};

    ghost Value = { List Member };

    ghost view = { λ m. m.items.items };
}

impl Members {
    /// The members of a vector. Takes no memory.
    pub fn of(items: Vec<Member>) -> Members
        ensures { result ≡ items.items }
    {
        Members { items }
    }

    /// The members.
    pub fn as_slice(&self) -> &[Member]
        ensures { result.now ≡ self.now }
    {
        self.items.as_slice()
    }

    /// The members as a vector again. Takes no memory.
    pub fn into_vec(self) -> Vec<Member>
        ensures { result.items ≡ self }
    {
        self.items
    }
}

/// What a group waits for (Asio reference, experimental::wait_for_all, ::wait_for_one,
/// ::wait_for_one_success, ::wait_for_one_error).
#[derive(Clone, Copy, Debug, PartialEq, Eq)]
pub enum WaitFor {
    /// All operations.
    All,
    /// The first that completes; then the others are cancelled.
    One,
    /// The first that succeeds; then the others are cancelled.
    OneSuccess,
    /// The first that fails or is cancelled; then the others are cancelled.
    OneError,
}

impl WaitFor {
    /// Whether a member that completes in this class cancels the others.
    pub(crate) fn cancels(self, class: Class) -> bool
        ensures { result ≡ cancels self class }
    {
        match self {
            WaitFor::All => false,
            WaitFor::One => true,
            WaitFor::OneSuccess => matches!(class, Class::Ok),
            WaitFor::OneError => !matches!(class, Class::Ok),
        }
    }
}

/// Why there is no group.
#[derive(Clone, Copy, Debug, PartialEq, Eq)]
pub enum GroupFault {
    /// A number, a line of the world or the text of its script is outside of the limits.
    Limit,
    /// The reactor failed.
    Failed,
    /// Memory was asked for and not given.
    NoMemory,
}

impl From<NoMemory> for GroupFault {
    ghost use Rattle.std.specs.Prelude.{◌≡◌};
    ghost use Rattle.group_script.specs.declared.member.GroupFault.{GroupFault};

    ghost from_gives = { λ _ fault. fault ≡ GroupFault.NoMemory };

    fn from(_missing: NoMemory) -> GroupFault {
        GroupFault::NoMemory
    }
}
