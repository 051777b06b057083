ghost use Rattle.std.specs.Prelude.{◌≡◌};
ghost use Rattle.chat_handlers.specs.Links.{closed, parted, set, until};

use crate::chat::Chat;
use crate::room::Room;
use io_handlers::Initiator;
use io_rules::Name;

/// A connection of a client.
#[derive(Clone, Copy)]
pub struct Link {
    /// Its stream.
    pub stream: Name,
    /// The timer that watches it.
    pub timer: Name,
}

/// The time that is so many nanoseconds later.
pub(crate) fn until(now: u64, later: u64) -> u64
    ensures { result ≡ until now later }
{
    now.saturating_add(later)
}

/// A timer expires at this time.
pub(crate) fn set(io: &mut Initiator<Chat, Room>, timer: Name, at: u64)
    ensures set { io.new ≡ set timer at io.old }
    ensures grant { io.new.granted ≡ io.old.granted }
    ensures kept { io.new.kept ≡ io.old.kept }
{
    let _set = io.expires_at(timer, at);
}

/// Closes a stream.
pub(crate) fn close(io: &mut Initiator<Chat, Room>, stream: Name)
    ensures closed { io.new ≡ closed stream io.old }
    ensures grant { io.new.granted ≡ io.old.granted }
    ensures kept { io.new.kept ≡ io.old.kept }
{
    let _closed = io.close(stream);
}

/// Closes a connection, and destroys its timer.
pub(crate) fn part(io: &mut Initiator<Chat, Room>, link: Link)
    ensures parted { io.new ≡ parted link io.old }
    ensures grant { io.new.granted ≡ io.old.granted }
    ensures kept { io.new.kept ≡ io.old.kept }
{
    close(io, link.stream);
    let _freed = io.free_timer(link.timer);
}
