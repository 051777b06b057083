ghost use Rattle.std.specs.Prelude.{◌≡◌, ◌<◌, [], IfNone, IfSome};
ghost use Rattle.io_reactor.specs.Answers.{count_of};
ghost use Rattle.io_reactor.specs.Peer.{answer_over, takes_after};
ghost use Rattle.io_reactor_memory.specs.Sides.{takes_of, total_of};

use asio_types::Code;
use io_reactor::Transferred;

/// The room that a peer has still to make.
#[derive(Drop)]
pub(crate) struct Room<'s> {
    /// What is left of the room that was begun.
    pub(crate) begun: Option<usize>,
    pub(crate) rest: &'s [usize],
}

impl<'s> Room<'s> {
    /// Begins the next room, if none is begun.
    fn begin(&mut self)
        ensures same { takes_of self.new ≡ takes_of self.old }
        ensures none { IfNone self.new.begun (takes_of self.new ≡ []) }
    {
        if self.begun.is_none() {
            if let Some((first, others)) = self.rest.split_first() {
                self.begun = Some(*first);
                self.rest = others;
            }
        }
    }

    /// What a write of so many bytes answers, where this comes behind all room.
    pub(crate) fn answer(&mut self, most: usize, end: Option<Code>) -> Transferred
        requires { 0 < most }
        ensures answer { result ≡ answer_over most (takes_of self.old) end }
        ensures takes { takes_of self.new ≡ takes_after (count_of result) (takes_of self.old) }
    {
        self.begin();
        let Some(room) = self.begun else {
            return at_end(end);
        };
        let count = room.min(most);
        self.begun = if count == room {
            None
        } else {
            Some(room - count)
        };
        if room == 0 {
            Transferred::WouldBlock
        } else {
            Transferred::Bytes(count)
        }
    }

    /// Whether more room comes, and whether more would have to wait for it.
    pub(crate) fn ahead(&self) -> (bool, bool) {
        let more = self.begun.is_some() || !self.rest.is_empty();
        (more, self.rest.contains(&0))
    }
}

/// What is answered where nothing comes any more but this.
pub(crate) fn at_end(end: Option<Code>) -> Transferred
    ensures { result ≡ answer_over 0 [] end }
{
    match end {
        None => Transferred::WouldBlock,
        Some(code) => Transferred::Failed(code),
    }
}

/// All room together, if that is a number of bytes.
pub(crate) fn total(takes: &[usize]) -> Option<usize>
    ensures { IfSome result (λ total. total ≡ total_of takes.now) }
{
    match takes.split_first() {
        None => Some(0),
        Some((room, others)) => total(others)?.checked_add(*room),
    }
}
