ghost use Rattle.std.specs.Prelude.{◌≡◌, IfSome, option_map};
ghost use Rattle.composed_ops.specs.StreamOperation.{asking_of, IsSizedAct};
ghost use Rattle.composed_ops.specs.Machine.{progress_of};
ghost use Rattle.composed_ops.specs.Progress.{new_progress, progress_after, FitsMove, IsSearched, IsUnderWay};
ghost use Rattle.composed_ops.specs.Step.{outcome_by, step_of};
ghost use Rattle.composed_ops.specs.Want.{wanted, AsksWithin, MayAskAgain};

use crate::step::{MachineStep, all_step, some_step, until_step};
use crate::want::{Want, counted_want, until_want};
use asio_types::{Code, Moved};
use session_script::Act;

/// An operation on a stream under way, with what its act asks for and the bytes that it moved so
/// far. It is asked what it wants, and told what it got. No call takes memory.
#[derive(Clone, Copy)]
pub enum Machine<'a> {
    /// `async_read_some`: at most `size` bytes.
    ReadSome {
        size: u32,
        moved: u32,
    },
    /// `async_read`: `size` bytes in all.
    ReadAll {
        size: u32,
        moved: u32,
    },
    /// `async_read_until`: up to and including the delimiter of its act, within `max` bytes. The
    /// latest piece brought so many bytes.
    Until {
        delimiter: &'a [u8],
        max: u32,
        latest: Option<u32>,
    },
    /// `async_write_some`: as many bytes of its act as there is room for.
    WriteSome {
        bytes: &'a [u8],
        moved: u32,
    },
    /// `async_write`: all bytes of its act.
    WriteAll {
        bytes: &'a [u8],
        moved: u32,
    },
}

impl<'a> Machine<'a> {
    /// The machine of an act, before its first step; none exactly where the act is no operation on
    /// a stream. The act of a script is sized, by `acts_are_sized`.
    pub fn of(act: &'a Act) -> Option<Machine<'a>>
        ensures machine { option_map progress_of result
            ≡ option_map new_progress (asking_of act.now) }
        ensures under_way { IsSizedAct (asking_of act.now) →
            IfSome result (λ machine. IsUnderWay (progress_of machine)) }
    {
        match act {
            Act::ReadSome { size, .. } => Some(Machine::ReadSome {
                size: *size,
                moved: 0,
            }),
            Act::ReadAll { size, .. } => Some(Machine::ReadAll {
                size: *size,
                moved: 0,
            }),
            Act::Until { delimiter, max, .. } => Some(Machine::Until {
                delimiter: delimiter.as_slice(),
                max: *max,
                latest: None,
            }),
            Act::WriteSome { bytes, .. } => Some(Machine::WriteSome {
                bytes: bytes.as_slice(),
                moved: 0,
            }),
            Act::WriteAll { bytes, .. } => Some(Machine::WriteAll {
                bytes: bytes.as_slice(),
                moved: 0,
            }),
            _ => None,
        }
    }

    /// What it asks for next, where these bytes of its stream were read and not consumed. A read
    /// until a delimiter looks at the bytes of the latest piece, and before them only as far as a
    /// delimiter may begin there; before the first piece it looks at all bytes held. The others
    /// cost nothing that grows.
    pub fn want(&self, held: &[u8]) -> Want
        requires under_way { IsUnderWay (progress_of self.now) }
        requires searched { IsSearched (progress_of self.now) held.now }
        ensures wanted { result ≡ wanted (progress_of self.now) held.now }
        ensures within { AsksWithin (progress_of self.now) held.now result }
        ensures asks_again { MayAskAgain (progress_of self.now) held.now result }
    {
        match *self {
            Machine::ReadSome { size, moved } | Machine::ReadAll { size, moved } => {
                counted_want(size - moved, held)
            }
            Machine::Until {
                delimiter,
                max,
                latest,
            } => until_want(delimiter, max, latest, held),
            Machine::WriteSome { bytes, moved } | Machine::WriteAll { bytes, moved } =>
                Want::Write {
                    from: moved,
                    count: bytes.len() as u32 - moved,
                },
        }
    }

    /// Takes what a call on its stream answered; consuming n held bytes is answered by `Took(n)`.
    /// It completes exactly where the rules of streams say so of all that it got, and by `End` and
    /// `Reset`. Constant cost.
    pub fn got(&mut self, moved: Moved) -> MachineStep
        requires under_way { IsUnderWay (progress_of self.old) }
        requires fits { FitsMove (progress_of self.old) moved }
        ensures step { result ≡ step_of (outcome_by (progress_of self.old) moved) }
        ensures progress { progress_of self.new ≡ progress_after (progress_of self.old) moved }
        ensures under_way { result ≡ MachineStep.Again → IsUnderWay (progress_of self.new) }
    {
        match self {
            Machine::ReadSome {
                size,
                moved: so_far,
            } => some_step(*size, so_far, moved, Code::Eof),
            Machine::ReadAll {
                size,
                moved: so_far,
            } => all_step(*size, so_far, moved, Code::Eof),
            Machine::Until { latest, .. } => until_step(latest, moved),
            Machine::WriteSome {
                bytes,
                moved: so_far,
            } => some_step(bytes.len() as u32, so_far, moved, Code::Broken),
            Machine::WriteAll {
                bytes,
                moved: so_far,
            } => all_step(bytes.len() as u32, so_far, moved, Code::Broken),
        }
    }

    /// The size that it reports where it is aborted: the bytes so far, and 0 of a read until a
    /// delimiter.
    pub fn abort(&self) -> u32
        ensures { result ≡ (progress_of self.now).moved }
    {
        match *self {
            Machine::ReadSome { moved, .. } | Machine::ReadAll { moved, .. } => moved,
            Machine::Until { .. } => 0,
            Machine::WriteSome { moved, .. } | Machine::WriteAll { moved, .. } => moved,
        }
    }
}
