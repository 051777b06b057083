ghost use Rattle.std.specs.Prelude.{◌≡◌, ◌+◌, ◌-◌, ◌<◌};
ghost use Rattle.asio_types.specs.declared.outside.Moved.TheVariants as moved_to;
ghost use Rattle.stream_rules.specs.Moving.{moved_count};
ghost use Rattle.stream_rules.specs.Serving.{all_of, ended_by, some_of};
ghost use Rattle.composed_ops.specs.Progress.{newest, IsCountWithin};
ghost use Rattle.composed_ops.specs.Step.{step_of, told_code};

use asio_types::{Code, Moved};

/// What an operation on a stream does once a call was answered.
#[derive(Clone, Copy, Debug, PartialEq, Eq)]
pub enum MachineStep {
    /// It goes on.
    Again,
    /// It completes with this code and size.
    Done { code: Code, size: u32 },
}

/// A step of an operation that completes with what it gets; `end` is its code where nothing more
/// will come.
pub(crate) fn some_step(size: u32, so_far: &mut u32, answer: Moved, end: Code) -> MachineStep
    requires missing { so_far.old < size }
    requires fits { IsCountWithin (size - so_far.old) answer }
    ensures step { result
        ≡ step_of (some_of size (moved_count answer) (told_code end answer)).outcome }
    ensures counted { so_far.new ≡ so_far.old + moved_count answer }
    ensures kept { result ≡ MachineStep.Again → so_far.new ≡ so_far.old }
{
    match answer {
        Moved::Took(count) => {
            *so_far += count;
            MachineStep::Done {
                code: Code::Ok,
                size: count,
            }
        }
        Moved::End => MachineStep::Done { code: end, size: 0 },
        Moved::Reset => MachineStep::Done {
            code: Code::Reset,
            size: 0,
        },
        Moved::NotYet => MachineStep::Again,
    }
}

/// A step of an operation that completes with all that it asks for.
pub(crate) fn all_step(size: u32, so_far: &mut u32, answer: Moved, end: Code) -> MachineStep
    requires missing { so_far.old < size }
    requires fits { IsCountWithin (size - so_far.old) answer }
    ensures step { result
        ≡ step_of (all_of size so_far.old (moved_count answer) (told_code end answer)).outcome }
    ensures counted { so_far.new ≡ so_far.old + moved_count answer }
    ensures missing { result ≡ MachineStep.Again → so_far.new < size }
{
    match answer {
        Moved::Took(count) => {
            *so_far += count;
            if *so_far == size {
                return MachineStep::Done {
                    code: Code::Ok,
                    size,
                };
            }
            MachineStep::Again
        }
        Moved::End => MachineStep::Done {
            code: end,
            size: *so_far,
        },
        Moved::Reset => MachineStep::Done {
            code: Code::Reset,
            size: *so_far,
        },
        Moved::NotYet => MachineStep::Again,
    }
}

/// A step of an operation that holds what it gets.
pub(crate) fn until_step(latest: &mut Option<u32>, answer: Moved) -> MachineStep
    ensures step { result ≡ step_of (ended_by (told_code Code.Eof answer) 0) }
    ensures latest { latest.new ≡ newest latest.old answer }
{
    match answer {
        Moved::Took(count) => {
            *latest = Some(count);
            MachineStep::Again
        }
        Moved::End => MachineStep::Done {
            code: Code::Eof,
            size: 0,
        },
        Moved::Reset => MachineStep::Done {
            code: Code::Reset,
            size: 0,
        },
        Moved::NotYet => MachineStep::Again,
    }
}
