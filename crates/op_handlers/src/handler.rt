ghost use Rattle.op_handlers.specs.Job.{AnswersMarks, AnswersMarks-prop};

use crate::call::{Call, Ran, Spend};

/// A completion handler: called at most once, or destroyed without a call (Asio reference,
/// "Requirements on asynchronous operations"). It must be spent.
///
/// It is seen as its marks, of which the run mark is one number whatever the call. No field holds
/// them: they are what the job answers.
pub struct Handler {
    // what is called, once, to spend the handler
    job: Box<dyn FnOnce(Spend) -> Ran + Send>,
    pub ghost marked: { AnswersMarks (pre job) (post job) } by { AnswersMarks-prop _ _ },
}

impl Handler {
    ghost use Rattle.std.specs.Prelude.{◌≡◌};
    ghost use Rattle.asio_types.specs.Code.{class_of_code};
    ghost use Rattle.op_handlers.specs.Job.{AnswersBy};
    ghost use Rattle.op_handlers.specs.Marks.{FixedMarks, fixed};
    ghost use Rattle.op_handlers.specs.Handler.{marks_of};

    /// The handler that does this job when it is spent. It takes no memory.
    ///
    /// The job may be called either way, and its contract names its two marks: executed it answers
    /// the run mark, the class of the code and the position of the begin, discarded the drop mark,
    /// `Ok` and 0.
    pub fn of(job: Box<dyn FnOnce(Spend) -> Ran + Send>) -> Handler
        requires { (marks : FixedMarks) × AnswersBy (pre job) (post job) marks }
        ensures { (marks : FixedMarks) → AnswersBy (pre job) (post job) marks →
            marks_of result ≡ fixed marks }
    {
        Handler { job }
    }

    /// Executes the handler: it answers its run mark, the class of the code and the position of its
    /// begin.
    pub fn call(self, call: Call) -> Ran
        ensures mark { result.mark ≡ (marks_of self).run call }
        ensures class { result.class ≡ class_of_code call.code }
        ensures begun { result.begun ≡ call.begun }
    {
        let Handler { job } = self;
        job(Spend::Execute(call))
    }

    /// Destroys the handler without a call, and answers its drop mark.
    pub fn discard(self) -> u64
        ensures { result ≡ (marks_of self).drop }
    {
        let Handler { job } = self;
        job(Spend::Discard).mark
    }
}
