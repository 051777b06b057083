//! Operations of a context without a lock as futures: a task is a state machine that gets the results
//! of operations, while a worker executes handlers beside others. It promises which receipts a task
//! gets, and why it ends; and of a session of tasks that its history is legal, holds what they got, and
//! says how each ends.
#![tactic(auto)]

mod collecting;
mod ending;
mod future;
mod gathering;
mod report;
mod rounds;
mod running;
mod seated_worker;
mod seats;
mod session;
mod stepper;
mod stepping;
mod task;
mod task_end;

pub use future::TaskFuture;
pub use report::TaskReport;
pub use running::run_task;
pub use seated_worker::{LanesNamed, SeatedWorker};
pub use session::{has_one_run, task_session};
pub use stepper::Stepper;
pub use stepping::step;
pub use task::Task;
pub use task_end::TaskEnd;
