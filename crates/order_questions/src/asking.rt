ghost use Rattle.std.specs.Prelude.{◌≡◌, true, false, IfOk};
ghost use Rattle.session_orders.specs.Bound.{IsCutOff};
ghost use Rattle.session_orders.specs.Order.{AreOrders, HasAllOrders};
ghost use Rattle.order_questions.specs.Answer.{AnswersListed, IsAnswer};

use crate::best::shortest;
use crate::condition::Condition;
use asio_types::NoMemory;
use session_orders::{Bounds, Orders, list_orders};
use session_script::Script;
use std::alloc::Global;

/// Whether some legal whole history meets a condition.
#[derive(Clone, Copy, Debug, PartialEq, Eq)]
pub enum Answer {
    /// The listed history with this number does, and no shorter one that is listed.
    Yes {
        /// Its number, from 0.
        at: usize,
    },
    /// None does.
    Never,
    /// None that is listed does, and there may be others.
    Undecided,
}

/// An answer, and the histories that were looked at for it.
#[derive(Drop)]
pub struct Asked {
    /// The histories.
    pub orders: Orders,
    /// The answer.
    pub answer: Answer,
}

/// The answer that these histories give.
fn answer_of(orders: &Orders, condition: Condition) -> Answer
    ensures { AnswersListed condition orders.now result }
{
    match shortest(orders.histories(), condition) {
        Some(at) => Answer::Yes { at },
        None => if orders.are_all() {
            Answer::Never
        } else {
            Answer::Undecided
        },
    }
}

/// Whether a legal whole history of the script meets the condition, as far as the bounds allow: yes
/// with the first of the shortest histories listed that do, never where all are listed and none
/// does, and else undecided: then the list stopped at a bound. Takes memory for the histories that it lists.
pub fn ask(
    alloc: Global,
    script: &Script,
    bounds: Bounds,
    condition: Condition,
) -> Result<Asked, NoMemory>
    ensures right { IfOk result (λ asked. AreOrders script.now bounds.reactor asked.orders.orders) }
    ensures whole { IfOk result (λ asked.
        asked.orders.all ≡ true → HasAllOrders script.now bounds.reactor asked.orders.orders) }
    ensures cut { IfOk result (λ asked.
        asked.orders.all ≡ false → IsCutOff script.now bounds asked.orders.orders) }
    ensures answer { IfOk result (λ asked.
        IsAnswer script.now bounds.reactor condition asked.orders asked.answer) }
{
    let orders = list_orders(alloc, script, bounds)?;
    let answer = answer_of(&orders, condition);
    Ok(Asked { orders, answer })
}
