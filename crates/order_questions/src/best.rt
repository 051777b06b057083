ghost use Rattle.std.specs.Prelude.{◌≡◌, ◌↔◌, ◌<◌, ◌+◌, IsTrue, length};
ghost use Rattle.session_orders.specs.Listed.{events_in};
ghost use Rattle.order_questions.specs.Answer.{IsBest, order_at};
ghost use Rattle.order_questions.specs.Condition.{Meets};

use crate::condition::Condition;
use history_book::History;

/// Whether the history with this number meets a condition.
fn meets_at(histories: &[History], condition: Condition, i: usize) -> bool
    requires { i < length histories.now }
    ensures { IsTrue result ↔ Meets condition (order_at (events_in histories.now) i) }
{
    let history = &histories[i];
    condition.is_met(history.events())
}

/// How many events the history with this number has.
fn len_at(histories: &[History], i: usize) -> usize
    requires { i < length histories.now }
    ensures { result ≡ length (order_at (events_in histories.now) i) }
{
    let history = &histories[i];
    history.events().len()
}

/// The best of one history more: the first of the shortest that meet the condition.
fn better(
    histories: &[History],
    condition: Condition,
    best: Option<usize>,
    i: usize,
) -> Option<usize>
    requires within { i < length histories.now }
    requires best { IsBest condition (events_in histories.now) i best }
    ensures { IsBest condition (events_in histories.now) (i + 1) result }
{
    let met = meets_at(histories, condition, i);
    if !met {
        return best;
    }
    let Some(at) = best else {
        return Some(i);
    };
    let here = len_at(histories, i);
    let there = len_at(histories, at);
    if here < there { Some(i) } else { Some(at) }
}

/// The number of the first of the shortest histories that meet the condition.
pub(crate) fn shortest(histories: &[History], condition: Condition) -> Option<usize>
    ensures { IsBest condition (events_in histories.now) (length (events_in histories.now)) result }
{
    let mut best = None;
    for i in 0..histories.len() {
        best = better(histories, condition, best, i);
    }
    best
}
