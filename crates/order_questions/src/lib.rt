//! Questions about all legal whole histories of a script: whether an event can come, one before
//! another, two handlers at once. It promises that a witness is a legal whole history that meets the
//! condition, that none shorter is listed that does, and that *never* is said only where no legal
//! whole history meets it; and of the orders of handlers alone, that each is that of a legal whole
//! history, none comes twice, and none is left out where it says so. The program `asio_orders`
//! stands on it.
#![tactic(auto)]

mod asking;
mod best;
mod condition;
mod handlers;
mod sign;

pub use asking::{Answer, Asked, ask};
pub use condition::Condition;
pub use handlers::{HandlerOrders, list_handlers};
pub use sign::Sign;
