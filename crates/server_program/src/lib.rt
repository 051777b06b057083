//! What the programs of servers share: what the words of their command lines ask for, and how they end. A server
//! of many threads stands on it, as `tcp_echo`, `http_hello` and `chat`.
#![tactic(auto)]

mod addresses;
mod ending;
mod words;

pub use addresses::{MOST_ADDRESSES, addresses_of};
pub use ending::serve_until_end;
pub use words::{MOST_WORKERS, ServerWords, words_of};
