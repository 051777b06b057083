//! The handlers of an HTTP/1.1 server, and the connection that they speak over: a machine that is fed
//! what came, cut anywhere, and gives the bytes of the answers that are owed to all of it. They promise
//! that each request is answered once, in order, by what its head asks for, whatever pieces it came in. A
//! server stands on them.
#![tactic(auto)]

mod accepting;
mod answer;
mod connection;
mod heads;
mod http;
pub mod law;
mod requests;
mod serving;

pub use answer::{Answer, Status};
pub use connection::Connection;
pub use heads::MOST_HEAD;
pub use http::{Exchange, Http};
pub use requests::MOST_FIELDS;
pub use serving::{Activity, Link, MOST_READ, Service};
