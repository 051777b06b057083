//! The values that every layer of asio_run speaks of: numbers, completion codes, cancellation
//! types, events of a history, the scripted world, and the sources and sinks of the program. It
//! promises that a source or a sink fails only where its count of faults rose. All other crates
//! stand on it.
#![tactic(auto)]

mod bytes;
mod cancellation;
mod code;
mod event;
mod failure;
mod kept;
mod mark;
mod number;
mod outside;
mod plan;
mod sink;
mod slow_sink;
mod slow_source;
mod source;
mod std_sink;
mod std_source;
mod sure_sink;
mod sure_source;
mod text_sink;
mod text_source;
mod unread;
mod whole_write;
mod world;

pub use bytes::Bytes;
pub use cancellation::Types;
pub use code::{Class, Code, class_of};
pub use event::Event;
pub use failure::{Failed, NoMemory};
pub use mark::{ReadMark, WriteMark};
pub use number::{ActNo, GuardNo, Lane, OpNo, SlotNo, StrandNo, StreamNo, TimerNo};
pub use outside::{Moved, Point, SetupFault};
pub use plan::FailPlan;
pub use sink::Sink;
pub use slow_sink::SlowSink;
pub use slow_source::SlowSource;
pub use source::Source;
pub use std_sink::StdSink;
pub use std_source::StdSource;
pub use sure_sink::SureSink;
pub use sure_source::SureSource;
pub use text_sink::TextSink;
pub use text_source::TextSource;
pub use whole_write::write_all;
pub use world::{Line, Lines, What, World};
