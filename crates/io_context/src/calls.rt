ghost use Rattle.std.specs.Prelude.{◌≡◌, []};

use crate::system_call::{SystemCall, close_call};
use asio_types::NoMemory;
use io_reactor::Reactor;
use std::alloc::Global;

/// How many system calls a worker makes in one go, at most.
const MOST_CALLS: usize = 8;

/// For so many workers at a time there are lists.
const MOST_LISTS: usize = 64;

/// Empty lists, each with room for the system calls that a worker makes in one go.
pub(crate) struct CallLists<S> {
    lists: Vec<Vec<SystemCall<S>>>,
}

/// The sockets of these system calls are closed, and their memory is given back.
fn close_calls<W: Reactor>(reactor: &W, calls: Vec<SystemCall<W::Socket>>) {
    let mut calls = calls;
    'calls: while let Some(call) = calls.pop() {
        close_call(reactor, call);
    }
    calls.destroy_empty();
}

/// Likewise of all lists.
fn close_lists<W: Reactor>(reactor: &W, lists: Vec<Vec<SystemCall<W::Socket>>>) {
    let mut lists = lists;
    'lists: while let Some(calls) = lists.pop() {
        close_calls(reactor, calls);
    }
    lists.destroy_empty();
}

impl<S> CallLists<S> {
    /// Takes memory for all of them, and nothing takes memory later; `NoMemory` where it is refused.
    pub(crate) fn make<W: Reactor<Socket = S>>(
        alloc: Global,
        reactor: &W,
    ) -> Result<CallLists<S>, NoMemory> {
        let mut lists = Vec::with_capacity(alloc, MOST_LISTS)?;
        'lists: for _ in 0..MOST_LISTS {
            match Vec::with_capacity(alloc, MOST_CALLS) {
                Ok(calls) => lists.push_reserved(calls),
                Err(_) => {
                    close_lists(reactor, lists);
                    return Err(NoMemory);
                }
            }
        }
        Ok(CallLists { lists })
    }

    /// Gives their memory back.
    pub(crate) fn close<W: Reactor<Socket = S>>(self, reactor: &W) {
        let CallLists { lists } = self;
        close_lists(reactor, lists);
    }

    /// One for a worker; `None` where other workers have them all.
    pub(crate) fn take(&mut self) -> Option<Vec<SystemCall<S>>> {
        self.lists.pop()
    }

    /// One that is empty comes back.
    pub(crate) fn give(&mut self, calls: Vec<SystemCall<S>>)
        requires { calls.items ≡ [] }
    {
        if self.lists.len() < self.lists.capacity() {
            self.lists.push_reserved(calls);
        } else {
            calls.destroy_empty();
        }
    }
}
