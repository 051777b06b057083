ghost use Rattle.std.specs.Prelude.{◌≡◌, ◌≤◌, ◌+◌, nat_le, true};
ghost use Rattle.io_scheduler.specs.Returned.{came_all, came_moved, came_of, came_on, fits_back};
ghost use Rattle.io_rules.specs.Tries.{fits_error, fits_size};

use crate::settling::Gets;
use asio_types::Code;
use io_rules::{Gave, Operation};

/// How far what a system call gave brings its operation.
#[derive(Clone, Copy)]
pub(crate) enum Came {
    /// It goes on, and has moved so many bytes.
    On(u64),
    /// It settles.
    Settles(Gets),
}

/// It goes on, unless it was cancelled.
fn came_on(moved: u64, cancelled: bool) -> Came
    ensures { result ≡ came_on moved cancelled }
{
    if cancelled {
        Came::Settles(Gets {
            code: Code::Aborted,
            size: moved,
        })
    } else {
        Came::On(moved)
    }
}

/// It has all that it asked for, or goes on.
fn came_all(size: u64, moved: u64, cancelled: bool) -> Came
    ensures { result ≡ came_all size moved cancelled }
{
    if size <= moved {
        Came::Settles(Gets {
            code: Code::Ok,
            size,
        })
    } else {
        came_on(moved, cancelled)
    }
}

/// Likewise, where so many bytes more have moved.
fn came_moved(kind: Operation, moved: u64, more: u64, cancelled: bool) -> Came
    requires { fits_size kind moved more ≡ true }
    ensures { result ≡ came_moved kind moved more cancelled }
{
    match kind {
        Operation::ReadAll { stream: _, size } | Operation::WriteAll { stream: _, size } => {
            came_all(size, moved + more, cancelled)
        }
        _ => Came::Settles(Gets {
            code: Code::Ok,
            size: more,
        }),
    }
}

/// Whether so many bytes are some of those that are still asked for, at least one.
fn fits_size(kind: Operation, moved: u64, more: u64) -> bool
    ensures { result ≡ fits_size kind moved more }
{
    match kind {
        Operation::ReadSome { stream: _, size } | Operation::WriteSome { stream: _, size } => {
            0 < more && more <= size
        }
        Operation::ReadAll { stream: _, size } | Operation::WriteAll { stream: _, size } => {
            0 < more && is_within(moved, more, size)
        }
        _ => false,
    }
}

/// Whether a sum is at most this.
fn is_within(a: u64, b: u64, most: u64) -> bool
    ensures { result ≡ nat_le (a + b) most }
{
    a <= most && b <= most - a
}

/// Whether an operation may fail so.
fn fits_error(kind: Operation, code: Code) -> bool
    ensures { result ≡ fits_error kind code }
{
    match kind {
        Operation::ReadSome { .. } | Operation::ReadAll { .. } | Operation::ReadUntil { .. } => {
            matches!(code, Code::Eof | Code::Reset)
        }
        Operation::WriteSome { .. } | Operation::WriteAll { .. } => {
            matches!(code, Code::Broken | Code::Reset)
        }
        Operation::Accept { .. } | Operation::Connect { .. } => matches!(code, Code::Reset),
        _ => false,
    }
}

/// Whether a system call for such an operation may give this.
pub(crate) fn fits_back(kind: Operation, moved: u64, gave: Gave) -> bool
    ensures { result ≡ fits_back kind moved gave }
{
    match gave {
        Gave::WouldBlock => true,
        Gave::Moved { size } => fits_size(kind, moved, size),
        Gave::Failed { code } => fits_error(kind, code),
        Gave::Made => matches!(kind, Operation::Accept { listener: _ }),
        _ => false,
    }
}

/// How far what a system call gave brings its operation.
pub(crate) fn came_of(kind: Operation, gave: Gave, moved: u64, cancelled: bool) -> Came
    requires { fits_back kind moved gave ≡ true }
    ensures { result ≡ came_of kind gave moved cancelled }
{
    match gave {
        Gave::WouldBlock => came_on(moved, cancelled),
        Gave::Moved { size } => came_moved(kind, moved, size, cancelled),
        Gave::Failed { code } => Came::Settles(Gets { code, size: moved }),
        Gave::Made | Gave::Linked => Came::Settles(Gets {
            code: Code::Ok,
            size: 0,
        }),
        Gave::Found { came: _, end: _ } => came_on(moved, cancelled),
    }
}
