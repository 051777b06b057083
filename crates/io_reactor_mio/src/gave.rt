ghost use Rattle.std.specs.Prelude.{◌≡◌, ◌≤◌, IfOk, IfSome};
ghost use Rattle.io_reactor.specs.Answers.{MayRead, MayWrite};
ghost use Rattle.io_reactor_mio.specs.Gave.{KeepsReset, ended};

use asio_types::Code;
use io_reactor::Transferred;
use std::io;
use std::io::ErrorKind;

/// How a side that ended so answers where a reset was seen before or wasn't. A reset is told once by the
/// system, and by this each time.
fn ended(was_reset: bool, code: Code) -> Transferred
    ensures { result ≡ ended was_reset code }
{
    if was_reset {
        Transferred::Failed(Code::Reset)
    } else {
        Transferred::Failed(code)
    }
}

/// What a read answers whose call on the socket gave this, for so many bytes at most; `None` where a
/// signal came between.
pub(crate) fn read_gave(
    gave: io::Result<usize>,
    most: usize,
    was_reset: bool,
) -> Option<Transferred>
    requires { IfOk gave (λ count. count ≤ most) }
    ensures within { IfSome result (MayRead most) }
    ensures reset { IfSome result (KeepsReset was_reset) }
{
    let _most = most;
    match gave {
        Ok(0) => Some(ended(was_reset, Code::Eof)),
        Ok(count) => Some(Transferred::Bytes(count)),
        Err(error) => match error.kind() {
            ErrorKind::WouldBlock => Some(Transferred::WouldBlock),
            ErrorKind::Interrupted => None,
            _ => Some(Transferred::Failed(Code::Reset)),
        },
    }
}

/// What a write answers, likewise. One of which nothing is taken has met a broken pipe.
pub(crate) fn write_gave(
    gave: io::Result<usize>,
    most: usize,
    was_reset: bool,
) -> Option<Transferred>
    requires { IfOk gave (λ count. count ≤ most) }
    ensures within { IfSome result (MayWrite most) }
    ensures reset { IfSome result (KeepsReset was_reset) }
{
    let _most = most;
    match gave {
        Ok(0) => Some(ended(was_reset, Code::Broken)),
        Ok(count) => Some(Transferred::Bytes(count)),
        Err(error) => match error.kind() {
            ErrorKind::WouldBlock => Some(Transferred::WouldBlock),
            ErrorKind::Interrupted => None,
            ErrorKind::BrokenPipe => Some(ended(was_reset, Code::Broken)),
            _ => Some(Transferred::Failed(Code::Reset)),
        },
    }
}
