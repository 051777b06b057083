ghost use Rattle.std.specs.Prelude.{◌≡◌};
ghost use Rattle.asio_types.specs.Code.{class_of_code};

/// How an operation completed: the `error_code` of its handler, numbered from 0 in the order of its
/// variants.
#[derive(Clone, Copy, Debug, PartialEq, Eq)]
pub enum Code {
    /// Success.
    Ok,
    /// Cancelled: `error::operation_aborted`.
    Aborted,
    /// The peer sends nothing more: `error::eof`.
    Eof,
    /// No delimiter within the limit: `error::not_found`.
    NotFound,
    /// The stream is closed: `error::bad_descriptor`.
    Bad,
    /// The peer takes nothing more: `error::broken_pipe`.
    Broken,
    /// The peer is gone: `error::connection_reset`.
    Reset,
}

/// Which branch of a handler a code chooses.
#[derive(Clone, Copy, Debug, PartialEq, Eq)]
pub enum Class {
    /// The operation succeeded.
    Ok,
    /// It was cancelled.
    Abort,
    /// It failed in another way.
    Other,
}

/// The class of a code: `Ok` and `Aborted` have their own, every other code is `Other`.
pub fn class_of(code: Code) -> Class
    ensures { result ≡ class_of_code code }
{
    match code {
        Code::Ok => Class::Ok,
        Code::Aborted => Class::Abort,
        _ => Class::Other,
    }
}
