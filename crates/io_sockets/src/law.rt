ghost use Rattle.io_sockets.specs.Lost.{NoneLost};

/// No readiness is lost: after any edges and system calls a way of a socket is ready exactly where
/// it is new, or an edge came while the socket was out for the last call that found nothing more to
/// do.
pub fn no_readiness_is_lost()
    ensures { NoneLost }
{}
