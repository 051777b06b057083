ghost use Rattle.io_streams.specs.InOrder.{AreCancelledInOrder};

/// `Streams::cancel_first`, called again and again, comes to the operations of a stream in order of acceptance,
/// and leaves the one alone whose system call is under way (`basic_socket::cancel`).
pub fn operations_are_cancelled_in_order<T>()
    ensures { AreCancelledInOrder T }
{}
