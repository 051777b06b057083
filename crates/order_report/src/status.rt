/// How a session of the command ended: the program's exit status.
#[derive(Clone, Copy, Debug, PartialEq, Eq)]
pub enum OrdersStatus {
    /// What was asked is answered, and this was written.
    Done,
    /// The words are no form of the command.
    Usage,
    /// The input is no script.
    Refused,
    /// Reading failed: the file can't be opened, or the input broke off.
    ReadFault,
    /// Writing failed.
    WriteFault,
    /// Memory was asked for and not given.
    NoMemory,
}

impl OrdersStatus {
    /// The exit status. 5 is missing: it is that of a failed reactor, of which there is none here.
    pub fn number(self) -> u8 {
        match self {
            OrdersStatus::Done => 0,
            OrdersStatus::Usage => 1,
            OrdersStatus::Refused => 2,
            OrdersStatus::ReadFault => 3,
            OrdersStatus::WriteFault => 4,
            OrdersStatus::NoMemory => 6,
        }
    }

    /// The line that is written to the notes: none with an answer.
    pub fn note(self) -> &'static [u8] {
        match self {
            OrdersStatus::Done => b"",
            OrdersStatus::Usage => {
                b"asio_orders: usage: asio_orders [FILE] [--net] [--most N] [--list | --handlers | --can CONDITION]\n"
            }
            OrdersStatus::Refused => b"asio_orders: no script\n",
            OrdersStatus::ReadFault => b"asio_orders: read fault\n",
            OrdersStatus::WriteFault => b"asio_orders: write fault\n",
            OrdersStatus::NoMemory => b"asio_orders: no memory\n",
        }
    }
}
