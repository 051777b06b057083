//! What the near end of a stream answers, by what its call on the socket came to and by whether a
//! reset was seen before.

use asio_types::{Failed, Moved};
use reactor_mio::{Transfer, moved_of_read, moved_of_write};
use std::process::Abort;

type Answer = Result<Moved, Failed>;

const TOOK: Answer = Ok(Moved::Took(3));

const NOT_YET: Answer = Ok(Moved::NotYet);

const RESET: Answer = Ok(Moved::Reset);

const END: Answer = Ok(Moved::End);

const FAILED: Answer = Err(Failed);

/// What a call came to, and whether a reset was seen before; then what a read and a write answer.
type Row = (Transfer, bool, Answer, Answer);

const ROWS: &[Row] = &[
    (Transfer::Bytes(3), false, TOOK, TOOK),
    (Transfer::Bytes(3), true, TOOK, TOOK),
    (Transfer::Nothing, false, END, NOT_YET),
    (Transfer::Nothing, true, RESET, NOT_YET),
    (Transfer::WouldBlock, false, NOT_YET, NOT_YET),
    (Transfer::WouldBlock, true, NOT_YET, NOT_YET),
    (Transfer::Interrupted, false, NOT_YET, NOT_YET),
    (Transfer::Interrupted, true, NOT_YET, NOT_YET),
    (Transfer::Reset, false, RESET, RESET),
    (Transfer::Reset, true, RESET, RESET),
    (Transfer::BrokenPipe, false, FAILED, END),
    (Transfer::BrokenPipe, true, FAILED, RESET),
    (Transfer::NotConnected, false, FAILED, FAILED),
    (Transfer::NotConnected, true, FAILED, FAILED),
    (Transfer::Failed, false, FAILED, FAILED),
    (Transfer::Failed, true, FAILED, FAILED),
];

fn is_answer(rt: &impl Abort, answer: Answer, wanted: Answer, transfer: Transfer) {
    assert_eq!(rt; answer, wanted, "{transfer:?}");
}

#[test]
fn a_reset_is_kept(rt: HostRuntime) {
    for row in ROWS {
        let (transfer, was_reset, read, written) = *row;
        is_answer(&rt, moved_of_read(transfer, was_reset), read, transfer);
        is_answer(&rt, moved_of_write(transfer, was_reset), written, transfer);
    }
}
