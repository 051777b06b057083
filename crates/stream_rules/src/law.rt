//! Laws of the definitions. These functions run nothing.

ghost use Rattle.stream_rules.specs.Cutting.{QueuesGoOn, ReadsGoOn, ReadsInPieces, WritesGoOn, WritesInPieces};
ghost use Rattle.stream_rules.specs.Delimiter.{FirstEndIsFirst};

/// Where a delimiter first ends, one stands, and none ends before.
pub fn first_ends_are_first()
    ensures { FirstEndIsFirst }
{}

/// What a reading operation gives doesn't depend on how the bytes were cut, nor what a queue of
/// composed ones does.
pub fn reads_are_cut_anywhere()
    ensures go_on { ReadsGoOn }
    ensures queues_go_on { QueuesGoOn }
    ensures in_pieces { ReadsInPieces }
{}

/// What a writing operation gives doesn't depend on how the room was cut.
pub fn writes_are_cut_anywhere()
    ensures go_on { WritesGoOn }
    ensures in_pieces { WritesInPieces }
{}
