ghost use Rattle.std.specs.Prelude.{◌≡◌};
ghost use Rattle.session_script.specs.Limits.{limits_of};

/// The most acts that a script has, in either version.
pub const MOST_ACTS: u32 = 4_096;

/// The most bytes that a text of a script has, in both versions.
pub const MOST_BYTES: usize = 262_144;

/// The most bytes of which a reader has any use: one more shows that a text is too long.
pub const MOST_READ: usize = MOST_BYTES + 1;

/// How deep bodies nest at most, in both versions, the body of `open` being 1.
pub const MOST_NESTING: u32 = 32;

/// The greatest values that a version allows. The least are 0, and 1 for rounds, workers, sizes,
/// bytes and room.
#[derive(Clone, Copy)]
pub(crate) struct Limits {
    /// How many acts there are; so for strands, timers, slots, streams, guards and rounds.
    pub(crate) acts: u32,
    /// How deep bodies nest.
    pub(crate) nesting: u32,
    pub(crate) strands: u8,
    pub(crate) timers: u8,
    pub(crate) slots: u8,
    pub(crate) streams: u8,
    pub(crate) guards: u8,
    /// How many world lines there are.
    pub(crate) lines: u32,
    pub(crate) rounds: u32,
    /// Workers of one round.
    pub(crate) workers: u8,
    /// The size of a read and the limit of a read until a delimiter, and the bytes of a write or a
    /// feed.
    pub(crate) size: u32,
    /// The bytes of a delimiter.
    pub(crate) delimiter: u32,
    /// What one world line adds to the room of a stream.
    pub(crate) room: u32,
    /// Times and durations.
    pub(crate) time: u64,
}

/// The limits of a version, 1 or 2.
#[tactic(auto, unfolding(crate::specs::Limits::limits_of))]
pub(crate) fn limits_of(version: u8) -> Limits
    ensures { result ≡ limits_of version }
{
    if version == 1 {
        Limits {
            acts: 1_024,
            nesting: MOST_NESTING,
            strands: 16,
            timers: 32,
            slots: 64,
            streams: 16,
            guards: 16,
            lines: 256,
            rounds: 16,
            workers: 16,
            size: 4_096,
            delimiter: 16,
            room: 65_536,
            time: 1_099_511_627_775,
        }
    } else {
        Limits {
            acts: MOST_ACTS,
            nesting: MOST_NESTING,
            strands: 64,
            timers: 128,
            slots: 128,
            streams: 64,
            guards: 64,
            lines: 1_024,
            rounds: 64,
            workers: 16,
            size: 16_384,
            delimiter: 16,
            room: 262_144,
            time: 1_099_511_627_775,
        }
    }
}
