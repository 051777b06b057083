/// What is known of the reactor (Asio reference, io_context::run; that streams may tell no bytes is
/// this project's own).
#[derive(Clone, Copy, Debug, PartialEq, Eq)]
pub struct ReactorKind {
    /// Whether it tells its bytes: then an operation of a stream completes just as the script's
    /// world gives it. If not, with any code and size that its kind can have.
    pub told: bool,
    /// Whether it may fail.
    pub failing: bool,
}

/// How many beginnings are looked at where nobody says it: days of work.
pub const MOST_BEGINNINGS: u32 = 1_000_000_000;

/// How far the histories of a script are looked at.
#[derive(Clone, Copy, Debug, PartialEq, Eq)]
pub struct Bounds {
    /// The reactor.
    pub reactor: ReactorKind,
    /// How many histories are listed at most.
    pub histories: usize,
    /// How many beginnings of histories are looked at at most.
    pub beginnings: u32,
}

impl Bounds {
    /// 10,000 histories, of a reactor that tells its bytes and doesn't fail.
    pub fn usual() -> Bounds {
        Bounds {
            reactor: ReactorKind {
                told: true,
                failing: false,
            },
            histories: 10_000,
            beginnings: MOST_BEGINNINGS,
        }
    }
}
