/// What all that was seen has in common.
#[derive(Clone, Copy, Debug, PartialEq, Eq)]
pub(crate) enum Common {
    Unseen,
    One { number: u64 },
    Mixed,
}

impl Common {
    /// The same, with one more.
    pub(crate) fn with(self, seen: Option<u64>) -> Common {
        match (self, seen) {
            (Common::Unseen, Some(number)) => Common::One { number },
            (Common::One { number }, Some(other)) if number == other => self,
            _ => Common::Mixed,
        }
    }

    pub(crate) fn one(self) -> Option<u64> {
        match self {
            Common::One { number } => Some(number),
            Common::Unseen | Common::Mixed => None,
        }
    }
}
