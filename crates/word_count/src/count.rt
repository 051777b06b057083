/// How many lines, words and bytes there are.
#[derive(Clone, Copy, Drop)]
pub(crate) struct Count {
    /// Ends of lines.
    pub(crate) lines: u64,
    /// What stands between blanks.
    pub(crate) words: u64,
    /// Bytes.
    pub(crate) bytes: u64,
}

fn is_blank(byte: u8) -> bool {
    byte == b' ' || (byte >= b'\t' && byte <= b'\r')
}

impl Count {
    /// Of an empty text.
    pub(crate) fn none() -> Count {
        Count {
            lines: 0,
            words: 0,
            bytes: 0,
        }
    }

    /// Of both together.
    pub(crate) fn plus(self, other: Count) -> Count {
        Count {
            lines: self.lines.saturating_add(other.lines),
            words: self.words.saturating_add(other.words),
            bytes: self.bytes.saturating_add(other.bytes),
        }
    }

    /// Of a piece of a text, behind this byte: a word counts where it begins.
    pub(crate) fn of(before: u8, piece: &[u8]) -> Count {
        let mut count = Count::none();
        let mut last = before;
        for byte in piece {
            let byte = *byte;
            count.bytes = count.bytes.saturating_add(1);
            if byte == b'\n' {
                count.lines = count.lines.saturating_add(1);
            }
            if is_blank(last) && !is_blank(byte) {
                count.words = count.words.saturating_add(1);
            }
            last = byte;
        }
        count
    }
}
