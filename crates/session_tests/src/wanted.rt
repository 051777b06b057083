//! What is wanted of texts and bytes, each in a function of its own: an assertion in a test costs
//! its proof with all that the test holds.

use std::alloc::Global;
use std::process::Abort;

/// Said where memory is refused.
pub(crate) const MEMORY: &str = "memory for a test";

/// A text is the one that is wanted.
pub(crate) fn is_text<R: Abort>(rt: &R, text: &str, want: &str, row: &str) {
    assert_eq!(rt; text, want, "{row}");
}

/// Bytes are those that are wanted.
pub(crate) fn is_bytes<R: Abort>(rt: &R, bytes: &[u8], want: &[u8], row: &str) {
    assert_eq!(rt; bytes, want, "{row}");
}

/// A text has this part.
pub(crate) fn has<R: Abort>(rt: &R, text: &str, part: &str, row: &str) {
    let has = text.contains(part);
    assert!(rt; has, "{row}: {text}");
}

/// A text doesn't have this part.
pub(crate) fn lacks<R: Abort>(rt: &R, text: &str, part: &str, row: &str) {
    let has = text.contains(part);
    assert!(rt; !has, "{row}: {text}");
}

/// Bytes as a text.
pub(crate) fn text_of<R: Abort>(rt: &R, alloc: Global, bytes: &[u8]) -> String {
    String::from_utf8_lossy(alloc, bytes).expect(rt, MEMORY)
}

/// The lines that ` / ` separates.
pub(crate) fn lines<R: Abort>(rt: &R, alloc: Global, text: &str) -> String {
    let mut all = String::new(alloc);
    if text.is_empty() {
        return all;
    }
    for line in text.split(" / ") {
        all.push_str(line).expect(rt, MEMORY);
        all.push('\n').expect(rt, MEMORY);
    }
    all
}

/// A text is that of these lines.
pub(crate) fn is_lines<R: Abort>(rt: &R, alloc: Global, text: &str, want: &str, row: &str) {
    let want = lines(rt, alloc, want);
    is_text(rt, text, want.as_str(), row);
}
