use chat_handlers::is_word;

/// More rooms than these aren't made.
pub(crate) const MOST_ROOMS: usize = 16;

/// Whether these words name rooms, one at least and not too many.
pub(crate) fn are_rooms(words: &[String]) -> bool {
    !words.is_empty()
        && words.len() <= MOST_ROOMS
        && words.iter().all(|word| is_word(word.as_str().as_bytes()))
}
