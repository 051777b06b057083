//! Where in a text something stands, and texts that are put together: the comments
//! at a script's head, lines, columns and tokens, a line with carets below a place in it, and one
//! object a line. It promises that a place is that of the line, the token or the part that is asked for. What the
//! program `asio` says of files stands on it.
#![tactic(auto)]

mod column;
mod excerpt;
mod json_line;
mod lines;
mod pieces;
mod text;
mod tokens;

pub use column::{column_of, line_round};
pub use excerpt::{Excerpt, excerpt_at};
pub use json_line::JsonLine;
pub use lines::{ScriptParts, line_begin, lines_in, script_parts_of};
pub use pieces::{Pieces, digits_len, len_before, lines_of, pieces_of};
pub use text::Text;
pub use tokens::{Token, Tokens, is_printable, token_at, token_from, tokens_of};
