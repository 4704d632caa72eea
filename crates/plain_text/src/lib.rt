//! Texts and lists as contracts see them, words, and numbers as text.
#![tactic(auto)]

mod breaks;
mod comments;
mod cuts;
mod decimals;
mod items;
mod limits;
mod line_positions;
mod line_texts;
mod parts;
mod text;
mod texts;
mod times;
mod tokenizer;
mod trimming;
mod words;

pub use breaks::first_line;
pub use comments::uncommented;
pub use cuts::{after_prefix, parted};
pub use decimals::{all_digits, push_seconds, read_count, seconds_text};
pub use items::Items;
pub use limits::MAX_BYTES;
pub use line_positions::{Line, TextLines, lines};
pub use line_texts::{NumberedLine, NumberedLines, numbered_lines};
pub use parts::pieces;
pub use text::Text;
pub use texts::{has_text, position_of, texts_differ};
pub use times::{TimeFault, read_micros};
pub use tokenizer::{Token, token_texts, tokens};
pub use trimming::{
    after_word, end_trimmed, first_word, front_trimmed, front_trimmed_bytes, trimmed, trimmed_bytes,
};
pub use words::{is_blank, is_word};
