//! What is said to a program that is tuned, and what it says: the words of a child, and the
//! result line of its output.
#![tactic(auto)]

mod result_lines;
mod runs;

pub use result_lines::answer_of;
pub use runs::{Key, Program, Run, Setting, copy_texts, read_program, words_of};
