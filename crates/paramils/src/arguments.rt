//! The words of the call, as the system hands them over.
use objective::Memory;
use plain_text::Text;
use std::alloc::Global;
use std::env::Env;
use std::str;

/// How many bytes a word has at most, as Linux hands it over.
const LONGEST_WORD: usize = 131_072;

/// A word of the call.
#[derive(Drop)]
enum Word {
    /// A text.
    Text(Text),
    /// It isn't UTF-8.
    Other,
    /// There are no further words.
    End,
}

/// The word at this place, from 0; the program's name isn't among the words.
fn word_at(rt: &impl Env, alloc: Global, place: usize, room: &mut [u8]) -> Result<Word, Memory> {
    let Ok(length) = rt.arg(place.saturating_add(1), room) else {
        return Ok(Word::End);
    };
    match str::from_utf8(&room[..length]) {
        Ok(text) => Ok(Word::Text(Text::of(alloc, text)?)),
        Err(_) => Ok(Word::Other),
    }
}

/// Puts an empty word in the place of a pair's words, so that the pair is wrong.
fn spoil_pair(alloc: Global, words: &mut Vec<Text>) -> Result<(), Memory> {
    if words.len() % 2 == 1 {
        let _ = words.pop();
    }
    words.push(Text::of(alloc, "")?)?;
    Ok(())
}

/// The words after the program's name. Words are pairs: where one of a pair isn't UTF-8, an
/// empty word stands for the pair, and nothing follows. So the pair is refused by its place, as
/// each wrong one.
pub(crate) fn words_of_call(rt: &impl Env, alloc: Global) -> Result<Vec<Text>, Memory> {
    let mut room = Vec::new(alloc);
    room.resize(LONGEST_WORD, 0u8)?;
    let mut words = Vec::new(alloc);
    for place in 0..usize::MAX {
        match word_at(rt, alloc, place, room.as_mut_slice())? {
            Word::Text(word) => words.push(word)?,
            Word::Other => {
                spoil_pair(alloc, &mut words)?;
                break;
            }
            Word::End => break,
        }
    }
    Ok(words)
}
