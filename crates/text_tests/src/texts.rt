//! Worked times, tokens and lines, and each other call for texts once.
use crate::checks::check;
use objective::{Memory, Micros};
use plain_text::{
    Items, Text, TimeFault, after_prefix, after_word, all_digits, end_trimmed, first_word,
    front_trimmed, has_text, lines, numbered_lines, parted, pieces, position_of, push_seconds,
    read_count, read_micros, seconds_text, texts_differ, token_texts, tokens, trimmed, uncommented,
};
use std::alloc::Global;
use test_support::words_between;

#[test]
fn reads_worked_times(rt: HostRuntime) {
    for (text, wanted) in &[
        ("0", Ok(Micros(0))),
        (".5", Ok(Micros(500_000))),
        ("5.", Ok(Micros(5_000_000))),
        ("1e-07", Ok(Micros(1))),
        ("1E+2", Ok(Micros(100_000_000))),
        ("0.0000001", Ok(Micros(1))),
        ("0e999", Ok(Micros(0))),
        ("1e-999", Ok(Micros(1))),
        ("2.5000001", Ok(Micros(2_500_001))),
        ("18446744073709.551615", Ok(Micros(u64::MAX))),
        ("18446744073709.5516151", Err(TimeFault::TooLarge)),
        ("1e20", Err(TimeFault::TooLarge)),
        ("", Err(TimeFault::NotDecimal)),
        (".", Err(TimeFault::NotDecimal)),
        ("1e", Err(TimeFault::NotDecimal)),
        ("1e+1000", Err(TimeFault::NotDecimal)),
        ("+1", Err(TimeFault::NotDecimal)),
        ("1 ", Err(TimeFault::NotDecimal)),
        ("1.2.3", Err(TimeFault::NotDecimal)),
    ] {
        check(&rt, read_micros(text.as_bytes()) == *wanted, text);
    }
}

/// What is read of 100,000 zeros and these bytes.
fn after_many_zeros(alloc: Global, end: &str) -> Result<Result<Micros, TimeFault>, Memory> {
    let mut text = vec![in alloc; b'0'; 100_000]?;
    text.extend_from_slice(end.as_bytes())?;
    Ok(read_micros(&text))
}

#[test]
fn reads_many_zeros(rt: HostRuntime) {
    for (end, wanted) in &[("", Micros(0)), (".000001", Micros(1))] {
        let right = match after_many_zeros(rt.alloc(), end) {
            Ok(found) => found == Ok(*wanted),
            Err(_) => false,
        };
        check(&rt, right, end);
    }
}

/// Whether the tokens of a line are at these places.
fn has_tokens_at(alloc: Global, line: &str, places: &[(usize, usize)]) -> Result<bool, Memory> {
    let found = tokens(alloc, line.as_bytes())?;
    if found.len() != places.len() {
        return Ok(false);
    }
    for (token, place) in found.iter().zip(places) {
        if (token.start, token.end) != *place {
            return Ok(false);
        }
    }
    Ok(true)
}

#[test]
fn splits_worked_lines(rt: HostRuntime) {
    for (line, places) in &[
        (
            " alpha {1,\t2.5} [1]# none",
            [
                (1, 6),
                (7, 8),
                (8, 9),
                (9, 10),
                (11, 14),
                (14, 15),
                (16, 17),
                (17, 18),
                (18, 19),
            ]
            .as_slice(),
        ),
        ("", [].as_slice()),
    ] {
        let found = has_tokens_at(rt.alloc(), line, places);
        check(&rt, matches!(found, Ok(true)), line);
    }
}

/// Whether a line has these texts as its tokens.
fn has_tokens(alloc: Global, line: &str, wanted: &[&str]) -> Result<bool, Memory> {
    let found = token_texts(alloc, line)?;
    if found.len() != wanted.len() {
        return Ok(false);
    }
    for (text, expected) in found.iter().zip(wanted) {
        if *text != *expected {
            return Ok(false);
        }
    }
    Ok(true)
}

#[test]
fn reads_tokens_as_texts(rt: HostRuntime) {
    let wanted = ["größe", "{", "1", ",", "zwölf", "}", "=", "[", "€", "]"];
    let line = "größe{1,\tzwölf} = [€] # ü";
    let found = has_tokens(rt.alloc(), line, &wanted);
    check(&rt, matches!(found, Ok(true)), line);
}

/// The number, the start and the end of a line.
type Place = (u32, usize, usize);

/// Whether these lines are found in a short text, and then none.
fn has_lines(text: &str, places: &[Place]) -> bool {
    if text.len() > 100 {
        return false;
    }
    let mut found = lines(text.as_bytes());
    for place in places {
        match found.next() {
            Some(line) if (line.number, line.start, line.end) == *place => {}
            _ => return false,
        }
    }
    found.next().is_none()
}

/// Whether the bytes at these places of a short text are its lines.
fn has_numbered(text: &[u8], places: &[Place]) -> bool {
    if text.len() > 100 {
        return false;
    }
    let mut found = numbered_lines(text);
    for (number, start, end) in places {
        match found.next() {
            Some(line) if line.number == *number && text.get(*start..*end) == Some(line.bytes) => {}
            _ => return false,
        }
    }
    found.next().is_none()
}

#[test]
fn finds_worked_lines(rt: HostRuntime) {
    for (text, places) in &[
        ("", [].as_slice()),
        ("x\n", [(1, 0, 1)].as_slice()),
        ("x\n\n", [(1, 0, 1), (2, 2, 2)].as_slice()),
        ("a\r\n\nb\r", [(1, 0, 1), (2, 3, 3), (3, 4, 6)].as_slice()),
        ("\r\r\n", [(1, 0, 1)].as_slice()),
        (
            "größe\r\n\n€",
            [(1, 0, 7), (2, 9, 9), (3, 10, 13)].as_slice(),
        ),
    ] {
        check(&rt, has_lines(text, places), text);
        check(&rt, has_numbered(text.as_bytes(), places), text);
    }
}

#[test]
fn cuts_texts(rt: HostRuntime) {
    for (name, found, wanted) in &[
        ("without front", front_trimmed(" \ta b "), "a b "),
        ("without end", end_trimmed(" a b \t"), " a b"),
        ("without ends", trimmed("\t a b "), "a b"),
        ("first word", first_word("a b c"), "a"),
        ("after the first word", after_word("a b c"), " b c"),
        ("before a comment", uncommented("a # b # c"), "a "),
    ] {
        check(&rt, *found == *wanted, name);
    }
}

/// Whether a text is parted at the first separator, and a prefix is left out.
fn are_parted() -> bool {
    match (parted("a=b=c", '='), after_prefix("-key", "-")) {
        (Some((before, after)), Some(key)) => before == "a" && after == "b=c" && key == "key",
        _ => false,
    }
}

/// Whether digits are told, and read as a number.
fn are_counted() -> bool {
    all_digits(b"0120") && !all_digits(b"1.5") && read_count(b"0120") == Some(120)
}

#[test]
fn parts_and_counts(rt: HostRuntime) {
    check(&rt, are_parted(), "parts");
    check(&rt, are_counted(), "counts");
}

/// Whether b is among these texts, c is the third, and they differ.
fn are_listed(alloc: Global, texts: &[Text]) -> Result<bool, Memory> {
    let placed = has_text(texts, "b") && position_of(texts, "c") == 2;
    Ok(placed && texts_differ(alloc, texts)?)
}

/// Whether the copied words of a text are found.
fn are_copied(alloc: Global) -> Result<bool, Memory> {
    let texts = Items::new(words_between(alloc, "a|b|c")?)?;
    let copy = texts.copy()?;
    are_listed(alloc, copy.as_slice())
}

fn are_seconds(alloc: Global) -> Result<bool, Memory> {
    let mut out = seconds_text(alloc, 1_250_000)?
        .as_str()
        .as_bytes()
        .to_vec(alloc)?;
    push_seconds(&mut out, 7)?;
    Ok(out.as_slice() == b"1.2500000.000007".as_slice())
}

fn are_pieces(alloc: Global) -> Result<bool, Memory> {
    let found = pieces(alloc, "a,,b", ',')?;
    Ok(found.as_slice() == ["a", "", "b"].as_slice())
}

#[test]
fn lists_texts(rt: HostRuntime) {
    check(&rt, matches!(are_copied(rt.alloc()), Ok(true)), "a|b|c");
    check(&rt, matches!(are_seconds(rt.alloc()), Ok(true)), "seconds");
    check(&rt, matches!(are_pieces(rt.alloc()), Ok(true)), "pieces");
}
