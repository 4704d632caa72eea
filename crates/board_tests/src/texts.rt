//! What a board holds, in words.
use board_steps::{Event, Kind, Ticket};
use ils_face::Entry;
use objective::{Answer, Memory, Micros};
use param_space::Config;
use plain_text::seconds_text;
use predictor::Wish;
use run_cache::Cell;
use std::alloc::{AllocError, Global};

/// The value of x.
fn value_of(config: &Config) -> &'static str {
    match config.values() {
        [0, ..] => "a",
        [1, ..] => "b",
        [2, ..] => "c",
        _ => "d",
    }
}

/// Appends the value of x, the place and the cutoff, as in `a2@10.000000`.
fn push_run(alloc: Global, cell: &Cell, cutoff: Micros, text: &mut String) -> Result<(), Memory> {
    let seconds = seconds_text(alloc, cutoff.0)?;
    let (value, place, seconds) = (value_of(&cell.config), cell.place, seconds.as_str());
    push(text, format!(in alloc; "{value}{place}@{seconds}"))
}

/// Appends a text that may not have been made.
fn push(text: &mut String, more: Result<String, AllocError>) -> Result<(), Memory> {
    text.push_str(more?.as_str())?;
    Ok(())
}

/// Appends the kind of a run.
fn push_kind(kind: Kind, text: &mut String) -> Result<(), Memory> {
    text.push_str(match kind {
        Kind::Asked => "Asked",
        Kind::Ahead => "Ahead",
    })?;
    Ok(())
}

/// Appends a number between blanks.
fn push_number(alloc: Global, number: u64, text: &mut String) -> Result<(), Memory> {
    push(text, format!(in alloc; " {number} "))
}

/// Appends the kind of a ticket, its number, its run, and the replies that there were before it.
pub(crate) fn push_ticket(alloc: Global, ticket: &Ticket, text: &mut String) -> Result<(), Memory> {
    push_kind(ticket.kind, text)?;
    push_number(alloc, ticket.number, text)?;
    push_run(alloc, &ticket.cell, ticket.run.cutoff, text)?;
    push_last(alloc, ticket.place, text)
}

/// Appends a blank and a number.
fn push_last(alloc: Global, number: u64, text: &mut String) -> Result<(), Memory> {
    push(text, format!(in alloc; " {number}"))
}

/// Appends the name of an event, and the number of its ticket.
fn push_named(alloc: Global, name: &str, number: u64, text: &mut String) -> Result<(), Memory> {
    push(text, format!(in alloc; "{name} {number}"))
}

/// Appends that an answer was learnt.
fn push_record(
    alloc: Global,
    number: u64,
    answer: Answer,
    text: &mut String,
) -> Result<(), Memory> {
    push(text, format!(in alloc; "Record {number} {answer:?}"))
}

/// Appends an event that isn't a take.
fn push_other(alloc: Global, event: &Event, text: &mut String) -> Result<(), Memory> {
    match event {
        Event::Record { number, answer } => push_record(alloc, *number, *answer, text),
        Event::Lost { number } => push_named(alloc, "Lost", *number, text),
        Event::Mark { number } => push_named(alloc, "Mark", *number, text),
        Event::Killed { number } => push_named(alloc, "Killed", *number, text),
        Event::Stop => push_word("Stop", text),
        Event::Resume => push_word("Resume", text),
        _ => push_word("Advance", text),
    }
}

/// Appends a word.
fn push_word(word: &str, text: &mut String) -> Result<(), Memory> {
    text.push_str(word)?;
    Ok(())
}

/// Appends an event, and a bar.
fn push_event(alloc: Global, event: &Event, text: &mut String) -> Result<(), Memory> {
    match event {
        Event::Take {
            number,
            kind,
            cell,
            cutoff,
            asked_at,
        } => {
            push_kind(*kind, text)?;
            push_number(alloc, *number, text)?;
            push_run(alloc, cell, *cutoff, text)?;
            push_last(alloc, *asked_at, text)?;
        }
        _ => push_other(alloc, event, text)?,
    }
    text.push('|')?;
    Ok(())
}

/// Appends a journal, with a bar after each event.
pub(crate) fn push_journal(
    alloc: Global,
    journal: &[Event],
    text: &mut String,
) -> Result<(), Memory> {
    for event in journal {
        push_event(alloc, event, text)?;
    }
    Ok(())
}

/// Appends an incumbent: the comparison, the runs, their cost and the value of x, and a bar.
fn push_entry(alloc: Global, entry: &Entry, text: &mut String) -> Result<(), Memory> {
    let seconds = seconds_text(alloc, entry.sum.0)?;
    let (compared, runs, seconds) = (entry.compared, entry.runs, seconds.as_str());
    let value = value_of(&entry.config);
    push(
        text,
        format!(in alloc; "{compared} {runs} {seconds} {value}|"),
    )
}

/// Appends incumbents, with a bar after each.
pub(crate) fn push_entries(
    alloc: Global,
    entries: &[Entry],
    text: &mut String,
) -> Result<(), Memory> {
    for entry in entries {
        push_entry(alloc, entry, text)?;
    }
    Ok(())
}

/// Incumbents, with a bar after each.
pub(crate) fn entries_text(alloc: Global, entries: &[Entry]) -> Result<String, Memory> {
    let mut text = String::new(alloc);
    push_entries(alloc, entries, &mut text)?;
    Ok(text)
}

/// Appends wishes, with a comma after each.
pub(crate) fn push_wishes(alloc: Global, wishes: &[Wish], text: &mut String) -> Result<(), Memory> {
    for wish in wishes {
        push_run(alloc, &wish.cell, wish.cutoff, text)?;
        text.push(',')?;
    }
    Ok(())
}
