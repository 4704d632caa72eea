//! The run log: a line of a header, and a line for each recorded run, as CSV.
ghost use Rattle.std.specs.Prelude.{◌≡◌, ◌++◌, All, true, map, IfOk, OnOk, OnErr};
ghost use Rattle.std.specs.List.{list_all};
ghost use Rattle.std.specs.Fmt.{decimal};
ghost use Rattle.csv.specs.Writing.{default_writer, row_text};
ghost use Rattle.plain_text.specs.Decimals.{seconds};
ghost use Rattle.param_space.specs.Space.{Belongs};
ghost use Rattle.tuning_logs.specs.EntryLines.{settings_of};
ghost use Rattle.tuning_logs.specs.RunLog;
ghost use Rattle.tuning_logs.specs.RunLog.{header_line, fields_text, row_line, row_lines, answer_word, time_of, logged_run};
ghost use Rattle.tuning_logs.specs.FieldBytes.{is_plain, is_setting_byte};

use csv::WriterBuilder;
use objective::{Answer, Memory, Micros};
use param_space::{Config, Space};
use plain_text::{Text, seconds_text};
use std::alloc::Global;
use std::marker::Model;

/// A recorded run.
#[derive(Drop)]
pub struct RunRow {
    /// The number of its ticket, from 1.
    pub number: u64,
    /// The place of its pair, from 1.
    pub place: u32,
    /// The time that it was given.
    pub cutoff: Micros,
    /// What it showed.
    pub answer: Answer,
    /// Its configuration.
    pub config: Config,
}

impl Model for RunRow {
    ghost use Rattle.tuning_logs.specs.RunLog.{LoggedRun};

    ghost Value = { LoggedRun };

    ghost view = { λ r. record { number = r.number; place = r.place; cutoff = r.cutoff.0; answer = r.answer; config = r.config } };
}

/// The word for an answer.
fn word_of(answer: Answer) -> &'static str
    ensures value { result.now ≡ answer_word answer }
    ensures plain { list_all is_plain result.now ≡ true }
{
    match answer {
        Answer::Solved(_) => "SOLVED",
        Answer::Timeout => "TIMEOUT",
        Answer::Crashed => "CRASHED",
        Answer::Abort => "ABORT",
    }
}

/// The microseconds after which a run was solved; 0 where it wasn't.
fn micros_of(answer: Answer) -> u64
    ensures { result ≡ time_of answer }
{
    match answer {
        Answer::Solved(time) => time.0,
        Answer::Timeout | Answer::Crashed | Answer::Abort => 0,
    }
}

/// The text of a record.
fn record_text(alloc: Global, fields: &[&[u8]]) -> Result<Vec<u8>, Memory>
    ensures { IfOk result (λ text. text.items ≡ row_text default_writer (map (λ f. f.now) fields.now)) }
{
    let mut writer = WriterBuilder::new().from_writer(Vec::new(alloc));
    if writer.write_fields(fields).is_err() {
        return Err(Memory);
    }
    match writer.into_inner() {
        Ok(text) => Ok(text),
        Err(_) => Err(Memory),
    }
}

/// The text of a number, which holds no mark of the format.
fn number_text(alloc: Global, number: u64) -> Result<Text, Memory>
    ensures value { IfOk result (λ t. t ≡ decimal number) }
    ensures plain { IfOk result (λ t. list_all is_plain t ≡ true) }
{
    Text::new(format!(in alloc; "{number}")?)
}

/// The text of a time, which holds no mark of the format.
fn time_text(alloc: Global, micros: u64) -> Result<Text, Memory>
    ensures value { IfOk result (λ t. t ≡ seconds micros) }
    ensures plain { IfOk result (λ t. list_all is_plain t ≡ true) }
{
    seconds_text(alloc, micros)
}

/// The settings of a configuration, which hold no mark of the format but double quotes.
fn settings_bytes(alloc: Global, space: &Space, config: &Config) -> Result<Vec<u8>, Memory>
    requires { Belongs space.now.params config.now }
    ensures value { IfOk result (λ t. t.items ≡ settings_of space.now config.now) }
    ensures plain { IfOk result (λ t. list_all is_setting_byte t.items ≡ true) }
{
    let _sound = space.params();
    let mut settings = Vec::new(alloc);
    space.push_settings(config, &mut settings)?;
    Ok(settings)
}

/// The line of these fields.
fn fields_line(
    alloc: Global,
    number: &str,
    place: &str,
    cutoff: &str,
    word: &str,
    time: &str,
    settings: &[u8],
) -> Result<Vec<u8>, Memory>
    requires number { list_all is_plain number.now ≡ true }
    requires place { list_all is_plain place.now ≡ true }
    requires cutoff { list_all is_plain cutoff.now ≡ true }
    requires word { list_all is_plain word.now ≡ true }
    requires time { list_all is_plain time.now ≡ true }
    requires settings { list_all is_setting_byte settings.now ≡ true }
    ensures { IfOk result (λ line. line.items
        ≡ fields_text number.now place.now cutoff.now word.now time.now settings.now) }
{
    record_text(
        alloc,
        &[
            number.as_bytes(),
            place.as_bytes(),
            cutoff.as_bytes(),
            word.as_bytes(),
            time.as_bytes(),
            settings,
        ],
    )
}

/// The line of a recorded run.
fn line_of(
    alloc: Global,
    space: &Space,
    number: u64,
    place: u32,
    cutoff: Micros,
    answer: Answer,
    config: &Config,
) -> Result<Vec<u8>, Memory>
    requires { Belongs space.now.params config.now }
    ensures { IfOk result (λ line. line.items ≡ row_line space.now (logged_run number place cutoff.0 answer config.now)) }
{
    let number = number_text(alloc, number)?;
    let place = number_text(alloc, u64::from(place))?;
    let cutoff = time_text(alloc, cutoff.0)?;
    let word = word_of(answer);
    let time = time_text(alloc, micros_of(answer))?;
    let settings = settings_bytes(alloc, space, config)?;
    fields_line(
        alloc,
        number.as_str(),
        place.as_str(),
        cutoff.as_str(),
        word,
        time.as_str(),
        settings.as_slice(),
    )
}

/// Appends the line of the recorded run of a ticket, with this number, at a place. After want of
/// memory `out` is as it was.
pub fn push_run(
    space: &Space,
    number: u64,
    place: u32,
    cutoff: Micros,
    answer: Answer,
    config: &Config,
    out: &mut Vec<u8>,
) -> Result<(), Memory>
    requires { Belongs space.now.params config.now }
    ensures ok { let run = logged_run number place cutoff.0 answer config.now in
        OnOk result (out.new.items ≡ out.old.items ++ row_line space.now run) }
    ensures err { OnErr result (out.new.items ≡ out.old.items) }
{
    let line = line_of(
        *out.allocator(),
        space,
        number,
        place,
        cutoff,
        answer,
        config,
    )?;
    out.extend_from_slice(line.as_slice())?;
    Ok(())
}

/// Appends the line of a recorded run. After want of memory `out` is as it was.
pub fn push_row(space: &Space, row: &RunRow, out: &mut Vec<u8>) -> Result<(), Memory>
    requires { Belongs space.now.params row.now.config }
    ensures ok { OnOk result (out.new.items ≡ out.old.items ++ row_line space.now row.now) }
    ensures err { OnErr result (out.new.items ≡ out.old.items) }
{
    push_run(
        space,
        row.number,
        row.place,
        row.cutoff,
        row.answer,
        &row.config,
        out,
    )
}

/// Appends the first line of a run log. After want of memory `out` is as it was.
pub fn push_header(out: &mut Vec<u8>) -> Result<(), Memory>
    ensures ok { OnOk result (out.new.items ≡ out.old.items ++ header_line) }
    ensures err { OnErr result (out.new.items ≡ out.old.items) }
{
    out.extend_from_slice(b"number,pair,cutoff,answer,time,settings\n")?;
    Ok(())
}

/// The lines of these runs.
fn lines_of(alloc: Global, space: &Space, rows: &[RunRow]) -> Result<Vec<u8>, Memory>
    requires { All (λ r. Belongs space.now.params r.config) rows.now }
    ensures { IfOk result (λ text. text.items ≡ row_lines space.now rows.now) }
{
    let mut text = Vec::new(alloc);
    for row in rows {
        push_row(space, row, &mut text)?;
    }
    Ok(text)
}

/// Appends a run log: its first line, and the lines of these runs. After want of memory `out`
/// is as it was.
pub fn push_rows(space: &Space, rows: &[RunRow], out: &mut Vec<u8>) -> Result<(), Memory>
    requires { All (λ r. Belongs space.now.params r.config) rows.now }
    ensures ok { OnOk result (out.new.items ≡ out.old.items ++ RunLog.rows space.now rows.now) }
    ensures err { OnErr result (out.new.items ≡ out.old.items) }
{
    let alloc = *out.allocator();
    let lines = lines_of(alloc, space, rows)?;
    let mut text = Vec::new(alloc);
    push_header(&mut text)?;
    text.extend_from_slice(lines.as_slice())?;
    out.extend_from_slice(text.as_slice())?;
    Ok(())
}
