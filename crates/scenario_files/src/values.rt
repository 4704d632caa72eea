//! The forms of values.
ghost use Rattle.std.specs.Prelude.{◌≡◌};
ghost use Rattle.std.specs.List.{list_all};
ghost use Rattle.plain_text.specs.Times.{micros_read};
ghost use Rattle.plain_text.specs.Words;
ghost use Rattle.scenario_files.specs.Values;

use crate::draft::{Approach, Overall, PairOrder, RunObj};
use crate::faults::ScenarioWhat;
use crate::limits::MAX_LENGTH;
use objective::Micros;
use plain_text::{TimeFault, all_digits, is_blank, read_count, read_micros};

/// Whether the text has nothing but blanks.
pub(crate) fn is_empty(text: &str) -> bool
    ensures { result ≡ list_all Words.is_blank text.now }
{
    text.as_bytes().iter().all(|b| is_blank(*b))
}

/// `0` or `1`.
pub(crate) fn flag_of(text: &str) -> Result<bool, ScenarioWhat>
    ensures { result ≡ Values.flag_of text.now }
{
    match text {
        "0" => Ok(false),
        "1" => Ok(true),
        _ => Err(ScenarioWhat::BadValue),
    }
}

/// `runtime`.
pub(crate) fn run_obj_of(text: &str) -> Result<RunObj, ScenarioWhat>
    ensures { result ≡ Values.run_obj_of text.now }
{
    match text {
        "runtime" => Ok(RunObj::Runtime),
        _ => Err(ScenarioWhat::BadValue),
    }
}

/// `mean`, `mean10` or `mean1000`.
pub(crate) fn overall_of(text: &str) -> Result<Overall, ScenarioWhat>
    ensures { result ≡ Values.overall_of text.now }
{
    match text {
        "mean" => Ok(Overall::Mean),
        "mean10" => Ok(Overall::Mean10),
        "mean1000" => Ok(Overall::Mean1000),
        _ => Err(ScenarioWhat::BadValue),
    }
}

/// `basic` or `focused`.
pub(crate) fn approach_of(text: &str) -> Result<Approach, ScenarioWhat>
    ensures { result ≡ Values.approach_of text.now }
{
    match text {
        "basic" => Ok(Approach::Basic),
        "focused" => Ok(Approach::Focused),
        _ => Err(ScenarioWhat::BadValue),
    }
}

/// `shuffled` or `file`.
pub(crate) fn pair_order_of(text: &str) -> Result<PairOrder, ScenarioWhat>
    ensures { result ≡ Values.pair_order_of text.now }
{
    match text {
        "shuffled" => Ok(PairOrder::Shuffled),
        "file" => Ok(PairOrder::File),
        _ => Err(ScenarioWhat::BadValue),
    }
}

/// A count within these limits.
pub(crate) fn count_within(low: u32, high: u32, text: &str) -> Result<u32, ScenarioWhat>
    ensures { result ≡ Values.count_within low high text.now }
{
    let digits = text.as_bytes();
    if !all_digits(digits) || digits.is_empty() {
        return Err(ScenarioWhat::BadValue);
    }
    match read_count(digits) {
        Some(n) if u64::from(low) <= n && n <= u64::from(high) => Ok(n as u32),
        _ => Err(ScenarioWhat::OutOfRange),
    }
}

/// `max`, or a count.
pub(crate) fn cutoff_length_of(text: &str) -> Result<u32, ScenarioWhat>
    ensures { result ≡ Values.cutoff_length_of text.now }
{
    if text == "max" {
        return Ok(MAX_LENGTH);
    }
    count_within(0, MAX_LENGTH, text)
}

/// A decimal of seconds.
fn read_decimal(text: &str) -> Result<Micros, ScenarioWhat>
    ensures { result ≡ Values.decimal_of (micros_read text.now) }
{
    match read_micros(text.as_bytes()) {
        Ok(time) => Ok(time),
        Err(TimeFault::NotDecimal) => Err(ScenarioWhat::BadValue),
        Err(TimeFault::TooLarge) => Err(ScenarioWhat::OutOfRange),
    }
}

/// A decimal of seconds, of so many microseconds.
pub(crate) fn time_within(low: u64, high: u64, text: &str) -> Result<Micros, ScenarioWhat>
    ensures { result ≡ Values.time_within low high text.now }
{
    let time = read_decimal(text)?;
    if time.0 < low || high < time.0 {
        return Err(ScenarioWhat::OutOfRange);
    }
    Ok(time)
}

/// A decimal of at most one, in ten-thousandths.
pub(crate) fn share_of(text: &str) -> Result<u16, ScenarioWhat>
    ensures { result ≡ Values.share_of text.now }
{
    let millionths = read_decimal(text)?.0;
    if millionths > 1_000_000 {
        return Err(ScenarioWhat::OutOfRange);
    }
    if millionths % 100 != 0 {
        return Err(ScenarioWhat::BadValue);
    }
    Ok((millionths / 100) as u16)
}
