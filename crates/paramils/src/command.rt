//! What the words of a call ask for.
ghost use Rattle.std.specs.Prelude.{◌≡◌, ◌∷◌, codes, drop, IfOk};
ghost use Rattle.paramils.specs.Commands;

use objective::Memory;
use plain_text::Text;
use std::alloc::Global;
use toy_bench::read_number;

/// What the words of a call ask for.
#[derive(Clone, Copy, Debug, PartialEq, Eq)]
pub(crate) enum Command {
    /// How the program is called.
    Help,
    /// Which version it is.
    Version,
    /// A tuning of the toy with this number, by the words after the number.
    Toy(u32),
    /// The tuning that the words state.
    Tune,
}

/// The command of one word.
fn lone_command(word: &str) -> Command
    ensures { result ≡ Commands.lone_command word.now }
{
    if word == "--help" {
        return Command::Help;
    }
    if word == "--version" {
        return Command::Version;
    }
    Command::Tune
}

/// The command of words that begin with these two.
fn numbered_command(first: &str, second: &str) -> Command
    ensures { result ≡ Commands.numbered_command first.now second.now }
{
    if first != "toy" {
        return Command::Tune;
    }
    match read_number(second) {
        Some(number) => Command::Toy(number),
        None => Command::Tune,
    }
}

/// What these words ask for.
pub(crate) fn command_of(words: &[Text]) -> Command
    ensures { result ≡ Commands.command_of words.now }
{
    match words {
        [] => Command::Tune,
        [only] => lone_command(only.as_str()),
        [first, second, ..] => numbered_command(first.as_str(), second.as_str()),
    }
}

/// The words that name the toy's scenario, and then these.
fn words_with_scenario(alloc: Global, later: &[Text]) -> Result<Vec<Text>, Memory>
    ensures { IfOk result (λ all. all.items ≡ codes "-scenariofile" ∷ codes "toy" ∷ later.now) }
{
    let mut all = Vec::new(alloc);
    all.push(Text::of(alloc, "-scenariofile")?)?;
    all.push(Text::of(alloc, "toy")?)?;
    for word in later {
        all.push(word.copy()?)?;
    }
    Ok(all)
}

/// The words of a tuning of a toy: those that name its scenario, and what follows the first two.
pub(crate) fn toy_words(alloc: Global, words: &[Text]) -> Result<Vec<Text>, Memory>
    ensures { IfOk result (λ all. all.items ≡ codes "-scenariofile" ∷ codes "toy" ∷ drop 2 words.now) }
{
    match words {
        [_, _, later @ ..] => words_with_scenario(alloc, later),
        _ => words_with_scenario(alloc, &[]),
    }
}
