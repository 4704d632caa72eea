//! Programs, keys of runs, and a child's words.
ghost use Rattle.std.specs.Prelude.{◌≡◌, ◌==◌, ◌++◌, ◌<◌, [], ◌∷◌, nat_lt, false, IfOk, OnOk, length, filter};
ghost use Rattle.std.specs.Fmt.{decimal};
ghost use Rattle.std.specs.List.{list_all, slice_split};
ghost use Rattle.plain_text.specs.Decimals.{seconds};
ghost use Rattle.plain_text.specs.Words.{is_blank};
ghost use Rattle.wrapper_lines.specs.Runs;

use objective::{Memory, Micros};
use plain_text::{Items, Text, pieces, seconds_text};
use std::alloc::Global;

/// The program that is tuned.
#[derive(Drop)]
pub struct Program {
    /// The words that start it.
    pub words: Items<Text>,
    /// The folder that it is started in.
    pub dir: Text,
    /// The cutoff length that is passed on to it.
    pub cutoff_length: u32,
}

/// A parameter's name with the value that it is given.
#[derive(Drop, PartialEq, Eq)]
pub struct Setting {
    /// The parameter's name.
    pub name: Text,
    /// The value.
    pub value: Text,
}

/// What one run is of: an instance with its specifics, a seed and settings.
#[derive(Drop, PartialEq, Eq)]
pub struct Key {
    /// The instance's name.
    pub instance: Text,
    /// What its line says after the name; `0` where it says nothing.
    pub specifics: Text,
    /// The seed.
    pub seed: u32,
    /// The active parameters with their values, in the order of the space.
    pub settings: Items<Setting>,
}

/// A key under a cutoff in microseconds.
#[derive(Drop, PartialEq, Eq)]
pub struct Run {
    /// What is run.
    pub key: Key,
    /// The cutoff.
    pub cutoff: Micros,
}

impl Setting {
    /// The same setting, shared. Takes no memory.
    pub fn copy(&self) -> Result<Setting, Memory>
        ensures { IfOk result (λ s. s ≡ self.now) }
    {
        let (name, value) = (self.name.copy()?, self.value.copy()?);
        Ok(Setting { name, value })
    }
}

impl Key {
    /// The same key, shared. Takes no memory.
    pub fn copy(&self) -> Result<Key, Memory>
        ensures { IfOk result (λ k. k ≡ self.now) }
    {
        let (instance, specifics) = (self.instance.copy()?, self.specifics.copy()?);
        let settings = self.settings.copy()?;
        Ok(Key {
            instance,
            specifics,
            seed: self.seed,
            settings,
        })
    }
}

impl Run {
    /// The same run, its key shared. Takes no memory.
    pub fn copy(&self) -> Result<Run, Memory>
        ensures { IfOk result (λ r. r ≡ self.now) }
    {
        let key = self.key.copy()?;
        Ok(Run {
            key,
            cutoff: self.cutoff,
        })
    }
}

/// The same texts.
pub fn copy_texts(alloc: Global, texts: &[Text]) -> Result<Vec<Text>, Memory>
    ensures { IfOk result (λ v. v.items ≡ texts.now) }
{
    let mut copies = Vec::new(alloc);
    for text in texts {
        copies.push(text.copy()?)?;
    }
    Ok(copies)
}

/// Appends a word, where it isn't empty.
fn push_word(alloc: Global, words: &mut Vec<Text>, word: &str) -> Result<(), Memory>
    ensures { OnOk result (words.new.items ≡ words.old.items ++ Runs.filled (word.now ∷ [])) }
{
    if !word.is_empty() {
        words.push(Text::of(alloc, word)?)?;
    }
    Ok(())
}

/// Appends the longest parts of a text without tabs.
fn push_tab_parted(alloc: Global, words: &mut Vec<Text>, text: &str) -> Result<(), Memory>
    ensures { OnOk result (words.new.items ≡ words.old.items ++ Runs.filled (Runs.tab_parts text.now)) }
{
    let parts = pieces(alloc, text, '\t')?;
    for part in &parts {
        push_word(alloc, words, part)?;
    }
    Ok(())
}

/// Reads a program: the words that start it stand in `algo` with spaces or tabs between
/// them; there has to be one. It is started in the folder `dir`.
pub fn read_program(
    alloc: Global,
    algo: &str,
    dir: &str,
    cutoff_length: u32,
) -> Result<Program, Memory>
    requires { list_all is_blank algo.now ≡ false }
    ensures { let words = Runs.program_words algo.now in
        IfOk result (λ p. p ≡ record { words = words; dir = dir.now; cutoff_length = cutoff_length }) }
{
    let mut words = Vec::new(alloc);
    let parts = pieces(alloc, algo, ' ')?;
    for part in &parts {
        push_tab_parted(alloc, &mut words, part)?;
    }
    let dir = Text::of(alloc, dir)?;
    Ok(Program {
        words: Items::new(words)?,
        dir,
        cutoff_length,
    })
}

/// A number in decimal digits.
fn number_text(alloc: Global, number: u32) -> Result<Text, Memory>
    ensures { IfOk result (λ t. t ≡ decimal number) }
{
    Text::new(format!(in alloc; "{number}")?)
}

/// Appends `-name` and the value of each setting.
fn push_settings(alloc: Global, words: &mut Vec<Text>, settings: &[Setting]) -> Result<(), Memory>
    ensures { OnOk result (words.new.items ≡ words.old.items ++ Runs.setting_words settings.now) }
{
    for setting in settings {
        let name = setting.name.as_str();
        words.push(Text::new(format!(in alloc; "-{name}")?)?)?;
        words.push(setting.value.copy()?)?;
    }
    Ok(())
}

/// Appends the instance, its specifics and the cutoff in seconds.
fn push_instance(alloc: Global, words: &mut Vec<Text>, run: &Run) -> Result<(), Memory>
    ensures { OnOk result (words.new.items ≡ words.old.items ++ Runs.instance_words run.now) }
{
    words.push(run.key.instance.copy()?)?;
    words.push(run.key.specifics.copy()?)?;
    words.push(seconds_text(alloc, run.cutoff.0)?)?;
    Ok(())
}

/// Appends the cutoff length and the seed.
fn push_numbers(alloc: Global, words: &mut Vec<Text>, length: u32, seed: u32) -> Result<(), Memory>
    ensures { OnOk result (words.new.items ≡ words.old.items ++ decimal length ∷ decimal seed ∷ []) }
{
    words.push(number_text(alloc, length)?)?;
    words.push(number_text(alloc, seed)?)?;
    Ok(())
}

/// The words that start a run of the program.
pub fn words_of(alloc: Global, program: &Program, run: &Run) -> Result<Vec<Text>, Memory>
    ensures { IfOk result (λ w. w.items ≡ Runs.words_of program.now run.now) }
{
    let mut words = copy_texts(alloc, program.words.as_slice())?;
    push_instance(alloc, &mut words, run)?;
    push_numbers(alloc, &mut words, program.cutoff_length, run.key.seed)?;
    push_settings(alloc, &mut words, run.key.settings.as_slice())?;
    Ok(words)
}
