//! The words of a call.
ghost use Rattle.std.specs.Prelude.{◌≡◌, Ok, IfOk, OnOk};
ghost use Rattle.plain_text.specs.Faults.{FailsAs};
ghost use Rattle.scenario_files.specs.Faults.{position_of, rule_of};
ghost use Rattle.scenario_files.specs.Ranges.{AreWordsWithin};
ghost use Rattle.scenario_files.specs.Words.{no_words, with_file, with_pair, at_position, words_before, words_read};

use crate::draft::Draft;
use crate::faults::{Refused, ScenarioWhat, WordFault};
use crate::setting::text_of;
use plain_text::{Text, after_prefix};
use std::alloc::Global;

/// What the words of a call give: the scenario file's name, and keys.
#[derive(Drop)]
pub struct Words {
    pub scenario_file: Text,
    pub draft: Draft,
}

/// The file's name, where it came, and the keys so far.
#[derive(Drop)]
struct Given {
    file: Option<Text>,
    draft: Draft,
}

impl Given {
    /// Takes a name for the scenario file.
    fn set_file(&mut self, alloc: Global, value: &str) -> Result<(), Refused>
        ensures value { OnOk result (with_file self.old value.now ≡ Ok self.new) }
        ensures fault { FailsAs rule_of result (with_file self.old value.now) }
    {
        if self.file.is_some() {
            return Err(Refused::Value(ScenarioWhat::Twice));
        }
        self.file = Some(text_of(alloc, value)?);
        Ok(())
    }

    /// Takes a pair of a key word and its value.
    #[tactic(auto, unfolding(crate::specs::Words::with_pair))]
    fn set_pair(&mut self, alloc: Global, word: &str, value: &str) -> Result<(), Refused>
        ensures value { OnOk result (with_pair self.old word.now value.now ≡ Ok self.new) }
        ensures fault { FailsAs rule_of result (with_pair self.old word.now value.now) }
    {
        if word == "-scenariofile" {
            return self.set_file(alloc, value);
        }
        match after_prefix(word, "-") {
            Some(name) => self.draft.set_named(alloc, name, value),
            None => Err(Refused::Value(ScenarioWhat::UnknownKey)),
        }
    }

    /// Takes the pair at this position.
    fn add_pair(
        &mut self,
        alloc: Global,
        position: u32,
        word: &str,
        value: &str,
    ) -> Result<(), WordFault>
        ensures value { OnOk result (with_pair self.old word.now value.now ≡ Ok self.new) }
        ensures fault { FailsAs position_of result (at_position position (with_pair self.old word.now value.now)) }
    {
        match self.set_pair(alloc, word, value) {
            Ok(()) => Ok(()),
            Err(Refused::Value(_)) => Err(WordFault::At { place: position }),
            Err(Refused::Memory) => Err(WordFault::Memory),
        }
    }

    /// Takes all pairs of these words, and tells how many words there are.
    fn add_pairs(&mut self, alloc: Global, words: &[Text]) -> Result<u32, WordFault>
        requires { self.old ≡ no_words }
        ensures value { IfOk result (λ n. words_read words.now ≡ words_before n self.new) }
        ensures fault { FailsAs position_of result (words_read words.now) }
    {
        let mut taken = 0;
        while let [word, value, ..] = &words[taken..] {
            self.add_pair(alloc, taken as u32, word.as_str(), value.as_str())?;
            taken += 2;
        }
        let position = taken as u32;
        if taken < words.len() {
            return Err(WordFault::At { place: position });
        }
        Ok(position)
    }

    /// All that was given. Fails where the file's name never came.
    fn into_words(self, position: u32) -> Result<Words, WordFault>
        ensures value { IfOk result (λ w. words_before position self ≡ Ok w) }
        ensures fault { FailsAs position_of result (words_before position self) }
    {
        let Given { file, draft } = self;
        match file {
            Some(scenario_file) => Ok(Words {
                scenario_file,
                draft,
            }),
            None => Err(WordFault::At { place: position }),
        }
    }
}

/// Reads the words of a call: pairs `-key value`, each key at most once, of which one is
/// `-scenariofile`. Each value lies within its limits.
///
/// # Errors
/// The position of the first key word that is wrong: it is no key, or came before, or its value
/// is missing or wrong; where none is wrong and `-scenariofile` never comes, the number of
/// words. Or [`WordFault::Memory`].
pub fn read_words(alloc: Global, words: &[Text]) -> Result<Words, WordFault>
    ensures value { IfOk result (λ w. words_read words.now ≡ Ok w) }
    ensures fault { FailsAs position_of result (words_read words.now) }
    ensures limits { IfOk result AreWordsWithin }
{
    let mut given = Given {
        file: None,
        draft: Draft::no_keys(),
    };
    let position = given.add_pairs(alloc, words)?;
    given.into_words(position)
}
