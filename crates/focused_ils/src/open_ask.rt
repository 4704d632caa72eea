//! An ask that is never the end.
ghost use Rattle.std.specs.Prelude.{◌≡◌, Some, None, IfOk};
ghost use Rattle.ils_face.specs.Replies.{ask_of};

use ils_face::Ask;
use objective::{Memory, Sum};
use param_space::Config;
use std::marker::Model;

/// An ask that is never the end, so that its configuration is at hand. Contracts see it as a
/// question.
#[derive(Drop)]
pub(crate) struct OpenAsk {
    ask: Ask,
}

impl Model for OpenAsk {
    ghost use Rattle.std.specs.Prelude.{IsTrue};
    ghost use Rattle.uncapped.specs.Procedure.{Question};
    ghost use Rattle.focused_ils.specs.Questions.{is_question, question_seen};

    ghost Value = { Question };

    ghost view = { λ e. question_seen e.ask };

    ghost invariant = { λ e. IsTrue (is_question e.ask) };
}

impl OpenAsk {
    /// In full on so many places.
    pub fn new(config: Config, n: u32) -> OpenAsk
        ensures { result ≡ record { config = config; places = n; bound = None } }
    {
        OpenAsk {
            ask: Ask::Full { config, n },
        }
    }

    /// The configuration.
    pub fn config(&self) -> &Config
        ensures { result.now ≡ self.now.config }
    {
        match &self.ask {
            Ask::Full { config, .. } | Ask::Versus { config, .. } => config,
            Ask::End => unreachable!(),
        }
    }

    /// The number of places.
    pub fn places(&self) -> u32
        ensures { result ≡ self.now.places }
    {
        match &self.ask {
            Ask::Full { n, .. } | Ask::Versus { n, .. } => *n,
            Ask::End => unreachable!(),
        }
    }

    /// The ask.
    pub fn ask(&self) -> &Ask
        ensures { result.now ≡ ask_of self.now.config self.now.places self.now.bound }
    {
        &self.ask
    }

    /// In full on so many places from now on. Takes no memory.
    pub fn ask_in_full(&mut self, places: u32)
        ensures { self.new ≡ record { config = self.old.config; places = places; bound = None } }
    {
        self.ask = match std::mem::replace(&mut self.ask, Ask::End) {
            Ask::Full { config, .. } => Ask::Full { config, n: places },
            Ask::Versus { config, .. } => Ask::Full { config, n: places },
            Ask::End => unreachable!(),
        };
    }

    /// On so many places up to a bound from now on. Takes no memory.
    pub fn ask_up_to(&mut self, places: u32, bound: Sum)
        ensures { self.new ≡ record { config = self.old.config; places = places; bound = Some bound.0 } }
    {
        self.ask = match std::mem::replace(&mut self.ask, Ask::End) {
            Ask::Full { config, .. } => Ask::Versus {
                config,
                n: places,
                bound,
            },
            Ask::Versus { config, .. } => Ask::Versus {
                config,
                n: places,
                bound,
            },
            Ask::End => unreachable!(),
        };
    }

    /// The same ask.
    pub fn copy(&self) -> Result<OpenAsk, Memory>
        ensures { IfOk result (λ e. e ≡ self.now) }
    {
        Ok(OpenAsk {
            ask: self.ask.copy()?,
        })
    }
}
