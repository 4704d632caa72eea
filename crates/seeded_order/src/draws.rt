//! Draws.
ghost use Rattle.std.specs.Prelude.{ℕ, All, ◌≡◌, ◌<◌, ◌≤◌, ◌^◌, IfOk};
ghost use Rattle.seeded_order.specs.Draws.{generator_at, word_of, order_of, one_of, coin_of, random_config_of};
ghost use Rattle.param_space.specs.Configurations.{IsConfig};

use crate::limits::MAX_ATTEMPTS;
use crate::values::drawn_config;
use objective::Memory;
use param_space::{Config, Space};
use rand_core::utils::NextWord;
use rand_pcg::Pcg32;
use std::alloc::Global;
use std::marker::Model;

/// The draws of a seed. Contracts see it as the seed. Streams are numbered below 2^62.
#[derive(Clone, Copy, Debug)]
pub struct Draws {
    seed: u32,
}

impl Model for Draws {
    ghost Value = { ℕ };

    ghost view = { λ d. d.seed };

    ghost inverse = { λ seed. record { seed = seed } };
}

impl Draws {
    /// The draws of this seed. Takes no memory.
    pub fn new(seed: u32) -> Draws
        ensures { result ≡ seed }
    {
        Draws { seed }
    }

    /// A stream's generator, before its first word.
    #[tactic(auto, using(crate::proofs::Streams::first_generator))]
    fn generator(&self, stream: u64) -> Pcg32
        ensures { result ≡ generator_at self.now stream 0 }
    {
        Pcg32::new(u64::from(self.seed), stream)
    }

    /// Word `k`, from 0, of a stream.
    #[tactic(auto, using(crate::proofs::Streams::later_word))]
    pub fn word(&self, stream: u64, k: u32) -> u32
        requires { stream < 2 ^ 62 }
        ensures { result ≡ word_of self.now stream k }
    {
        let mut generator = self.generator(stream);
        generator.advance(u64::from(k));
        generator.next_word()
    }

    /// The numbers below `n` in the order of the stream's words: the number with the
    /// least word first, ties by the number.
    pub fn order(&self, alloc: Global, stream: u64, n: u32) -> Result<Vec<u32>, Memory>
        requires { stream < 2 ^ 62 }
        ensures value { IfOk result (λ v. v.items ≡ order_of self.now stream n) }
        ensures below { IfOk result (λ v. All (λ i. i < n) v.items) }
    {
        let mut generator = self.generator(stream);
        let mut pairs = Vec::new(alloc);
        for number in 0..n {
            pairs.push((generator.next_word(), number))?;
        }
        pairs.sort()?;
        Ok(pairs.iter().map(|pair| pair.1).collect(alloc)?)
    }

    /// One of the numbers below `n`: the stream's first word modulo `n`.
    pub fn one_of(&self, stream: u64, n: u32) -> u32
        requires known { stream < 2 ^ 62 }
        requires some { 1 ≤ n }
        ensures value { result ≡ one_of self.now stream n }
        ensures below { result < n }
    {
        self.word(stream, 0) % n
    }

    /// True in `per_ten_thousand` of 10,000 cases: whether the stream's first word
    /// modulo 10,000 is less than it.
    pub fn coin(&self, stream: u64, per_ten_thousand: u16) -> bool
        requires { stream < 2 ^ 62 }
        ensures { result ≡ coin_of self.now stream per_ten_thousand }
    {
        self.word(stream, 0) % 10_000 < u32::from(per_ten_thousand)
    }

    /// A configuration of the space. In each of up to 1,000 attempts each parameter gets
    /// the stream's next word modulo the number of its values, and the result is settled;
    /// the first one that is allowed is the answer. Where none is, it is the default.
    pub fn random_config(&self, alloc: Global, stream: u64, space: &Space) -> Result<Config, Memory>
        requires { stream < 2 ^ 62 }
        ensures value { IfOk result (λ c. c ≡ random_config_of self.now stream space.now) }
        ensures sound { IfOk result (λ c. IsConfig space.now c) }
    {
        let params = space.params();
        let mut generator = self.generator(stream);
        for _attempt in 0..MAX_ATTEMPTS {
            let mut config = drawn_config(alloc, &mut generator, params)?;
            space.settle(&mut config);
            if space.is_allowed(&config) {
                return Ok(config);
            }
        }
        space.default_config()
    }
}
