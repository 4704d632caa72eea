//! Configurations made of a generator's words.
ghost use Rattle.std.specs.Prelude.{◌≡◌, ◌+◌, ℕ, None, IfOk, OnOk, length};
ghost use Rattle.param_space.specs.Faults.{params_fault};
ghost use Rattle.seeded_order.specs.Draws.{generator_at, values_of};

use objective::Memory;
use param_space::{Config, Param};
use rand_core::utils::NextWord;
use rand_pcg::Pcg32;
use std::alloc::Global;

/// A configuration whose value numbers are the generator's next words, one for each
/// parameter, modulo the number of its values.
pub fn drawn_config(
    alloc: Global,
    generator: &mut Pcg32,
    params: &[Param],
) -> Result<Config, Memory>
    requires { params_fault params.now ≡ None }
    ensures value { (seed stream k : ℕ) → generator.old ≡ generator_at seed stream k
        → IfOk result (λ c. c ≡ values_of seed stream k params.now) }
    ensures after { (seed stream k : ℕ) → generator.old ≡ generator_at seed stream k
        → OnOk result (generator.new ≡ generator_at seed stream (k + length params.now)) }
{
    let mut values = Vec::new(alloc);
    for param in params {
        let count = param.values.as_slice().len();
        values.push((generator.next_word() as usize % count) as u16)?;
    }
    Ok(Config::new(values))
}
