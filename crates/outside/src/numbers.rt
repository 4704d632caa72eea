//! Lists of numbers.
ghost use Rattle.std.specs.Prelude.{◌≡◌};
ghost use Rattle.outside.specs.Counts.{is_among};

/// Whether the number stands among these.
pub(crate) fn has_number(numbers: &[u32], number: usize) -> bool
    ensures { result ≡ is_among number numbers.now }
{
    numbers.iter().any(|n| *n as usize == number)
}
