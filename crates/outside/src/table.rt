//! What each key's run does.
ghost use Rattle.std.specs.Prelude.{◌≡◌};
ghost use Rattle.objective.specs.declared.Outcome.{Outcome};
ghost use Rattle.wrapper_lines.specs.declared.runs.Key.{Key};

use objective::Outcome;
use wrapper_lines::Key;

/// Something that has an outcome for each key.
pub trait Table {
    /// What a key's run does with all the time that it wants.
    ghost outcome: { Key → Outcome };

    /// What this key's run does with all the time that it wants.
    fn outcome(key: &Key) -> Outcome
        ensures { result ≡ outcome key.now };
}
