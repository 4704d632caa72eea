//! Output.
ghost use Rattle.std.specs.Prelude.{◌≡◌, ◌≤◌, length, take, IfOk, OnErr};
ghost use Rattle.outside.specs.Counts.{count_after};
ghost use Rattle.outside.specs.Changes.{has_failed, is_empty_taking};
ghost use Rattle.outside.specs.ToldStates.{SinkTold};
ghost use Rattle.outside.specs.WholePieces.{Took};

use crate::faults::Fault;

/// Something that takes bytes.
pub trait Sink {
    /// What it tells: the bytes that it took, and how many writes have failed or took nothing.
    ghost told: { Self → SinkTold };

    /// Takes a first part of the piece, and says how long it is. A refusal takes nothing.
    fn write(&mut self, piece: &[u8]) -> Result<usize, Fault>
        ensures within { IfOk result (λ n. n ≤ length piece.now) }
        ensures took { IfOk result (λ n. Took (told self.old) (told self.new) (take n piece.now)) }
        ensures refused { OnErr result ((told self.new).taken ≡ (told self.old).taken) }
        ensures emptied { let is_empty = is_empty_taking result piece.now in
            (told self.new).empties ≡ count_after is_empty (told self.old).empties }
        ensures never_falls { (told self.old).empties ≤ (told self.new).empties }
        ensures counted { (told self.new).faults ≡ count_after (has_failed result) (told self.old).faults }
        ensures counts { (told self.old).faults ≤ (told self.new).faults };
}
