//! Pieces that are written whole.
ghost use Rattle.std.specs.Prelude.{◌≤◌, OnOk, IfErr};
ghost use Rattle.outside.specs.WholePieces.{Took, TookPartOf, IsUnwrittenFor};

use crate::faults::Fault;
use crate::sink::Sink;

/// Why a piece wasn't written whole.
#[derive(Clone, Copy, Debug, PartialEq, Eq)]
pub enum Unwritten {
    /// A write failed, or took nothing of a piece that isn't empty.
    Fault,
    /// There is no memory left.
    Memory,
}

/// Writes a whole piece. After a refusal a first part of it was taken, and nothing else.
pub fn write_whole<O: Sink>(out: &mut O, piece: &[u8]) -> Result<(), Unwritten>
    ensures whole { OnOk result (Took (O.told out.old) (O.told out.new) piece.now) }
    ensures part { TookPartOf (O.told out.old) (O.told out.new) piece.now }
    ensures counts { (O.told out.old).faults ≤ (O.told out.new).faults }
    ensures empties { (O.told out.old).empties ≤ (O.told out.new).empties }
    ensures cause { IfErr result (λ e. IsUnwrittenFor e (O.told out.old) (O.told out.new)) }
{
    let mut rest = piece;
    while !rest.is_empty() {
        match out.write(rest) {
            Ok(0) => return Err(Unwritten::Fault),
            Ok(taken) => rest = &rest[taken..],
            Err(Fault::Failed) => return Err(Unwritten::Fault),
            Err(Fault::Memory) => return Err(Unwritten::Memory),
        }
    }
    Ok(())
}
