//! The lines of incumbents, of an end and of a run.
ghost use Rattle.std.specs.Prelude.{◌≡◌, All, IfOk};
ghost use Rattle.std.specs.List.{flat_map};
ghost use Rattle.param_space.specs.Space.{Belongs};
ghost use Rattle.param_space.specs.Configurations.{IsConfig};
ghost use Rattle.tuning_logs.specs.EntryLines;
ghost use Rattle.tuner.specs.Lines;

use ils_face::{Entry, Search};
use objective::Memory;
use param_space::{Config, Space};
use std::alloc::Global;
use tuning_logs::{push_end, push_entry};

/// The lines of these incumbents, oldest first.
fn entry_lines(alloc: Global, space: &Space, entries: &[Entry]) -> Result<Vec<Vec<u8>>, Memory>
    requires { All (λ e. IsConfig space.now e.config) entries.now }
    ensures { let text = EntryLines.entry_lines space.now entries.now in
        IfOk result (λ lines. flat_map (λ line. line.items) lines.items ≡ text) }
{
    let mut lines = Vec::new(alloc);
    for entry in entries {
        let mut line = Vec::new(alloc);
        push_entry(space, entry, &mut line)?;
        lines.push(line)?;
    }
    Ok(lines)
}

/// The last line of a tuning that ended: `end`, the comparisons made and the incumbent.
pub(crate) fn end_line<P: Search>(
    alloc: Global,
    space: &Space,
    search: &P,
) -> Result<Vec<u8>, Memory>
    requires { let view = P.shown (P.rules_of search.now) (P.replies_of search.now) in
        IsConfig space.now view.last.config }
    ensures { let view = P.shown (P.rules_of search.now) (P.replies_of search.now) in
        IfOk result (λ line. line.items ≡ EntryLines.end_line space.now view.last) }
{
    let last = Entry {
        compared: search.compared(),
        runs: search.incumbent_runs(),
        sum: search.incumbent_sum(),
        config: search.incumbent().copy()?,
    };
    let mut line = Vec::new(alloc);
    push_end(space, &last, &mut line)?;
    Ok(line)
}

/// The lines of these incumbents, and then this one.
pub(crate) fn lines_with(
    alloc: Global,
    space: &Space,
    entries: &[Entry],
    line: Vec<u8>,
) -> Result<Vec<Vec<u8>>, Memory>
    requires { All (λ e. IsConfig space.now e.config) entries.now }
    ensures { let text = Lines.lines_with space.now entries.now line.items in
        IfOk result (λ lines. flat_map (λ l. l.items) lines.items ≡ text) }
{
    let mut lines = entry_lines(alloc, space, entries)?;
    lines.push(line)?;
    Ok(lines)
}

/// A word, and the place and the settings of a run.
pub(crate) fn run_line(
    alloc: Global,
    word: &str,
    space: &Space,
    place: u32,
    config: &Config,
) -> Result<Vec<u8>, Memory>
    requires { Belongs space.now.params config.now }
    ensures { IfOk result (λ line. line.items ≡ Lines.run_line word.now space.now place config.now) }
{
    let mut line = format!(in alloc; "{word} {place} ")?.into_bytes();
    space.push_settings(config, &mut line)?;
    line.push(b'\n')?;
    Ok(line)
}
