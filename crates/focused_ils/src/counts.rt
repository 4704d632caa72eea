//! The runs of each configuration.
ghost use Rattle.std.specs.Prelude.{◌≡◌, ◌++◌, ◌∷◌, [], IfOk, OnOk, OnErr};
ghost use Rattle.focused_ils.specs.Counts.{IsPut, count_in, no_counts, raised};

use ils_face::Entry;
use ils_frame::Entries;
use indexmap::IndexMap;
use objective::Memory;
use param_space::Config;
use std::alloc::Global;
use std::marker::Model;
use std::sync::Arc;

/// The runs of each configuration that was met, found by hash. A copy shares them, and keeps
/// what it counts itself apart.
#[derive(Drop)]
pub(crate) struct Counts {
    common: Arc<IndexMap<Config, u32>>,
    /// Counts that rose while the others were shared.
    further: IndexMap<Config, u32>,
}

impl Model for Counts {
    ghost use Rattle.std.specs.Prelude.{◌++◌};
    ghost use Rattle.std.specs.FinMap as map;
    ghost use Rattle.std.specs.Coded.{coded_list, coded_ℕ};
    ghost use Rattle.std.specs.Cmp.Lexicographic.{slice_cmp};
    ghost use Rattle.std.specs.Ordering.{nat_cmp};
    ghost use Rattle.focused_ils.specs.Counts as counts;

    ghost Value = { counts.Counts };

    ghost coded = { map.code {R = slice_cmp nat_cmp} (coded_list coded_ℕ) coded_ℕ };

    ghost view = { λ c. map.from_entries (c.further.entries ++ c.common.value.entries) };
}

/// Puts a count down, and adds an incumbent. Where there is no memory left, all is as it was.
fn put(
    counts: &mut IndexMap<Config, u32>,
    config: Config,
    runs: u32,
    entries: &mut Entries,
    entry: Entry,
) -> Result<(), Memory>
    ensures counts { OnOk result (IsPut counts.old.entries counts.new.entries config runs) }
    ensures entries { OnOk result (entries.new ≡ entries.old ++ entry ∷ []) }
    ensures counts_kept { OnErr result (counts.new.entries ≡ counts.old.entries) }
    ensures entries_kept { OnErr result (entries.new ≡ entries.old) }
{
    counts.reserve(1)?;
    entries.push(entry)?;
    match counts.insert(config, runs) {
        Ok(_) => Ok(()),
        Err(_) => unreachable!(),
    }
}

impl Counts {
    /// No configuration was met.
    pub fn new(alloc: Global) -> Result<Counts, Memory>
        ensures { IfOk result (λ c. c ≡ no_counts) }
    {
        Ok(Counts {
            common: Arc::new(alloc, IndexMap::new(alloc))?,
            further: IndexMap::new(alloc),
        })
    }

    /// The runs of a configuration, 0 where it wasn't met. Takes no memory.
    pub fn runs(&self, config: &Config) -> u32
        ensures { result ≡ count_in self.now config.now }
    {
        if let Some(runs) = self.further.get(config) {
            return *runs;
        }
        match self.common.get(config) {
            Some(runs) => *runs,
            None => 0,
        }
    }

    /// Where no copy is about, all counts come together.
    fn gather(&mut self) -> Result<(), Memory>
        ensures { self.new ≡ self.old }
    {
        if self.further.len() == 0 {
            return Ok(());
        }
        if let Some(common) = Arc::get_mut(&mut self.common) {
            common.append(&mut self.further)?;
        }
        Ok(())
    }

    /// The runs of a configuration become at least n. Where there is no memory left, all is
    /// as it was.
    pub fn raise(&mut self, config: Config, n: u32) -> Result<(), Memory>
        ensures ok { OnOk result (self.new ≡ raised self.old config n) }
        ensures err { OnErr result (self.new ≡ self.old) }
    {
        self.gather()?;
        let known = self.runs(&config);
        if 0 < known && n <= known {
            return Ok(());
        }
        let runs = known.max(n);
        if !self.further.is_empty() {
            self.further.insert(config, runs)?;
            return Ok(());
        }
        match Arc::get_mut(&mut self.common) {
            Some(common) => {
                common.insert(config, runs)?;
                Ok(())
            }
            None => {
                self.further.insert(config, runs)?;
                Ok(())
            }
        }
    }
    /// The same with the entry of a new incumbent.
    pub fn raise_with(
        &mut self,
        config: Config,
        n: u32,
        entries: &mut Entries,
        entry: Entry,
    ) -> Result<(), Memory>
        ensures counts { OnOk result (self.new ≡ raised self.old config n) }
        ensures entries { OnOk result (entries.new ≡ entries.old ++ entry ∷ []) }
        ensures counts_kept { OnErr result (self.new ≡ self.old) }
        ensures entries_kept { OnErr result (entries.new ≡ entries.old) }
    {
        self.gather()?;
        let runs = self.runs(&config).max(n);
        if !self.further.is_empty() {
            return put(&mut self.further, config, runs, entries, entry);
        }
        match Arc::get_mut(&mut self.common) {
            Some(common) => put(common, config, runs, entries, entry),
            None => put(&mut self.further, config, runs, entries, entry),
        }
    }

    /// The same counts, shared.
    pub fn copy(&self) -> Result<Counts, Memory>
        ensures { IfOk result (λ c. c ≡ self.now) }
    {
        let mut further = IndexMap::new(*self.further.allocator());
        for (config, runs) in &self.further {
            further.insert(config.copy()?, *runs)?;
        }
        Ok(Counts {
            common: self.common.clone()?,
            further,
        })
    }
}
