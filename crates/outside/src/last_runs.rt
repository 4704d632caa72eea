//! The runs that a spawner remembers.
ghost use Rattle.std.specs.Prelude.{◌≡◌, None, Some};
ghost use Rattle.outside.specs.Changes.{failed_after};

use std::marker::Model;
use wrapper_lines::Run;

/// The run that was started last, and that of the last start or look that failed.
#[derive(Drop)]
pub struct LastRuns {
    current: Option<Run>,
    failed_before: Option<Run>,
    has_failed: bool,
}

impl Model for LastRuns {
    ghost use Rattle.std.specs.Prelude.{if◌then◌else◌};
    ghost use Rattle.outside.specs.LastRuns as runs;

    ghost Value = { runs.LastRuns };

    ghost view = { λ r. record {
      current = r.current;
      failed_run = if r.has_failed then r.current else r.failed_before;
    } };
}

impl LastRuns {
    /// No runs. Takes no memory.
    pub fn new() -> LastRuns
        ensures { result ≡ record { current = None; failed_run = None } }
    {
        LastRuns {
            current: None,
            failed_before: None,
            has_failed: false,
        }
    }

    /// Takes this as the run that was started last, and says whether its start failed.
    /// Takes no memory.
    pub fn begin(&mut self, run: Run, has_failed: bool)
        ensures { let failed_run = failed_after has_failed (Some run) self.old.failed_run in
            self.new ≡ record { current = Some run; failed_run = failed_run } }
    {
        if self.has_failed {
            self.failed_before = self.current.take();
        }
        self.current = Some(run);
        self.has_failed = has_failed;
    }

    /// A look at the run that was started last failed. Takes no memory.
    pub fn fail(&mut self)
        ensures { self.new ≡ record { current = self.old.current; failed_run = self.old.current } }
    {
        self.has_failed = true;
    }
}
