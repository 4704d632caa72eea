//! What the program says of itself.
use outside::{Sink, Unwritten, write_whole};
use tuner::Status;

/// How the program is called.
pub(crate) const HELP: &str =
    "paramils tunes the settings of another program by iterated local search.

  paramils -scenariofile FILE [-KEY VALUE ..]  tunes by a scenario file
  paramils toy NUMBER [-KEY VALUE ..]          tunes a made-up program
  paramils --help                              prints this
  paramils --version                           prints the version

A word's value goes before the scenario file's. KEY is one of
  algo execdir deterministic run_obj overall_obj cutoff_time cutoff_length
  tunerTimeout paramfile outdir validN instance_file test_instance_file
  approach N numRun maxComparisons workers r s p_restart cap_floor pair_order

Each line of the output but the last is an incumbent:
  COMPARISON RUNS SECONDS SETTINGS
The exit status, and the last line:
  0  end COMPARISONS RUNS SECONDS SETTINGS
  2  usage PLACE               6  aborted PLACE SETTINGS
  3  badfile NAME LINE WHAT    7  childfault PLACE SETTINGS
  4  readfault NAME            8  nomemory
  5  (it couldn't be written)  9  seats ASKED GIVEN

PLACE of usage is that of the first wrong word of the call, from 0. What WHAT
may be, and the formats of the files, of a wrapper's result line and of the
output are described in README.md and docs/FORMATS.md of the project.
";

/// Which version the program is.
pub(crate) const VERSION: &str = "paramils 0.1.0\n";

/// Prints a text, and gives the exit status of that.
pub(crate) fn say<O: Sink>(out: &mut O, text: &str) -> u8 {
    match write_whole(out, text.as_bytes()) {
        Ok(()) => Status::Ok.code(),
        Err(Unwritten::Fault) => Status::WriteFault.code(),
        Err(Unwritten::Memory) => Status::NoMemory.code(),
    }
}
