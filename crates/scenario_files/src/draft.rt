//! What a file or words give of a scenario.
ghost use Rattle.std.specs.Prelude.{◌≡◌};
ghost use Rattle.scenario_files.specs.Drafts;

use objective::Micros;
use plain_text::Text;

/// What is kept small.
#[derive(Clone, Copy, Debug, PartialEq, Eq)]
pub enum RunObj {
    /// The running time.
    Runtime,
}

/// How many cutoffs a run without a solution costs.
#[derive(Clone, Copy, Debug, PartialEq, Eq)]
pub enum Overall {
    /// One.
    Mean,
    /// Ten.
    Mean10,
    /// A thousand.
    Mean1000,
}

/// How configurations are compared.
#[derive(Clone, Copy, Debug, PartialEq, Eq)]
pub enum Approach {
    /// On the same number of pairs.
    Basic,
    /// Each with its own number of runs.
    Focused,
}

/// In which order the instances are taken.
#[derive(Clone, Copy, Debug, PartialEq, Eq)]
pub enum PairOrder {
    /// Anew in each round.
    Shuffled,
    /// As the instance file has them.
    File,
}

/// The keys that a file or words give, each with its value. `p_restart` counts
/// ten-thousandths.
#[derive(Drop)]
pub struct Draft {
    pub algo: Option<Text>,
    pub execdir: Option<Text>,
    pub deterministic: Option<bool>,
    pub run_obj: Option<RunObj>,
    pub overall_obj: Option<Overall>,
    pub cutoff_time: Option<Micros>,
    pub cutoff_length: Option<u32>,
    pub tuner_timeout: Option<Text>,
    pub paramfile: Option<Text>,
    pub outdir: Option<Text>,
    pub valid_n: Option<Text>,
    pub instance_file: Option<Text>,
    pub test_instance_file: Option<Text>,
    pub approach: Option<Approach>,
    pub n: Option<u32>,
    pub num_run: Option<u32>,
    pub max_comparisons: Option<u32>,
    pub workers: Option<u32>,
    pub r: Option<u32>,
    pub s: Option<u32>,
    pub p_restart: Option<u16>,
    pub cap_floor: Option<Micros>,
    pub pair_order: Option<PairOrder>,
}

impl Draft {
    /// No key is given.
    pub(crate) fn no_keys() -> Draft
        ensures { result ≡ Drafts.no_keys }
    {
        Draft {
            algo: None,
            execdir: None,
            deterministic: None,
            run_obj: None,
            overall_obj: None,
            cutoff_time: None,
            cutoff_length: None,
            tuner_timeout: None,
            paramfile: None,
            outdir: None,
            valid_n: None,
            instance_file: None,
            test_instance_file: None,
            approach: None,
            n: None,
            num_run: None,
            max_comparisons: None,
            workers: None,
            r: None,
            s: None,
            p_restart: None,
            cap_floor: None,
            pair_order: None,
        }
    }
}
