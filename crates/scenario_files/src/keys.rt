//! The keys of a scenario.
ghost use Rattle.std.specs.Prelude.{◌≡◌};
ghost use Rattle.scenario_files.specs.Keys;

/// A key of a scenario.
#[derive(Clone, Copy, Debug, PartialEq, Eq)]
pub(crate) enum Key {
    Algo,
    Execdir,
    Deterministic,
    RunObj,
    OverallObj,
    CutoffTime,
    CutoffLength,
    TunerTimeout,
    Paramfile,
    Outdir,
    ValidN,
    InstanceFile,
    TestInstanceFile,
    Approach,
    N,
    NumRun,
    MaxComparisons,
    Workers,
    R,
    S,
    PRestart,
    CapFloor,
    PairOrder,
}

/// All keys.
const KEYS: [Key; 23] = [
    Key::Algo,
    Key::Execdir,
    Key::Deterministic,
    Key::RunObj,
    Key::OverallObj,
    Key::CutoffTime,
    Key::CutoffLength,
    Key::TunerTimeout,
    Key::Paramfile,
    Key::Outdir,
    Key::ValidN,
    Key::InstanceFile,
    Key::TestInstanceFile,
    Key::Approach,
    Key::N,
    Key::NumRun,
    Key::MaxComparisons,
    Key::Workers,
    Key::R,
    Key::S,
    Key::PRestart,
    Key::CapFloor,
    Key::PairOrder,
];

impl Key {
    /// Its name.
    fn name(self) -> &'static str
        ensures { result.now ≡ Keys.name_of self }
    {
        match self {
            Key::Algo => "algo",
            Key::Execdir => "execdir",
            Key::Deterministic => "deterministic",
            Key::RunObj => "run_obj",
            Key::OverallObj => "overall_obj",
            Key::CutoffTime => "cutoff_time",
            Key::CutoffLength => "cutoff_length",
            Key::TunerTimeout => "tunerTimeout",
            Key::Paramfile => "paramfile",
            Key::Outdir => "outdir",
            Key::ValidN => "validN",
            Key::InstanceFile => "instance_file",
            Key::TestInstanceFile => "test_instance_file",
            Key::Approach => "approach",
            Key::N => "N",
            Key::NumRun => "numRun",
            Key::MaxComparisons => "maxComparisons",
            Key::Workers => "workers",
            Key::R => "r",
            Key::S => "s",
            Key::PRestart => "p_restart",
            Key::CapFloor => "cap_floor",
            Key::PairOrder => "pair_order",
        }
    }
}

/// The key with this name. None exactly where there is none.
#[tactic(auto, unfolding(crate::specs::Keys::key_of))]
pub(crate) fn key_of(name: &str) -> Option<Key>
    ensures { result ≡ Keys.key_of name.now }
{
    KEYS.iter().copied().find(|k| k.name() == name)
}
