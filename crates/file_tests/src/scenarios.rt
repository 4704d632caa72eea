//! A scenario by value, and the first faults of scenario files and of words.
use crate::checks::{check, check_bytes};
use objective::{Memory, Micros};
use plain_text::Text;
use scenario_files::{
    Approach, Draft, Overall, PairOrder, RunObj, Scenario, ScenarioFault, ScenarioWhat, WordFault,
    Words, fill, read_scenario, read_words,
};
use std::alloc::Global;
use test_support::words_between;

const USUAL: &str = "# A usual scenario.
algo = ruby saps_wrapper.rb
execdir=example_saps

deterministic = 0
\trun_obj = runtime # seconds
overall_obj = mean10\r
cutoff_time = 5.0
cutoff_length = max
tunerTimeout = 300
paramfile = p
outdir = out
instance_file = i
test_instance_file = t";

fn is(given: &Option<Text>, wanted: &str) -> bool {
    match given {
        Some(text) => text.as_str() == wanted,
        None => false,
    }
}

fn is_usual(draft: &Draft) -> bool {
    is(&draft.algo, "ruby saps_wrapper.rb")
        && is(&draft.execdir, "example_saps")
        && is(&draft.tuner_timeout, "300")
        && is(&draft.paramfile, "p")
        && is(&draft.outdir, "out")
        && is(&draft.instance_file, "i")
        && is(&draft.test_instance_file, "t")
        && draft.deterministic == Some(false)
        && draft.run_obj == Some(RunObj::Runtime)
        && draft.overall_obj == Some(Overall::Mean10)
        && draft.cutoff_time == Some(Micros(5_000_000))
        && draft.cutoff_length == Some(2_147_483_647)
        && draft.valid_n.is_none()
        && (draft.approach.is_none() && draft.n.is_none() && draft.pair_order.is_none())
}

fn reads_usual(read: &Result<Draft, ScenarioFault>) -> bool {
    match read {
        Ok(draft) => is_usual(draft),
        Err(_) => false,
    }
}

fn usual_is_read(alloc: Global) -> bool {
    let read = read_scenario(alloc, USUAL.as_bytes());
    reads_usual(&read)
}

#[test]
fn reads_a_usual_scenario(rt: HostRuntime) {
    check(&rt, usual_is_read(rt.alloc()), USUAL);
}

fn fault_of(alloc: Global, text: &[u8]) -> Option<ScenarioFault> {
    read_scenario(alloc, text).err()
}

fn at(line: u32, what: ScenarioWhat) -> Option<ScenarioFault> {
    Some(ScenarioFault::At { line, what })
}

/// Each form, and numbers at their limits.
#[test]
fn takes_values(rt: HostRuntime) {
    for line in &[
        "algo = a = b # c",
        "execdir = .",
        "deterministic = 1",
        "overall_obj = mean",
        "overall_obj = mean1000",
        "cutoff_time = 0.000001",
        "cutoff_time = 0.0000001",
        "cutoff_time = 1e6",
        "cutoff_length = 0",
        "cutoff_length = 2147483647",
        "tunerTimeout =",
        "outdir = # none",
        "validN = \t",
        "approach = basic",
        "approach = focused",
        "N = 1",
        "N = 10000",
        "N = 000000000000000000000000000001",
        "numRun = 0",
        "numRun = 4294967295",
        "maxComparisons = 0",
        "maxComparisons = 100000",
        "workers = 1",
        "workers = 64",
        "r = 0",
        "r = 1000",
        "s = 1",
        "s = 100",
        "p_restart = 0",
        "p_restart = 1",
        "p_restart = 0.00009999999",
        "cap_floor = 0.000001",
        "cap_floor = 18446744073709.551615",
        "pair_order = shuffled",
        "pair_order = file",
    ] {
        check(&rt, fault_of(rt.alloc(), line.as_bytes()).is_none(), line);
    }
}

#[test]
fn refuses_other_forms(rt: HostRuntime) {
    for line in &[
        "algo =",
        "execdir = \t",
        "paramfile = # p",
        "instance_file=",
        "test_instance_file = ",
        "deterministic = 2",
        "deterministic = 01",
        "run_obj = Runtime",
        "overall_obj = median",
        "cutoff_time = ",
        "cutoff_time = -1",
        "cutoff_time = 5 s",
        "cutoff_length = MAX",
        "cutoff_length = 1.0",
        "approach = random",
        "N = ",
        "N = +1",
        "numRun = -1",
        "maxComparisons = 1e3",
        "workers = 1 2",
        "r = x",
        "s = 0x1",
        "p_restart = x",
        "p_restart = 0.00005",
        "p_restart = 0.00010000001",
        "cap_floor = .",
        "pair_order = files",
    ] {
        let found = fault_of(rt.alloc(), line.as_bytes());
        check(&rt, found == at(1, ScenarioWhat::BadValue), line);
    }
}

#[test]
fn refuses_numbers_past_their_limits(rt: HostRuntime) {
    for line in &[
        "cutoff_time = 0",
        "cutoff_time = 1000000.0000001",
        "cutoff_time = 1e99",
        "cutoff_length = 2147483648",
        "N = 0",
        "N = 10001",
        "N = 18446744073709551617",
        "numRun = 4294967296",
        "maxComparisons = 100001",
        "workers = 0",
        "workers = 65",
        "r = 1001",
        "s = 0",
        "s = 101",
        "p_restart = 1.0000001",
        "p_restart = 1.00005",
        "p_restart = 1e99",
        "cap_floor = 0",
        "cap_floor = 18446744073709.5516151",
    ] {
        let found = fault_of(rt.alloc(), line.as_bytes());
        check(&rt, found == at(1, ScenarioWhat::OutOfRange), line);
    }
}

#[test]
fn refuses_bytes_that_are_no_text(rt: HostRuntime) {
    for text in &[b"N = 1 # \xff".as_slice(), b"\xff".as_slice()] {
        let found = fault_of(rt.alloc(), text);
        check_bytes(&rt, found == at(1, ScenarioWhat::NotText), text);
    }
}

/// One file for each two faults of which the format says which is first.
#[test]
fn finds_the_first_fault(rt: HostRuntime) {
    for (text, line, what) in &[
        ("N = 1\nspeed", 2, ScenarioWhat::NoEquals),
        ("algo # = a", 1, ScenarioWhat::NoEquals),
        ("\n\r", 2, ScenarioWhat::NoEquals),
        ("speed =", 1, ScenarioWhat::UnknownKey),
        ("= 3", 1, ScenarioWhat::UnknownKey),
        ("Algo = a", 1, ScenarioWhat::UnknownKey),
        ("scenariofile = s", 1, ScenarioWhat::UnknownKey),
        ("N = 1\n\nN = x", 3, ScenarioWhat::Twice),
        ("outdir =\noutdir = o", 2, ScenarioWhat::Twice),
        ("N = x\nspeed", 1, ScenarioWhat::BadValue),
        (" \n# N\r\n\t# =\r\nN = 0\r\nN", 4, ScenarioWhat::OutOfRange),
    ] {
        let found = fault_of(rt.alloc(), text.as_bytes());
        check(&rt, found == at(*line, *what), text);
    }
}

const SMALL: &str =
    "algo=\ta = b \t# c\nparamfile = p\ninstance_file = i\ncutoff_time = 0.0000001\nN = 7\nr = 0\np_restart = 0.00019999999\n";

/// Whether the words name the file ` s` and give N, algo and outdir.
fn are_read(words: &Words) -> bool {
    words.scenario_file.as_str() == " s"
        && (words.draft.n == Some(10) && is(&words.draft.algo, " a # b\n"))
        && is(&words.draft.outdir, "")
        && (words.draft.execdir.is_none() && words.draft.workers.is_none())
}

fn reads_right(read: &Result<Words, WordFault>) -> bool {
    match read {
        Ok(words) => are_read(words),
        Err(_) => false,
    }
}

fn words_are_read(alloc: Global, words: &[Text]) -> bool {
    let read = read_words(alloc, words);
    reads_right(&read)
}

fn given_are_read(alloc: Global, words: &str) -> Result<bool, Memory> {
    let words = words_between(alloc, words)?;
    Ok(words_are_read(alloc, words.as_slice()))
}

#[test]
fn reads_words(rt: HostRuntime) {
    let words = "-N|0010|-algo| a # b\n|-scenariofile| s|-outdir|";
    check(
        &rt,
        matches!(given_are_read(rt.alloc(), words), Ok(true)),
        words,
    );
}

/// Whether the key word at this place is the first wrong one.
fn is_wrong_at(alloc: Global, words: &str, place: u32) -> Result<bool, Memory> {
    let words = words_between(alloc, words)?;
    let found = read_words(alloc, words.as_slice()).err();
    Ok(found == Some(WordFault::At { place }))
}

#[test]
fn finds_the_wrong_word(rt: HostRuntime) {
    for (words, place) in &[
        ("", 0),
        ("-N|1", 2),
        ("-N|1|-r", 2),
        ("-scenariofile", 0),
        ("-scenariofile|s|-N", 2),
        ("-scenariofile| \t|-N|0", 0),
        ("-scenariofile||-N|0", 0),
        ("scenariofile|s", 0),
        ("-scenariofile|s|-scenariofile|s", 2),
        ("-scenariofile|s|-workers|0", 2),
        ("-scenariofile|s|-workers| 1", 2),
        ("-scenariofile|s|--workers|1", 2),
        ("-scenariofile|s|-algo|\t", 2),
        ("-scenariofile|s|-|1|-N|0", 2),
        ("-N|1|-scenariofile|s|-N|1", 4),
    ] {
        let right = is_wrong_at(rt.alloc(), words, *place);
        check(&rt, matches!(right, Ok(true)), words);
    }
}

/// A scenario of SMALL with the words `-N 8` and `-outdir o`.
fn is_filled(scenario: &Scenario) -> bool {
    scenario.algo.as_str() == "a = b"
        && scenario.execdir.as_str() == "."
        && (scenario.paramfile.as_str() == "p" && scenario.instance_file.as_str() == "i")
        && scenario.cutoff_time == Micros(1)
        && (scenario.n == 8 && scenario.r == 0 && scenario.p_restart == 2)
        && (is(&scenario.outdir, "o") && scenario.tuner_timeout.is_none())
}

/// The defaults of the keys that neither SMALL nor the words give.
fn has_defaults(scenario: &Scenario) -> bool {
    !scenario.deterministic
        && scenario.run_obj == RunObj::Runtime
        && scenario.overall_obj == Overall::Mean
        && scenario.cutoff_length == 2_147_483_647
        && (scenario.valid_n.is_none() && scenario.test_instance_file.is_none())
        && scenario.approach == Approach::Focused
        && (scenario.num_run == 0 && scenario.max_comparisons == 1000)
        && (scenario.workers == 1 && scenario.s == 3)
        && scenario.cap_floor == Micros(100_000)
        && scenario.pair_order == PairOrder::Shuffled
}

/// Whether this is the scenario of SMALL and the words.
fn fills_right(filled: &Result<Scenario, ScenarioFault>) -> bool {
    match filled {
        Ok(scenario) => is_filled(scenario) && has_defaults(scenario),
        Err(_) => false,
    }
}

/// Whether these drafts are filled to the scenario of SMALL and the words.
fn fills(alloc: Global, file: Draft, words: Draft) -> bool {
    let filled = fill(alloc, file, words);
    fills_right(&filled)
}

/// Whether a scenario of SMALL is filled by these words.
fn fills_small(alloc: Global, words: &[Text]) -> Result<bool, ScenarioFault> {
    let file = read_scenario(alloc, SMALL.as_bytes())?;
    match read_words(alloc, words) {
        Ok(read) => Ok(fills(alloc, file, read.draft)),
        Err(_) => Ok(false),
    }
}

fn is_filled_by(alloc: Global, words: &str) -> Result<bool, ScenarioFault> {
    let words = words_between(alloc, words)?;
    fills_small(alloc, words.as_slice())
}

#[test]
fn fills_a_scenario(rt: HostRuntime) {
    let words = "-N|8|-scenariofile|s|-outdir|o";
    check(
        &rt,
        matches!(is_filled_by(rt.alloc(), words), Ok(true)),
        words,
    );
}

/// The fault of filling what is read of these files.
fn fault_filled(
    alloc: Global,
    file: &str,
    over: &str,
) -> Result<Option<ScenarioFault>, ScenarioFault> {
    let file = read_scenario(alloc, file.as_bytes())?;
    match read_scenario(alloc, over.as_bytes()) {
        Ok(over) => Ok(fill(alloc, file, over).err()),
        Err(fault) => Err(fault),
    }
}

#[test]
fn finds_what_is_missing(rt: HostRuntime) {
    let missing = at(0, ScenarioWhat::Missing);
    for (file, over, fault) in &[
        (
            "cutoff_time = 1\nparamfile = p\ninstance_file = i",
            "algo = a",
            None,
        ),
        ("paramfile = p\ninstance_file = i", "algo = a", missing),
        ("cutoff_time = 1\ninstance_file = i", "algo = a", missing),
        ("cutoff_time = 1\nparamfile = p", "algo = a", missing),
        (USUAL, "", None),
    ] {
        let right = match fault_filled(rt.alloc(), file, over) {
            Ok(found) => found == *fault,
            Err(_) => false,
        };
        check(&rt, right, file);
    }
}

/// The fault of so many marks of a comment.
fn fault_of_marks(alloc: Global, count: usize) -> Result<Option<ScenarioFault>, Memory> {
    let text = vec![in alloc; b'#'; count]?;
    Ok(fault_of(alloc, &text))
}

#[test]
fn reads_at_most_16_mib(rt: HostRuntime) {
    for (name, count, wanted) in &[
        ("16 MiB", 16_777_216, None),
        ("more", 16_777_217, at(0, ScenarioWhat::BadValue)),
    ] {
        let right = match fault_of_marks(rt.alloc(), *count) {
            Ok(found) => found == *wanted,
            Err(_) => false,
        };
        check(&rt, right, name);
    }
}

/// The fault of a line of this key and 100,000 digits.
fn fault_of_digits(alloc: Global, key: &str) -> Result<Option<ScenarioFault>, Memory> {
    let mut text = key.as_bytes().to_vec(alloc)?;
    for _ in 0..100_000 {
        text.push(b'1')?;
    }
    Ok(fault_of(alloc, &text))
}

#[test]
fn reads_any_number_of_digits(rt: HostRuntime) {
    for (key, what) in &[
        ("workers = ", ScenarioWhat::OutOfRange),
        ("cutoff_time = ", ScenarioWhat::OutOfRange),
        ("deterministic = ", ScenarioWhat::BadValue),
        ("speed = ", ScenarioWhat::UnknownKey),
    ] {
        let right = match fault_of_digits(rt.alloc(), key) {
            Ok(found) => found == at(1, *what),
            Err(_) => false,
        };
        check(&rt, right, key);
    }
}
