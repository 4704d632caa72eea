//! A draft takes a key.
ghost use Rattle.std.specs.Prelude.{◌≡◌, Some, None, Ok, OnOk, IfOk, IfErr};
ghost use Rattle.std.specs.Result.{IsOkAnd};
ghost use Rattle.plain_text.specs.Faults.{FailsAs};
ghost use Rattle.scenario_files.specs.Drafts.{has_key, with_value, with_key, with_name};
ghost use Rattle.scenario_files.specs.Faults.{rule_of};
ghost use Rattle.scenario_files.specs.Values;

use crate::draft::Draft;
use crate::faults::{Refused, ScenarioWhat};
use crate::keys::{Key, key_of};
use crate::values::{
    approach_of, count_within, cutoff_length_of, flag_of, is_empty, overall_of, pair_order_of,
    run_obj_of, share_of, time_within,
};
use objective::{MAX_COMPARISONS, MAX_CUTOFF, MAX_INITIAL, MAX_RUNS, MAX_STRENGTH, MAX_WORKERS};
use plain_text::Text;
use std::alloc::Global;

/// A text that isn't of blanks alone.
pub(crate) fn text_of(alloc: Global, text: &str) -> Result<Text, Refused>
    ensures value { IfOk result (λ t. Values.text_of text.now ≡ Ok t) }
    ensures fault { FailsAs rule_of result (Values.text_of text.now) }
{
    if is_empty(text) {
        return Err(Refused::Value(ScenarioWhat::BadValue));
    }
    Ok(Text::of(alloc, text)?)
}

/// Puts a value that was read at its place, or hands on what is wrong with it.
fn put<T: Drop>(place: &mut Option<T>, read: Result<T, ScenarioWhat>) -> Result<(), Refused>
    ensures value { OnOk result (IsOkAnd read (λ x. place.new ≡ Some x)) }
    ensures fault { FailsAs rule_of result read }
{
    *place = Some(read?);
    Ok(())
}

/// Puts a text that isn't of blanks alone at its place.
fn put_text(place: &mut Option<Text>, alloc: Global, text: &str) -> Result<(), Refused>
    ensures value { OnOk result (IsOkAnd (Values.text_of text.now) (λ t. place.new ≡ Some t)) }
    ensures fault { FailsAs rule_of result (Values.text_of text.now) }
{
    *place = Some(text_of(alloc, text)?);
    Ok(())
}

/// Puts any text at its place.
fn put_any(place: &mut Option<Text>, alloc: Global, text: &str) -> Result<(), Refused>
    ensures value { OnOk result (place.new ≡ Some text.now) }
    ensures fault { IfErr result (λ e. rule_of e ≡ None) }
{
    *place = Some(Text::of(alloc, text)?);
    Ok(())
}

impl Draft {
    /// Whether the draft has the key.
    fn has(&self, key: Key) -> bool
        ensures { result ≡ has_key self.now key }
    {
        match key {
            Key::Algo => self.algo.is_some(),
            Key::Execdir => self.execdir.is_some(),
            Key::Deterministic => self.deterministic.is_some(),
            Key::RunObj => self.run_obj.is_some(),
            Key::OverallObj => self.overall_obj.is_some(),
            Key::CutoffTime => self.cutoff_time.is_some(),
            Key::CutoffLength => self.cutoff_length.is_some(),
            Key::TunerTimeout => self.tuner_timeout.is_some(),
            Key::Paramfile => self.paramfile.is_some(),
            Key::Outdir => self.outdir.is_some(),
            Key::ValidN => self.valid_n.is_some(),
            Key::InstanceFile => self.instance_file.is_some(),
            Key::TestInstanceFile => self.test_instance_file.is_some(),
            Key::Approach => self.approach.is_some(),
            Key::N => self.n.is_some(),
            Key::NumRun => self.num_run.is_some(),
            Key::MaxComparisons => self.max_comparisons.is_some(),
            Key::Workers => self.workers.is_some(),
            Key::R => self.r.is_some(),
            Key::S => self.s.is_some(),
            Key::PRestart => self.p_restart.is_some(),
            Key::CapFloor => self.cap_floor.is_some(),
            Key::PairOrder => self.pair_order.is_some(),
        }
    }

    /// Puts a key at what its value is read as.
    #[tactic(auto, unfolding(crate::specs::Drafts::with_value))]
    fn set_value(&mut self, alloc: Global, key: Key, text: &str) -> Result<(), Refused>
        ensures value { OnOk result (with_value self.old key text.now ≡ Ok self.new) }
        ensures fault { FailsAs rule_of result (with_value self.old key text.now) }
    {
        match key {
            Key::Algo => put_text(&mut self.algo, alloc, text),
            Key::Execdir => put_text(&mut self.execdir, alloc, text),
            Key::Deterministic => put(&mut self.deterministic, flag_of(text)),
            Key::RunObj => put(&mut self.run_obj, run_obj_of(text)),
            Key::OverallObj => put(&mut self.overall_obj, overall_of(text)),
            Key::CutoffTime => put(&mut self.cutoff_time, time_within(1, MAX_CUTOFF, text)),
            Key::CutoffLength => put(&mut self.cutoff_length, cutoff_length_of(text)),
            Key::TunerTimeout => put_any(&mut self.tuner_timeout, alloc, text),
            Key::Paramfile => put_text(&mut self.paramfile, alloc, text),
            Key::Outdir => put_any(&mut self.outdir, alloc, text),
            Key::ValidN => put_any(&mut self.valid_n, alloc, text),
            Key::InstanceFile => put_text(&mut self.instance_file, alloc, text),
            Key::TestInstanceFile => put_text(&mut self.test_instance_file, alloc, text),
            Key::Approach => put(&mut self.approach, approach_of(text)),
            Key::N => put(&mut self.n, count_within(1, MAX_RUNS, text)),
            Key::NumRun => put(&mut self.num_run, count_within(0, u32::MAX, text)),
            Key::MaxComparisons => put(
                &mut self.max_comparisons,
                count_within(0, MAX_COMPARISONS, text),
            ),
            Key::Workers => put(&mut self.workers, count_within(1, MAX_WORKERS, text)),
            Key::R => put(&mut self.r, count_within(0, MAX_INITIAL, text)),
            Key::S => put(&mut self.s, count_within(1, MAX_STRENGTH, text)),
            Key::PRestart => put(&mut self.p_restart, share_of(text)),
            Key::CapFloor => put(&mut self.cap_floor, time_within(1, u64::MAX, text)),
            Key::PairOrder => put(&mut self.pair_order, pair_order_of(text)),
        }
    }

    /// Takes a key with its value. Fails where the key was given before, or with what is
    /// wrong with the value; then nothing is known of the draft.
    pub(crate) fn set(&mut self, alloc: Global, key: Key, text: &str) -> Result<(), Refused>
        ensures value { OnOk result (with_key self.old key text.now ≡ Ok self.new) }
        ensures fault { FailsAs rule_of result (with_key self.old key text.now) }
    {
        if self.has(key) {
            return Err(Refused::Value(ScenarioWhat::Twice));
        }
        self.set_value(alloc, key, text)
    }

    /// Takes the key of this name with its value. Fails where there is no such key, where it
    /// was given before, or with what is wrong with the value.
    pub(crate) fn set_named(
        &mut self,
        alloc: Global,
        name: &str,
        value: &str,
    ) -> Result<(), Refused>
        ensures value { OnOk result (with_name self.old name.now value.now ≡ Ok self.new) }
        ensures fault { FailsAs rule_of result (with_name self.old name.now value.now) }
    {
        match key_of(name) {
            Some(key) => self.set(alloc, key, value),
            None => Err(Refused::Value(ScenarioWhat::UnknownKey)),
        }
    }
}
