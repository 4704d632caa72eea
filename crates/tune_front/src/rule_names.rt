//! The names of the rules that a file may break.
ghost use Rattle.std.specs.Prelude.{◌≡◌};
ghost use Rattle.tune_front.specs.RuleNames;

use crate::status::What;
use instance_pairs::InstanceWhat;
use param_files::ParamWhat;
use param_space::SpaceWhat;
use scenario_files::ScenarioWhat;

/// The name of a rule of a scenario file.
fn scenario_rule(what: ScenarioWhat) -> &'static str
    ensures { result.now ≡ RuleNames.scenario_rule what }
{
    match what {
        ScenarioWhat::NotText => "NotText",
        ScenarioWhat::NoEquals => "NoEquals",
        ScenarioWhat::UnknownKey => "UnknownKey",
        ScenarioWhat::Twice => "Twice",
        ScenarioWhat::BadValue => "BadValue",
        ScenarioWhat::OutOfRange => "OutOfRange",
        ScenarioWhat::Missing => "Missing",
    }
}

/// The name of a rule of a space.
fn space_rule(what: SpaceWhat) -> &'static str
    ensures { result.now ≡ RuleNames.space_rule what }
{
    match what {
        SpaceWhat::NoParameters => "NoParameters",
        SpaceWhat::TooMany => "TooMany",
        SpaceWhat::BadWord => "BadWord",
        SpaceWhat::DoubleName => "DoubleName",
        SpaceWhat::NoValues => "NoValues",
        SpaceWhat::DoubleValue => "DoubleValue",
        SpaceWhat::BadDefault => "BadDefault",
        SpaceWhat::UnknownName => "UnknownName",
        SpaceWhat::UnknownValue => "UnknownValue",
        SpaceWhat::Cycle => "Cycle",
        SpaceWhat::DefaultForbidden => "DefaultForbidden",
    }
}

/// The name of a rule of a parameter file.
fn params_rule(what: ParamWhat) -> &'static str
    ensures { result.now ≡ RuleNames.params_rule what }
{
    match what {
        ParamWhat::NotText => "NotText",
        ParamWhat::Form => "Form",
        ParamWhat::Space(rule) => space_rule(rule),
    }
}

/// The name of a rule of an instance file.
fn instances_rule(what: InstanceWhat) -> &'static str
    ensures { result.now ≡ RuleNames.instances_rule what }
{
    match what {
        InstanceWhat::NotText => "NotText",
        InstanceWhat::TooMany => "TooMany",
        InstanceWhat::NoInstances => "NoInstances",
    }
}

/// The name of a rule of a file.
pub(crate) fn rule_name(what: What) -> &'static str
    ensures { result.now ≡ RuleNames.rule_name what }
{
    match what {
        What::Scenario(rule) => scenario_rule(rule),
        What::Params(rule) => params_rule(rule),
        What::Instances(rule) => instances_rule(rule),
    }
}
