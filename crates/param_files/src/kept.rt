//! What is kept of the lines of a parameter file.
ghost use Rattle.std.specs.Prelude.{◌≡◌, [], Ok, OnOk};
ghost use Rattle.param_files.specs.declared.statements.Statement.TheVariants.{Parameter, Condition, Clause};
ghost use Rattle.plain_text.specs.Faults.{in_line, FailsAs};
ghost use Rattle.param_files.specs.Faults.{fault_of};
ghost use Rattle.param_files.specs.KeptStatements.{kept_of, kept_with};

use crate::faults::{ParamFault, broken};
use crate::line_rules::{clause_fault, condition_fault, param_fault};
use crate::statements::{NamedPick, Statement};
use param_space::Param;
use plain_text::{Items, Text, position_of};
use std::alloc::Global;
use std::marker::Model;

/// The parameters, the conditions and clauses with their lines, and how many of each.
#[derive(Drop)]
pub(crate) struct SpaceDraft {
    pub params: Vec<Param>,
    pub relations: Vec<(u32, Statement)>,
    conditions: usize,
    clauses: usize,
}

impl Model for SpaceDraft {
    ghost use Rattle.param_files.specs.KeptStatements;

    ghost Value = { KeptStatements.SpaceDraft };

    ghost view = { λ k. record {
      params = k.params.items;
      relations = k.relations.items;
      conditions = k.conditions;
      clauses = k.clauses;
    } };
}

impl SpaceDraft {
    /// Nothing is kept yet. Takes no memory.
    #[tactic(auto, unfolding(crate::specs::KeptStatements::kept_of, crate::specs::Reading::params_in))]
    pub fn new(alloc: Global) -> SpaceDraft
        ensures { result ≡ kept_of [] }
    {
        SpaceDraft {
            params: Vec::new(alloc),
            relations: Vec::new(alloc),
            conditions: 0,
            clauses: 0,
        }
    }

    /// Keeps what this line states. Fails with the first rule that it breaks; then nothing
    /// is known of what is kept.
    #[tactic(auto, unfolding(crate::specs::Reading::fault_after))]
    pub fn add(&mut self, alloc: Global, line: u32, statement: Statement) -> Result<(), ParamFault>
        ensures value { OnOk result (kept_with self.old line statement ≡ Ok self.new) }
        ensures fault { FailsAs fault_of result (in_line line (kept_with self.old line statement)) }
    {
        match statement {
            Statement::Nothing => Ok(()),
            Statement::Parameter {
                name,
                values,
                default,
            } => self.add_param(alloc, line, name, values, default),
            Statement::Condition {
                child,
                parent,
                values,
            } => self.add_condition(alloc, line, child, parent, values),
            Statement::Clause { picks } => self.add_clause(line, picks),
        }
    }

    /// Keeps a parameter.
    #[tactic(auto, unfolding(crate::specs::Reading::fault_after))]
    fn add_param(
        &mut self,
        alloc: Global,
        line: u32,
        name: Text,
        values: Items<Text>,
        default: Text,
    ) -> Result<(), ParamFault>
        ensures value { OnOk result (kept_with self.old line (Parameter name values default) ≡ Ok self.new) }
        ensures fault { let kept = kept_with self.old line (Parameter name values default) in
            FailsAs fault_of result (in_line line kept) }
    {
        let (texts, text) = (values.as_slice(), default.as_str());
        if let Some(what) = param_fault(
            alloc,
            self.params.as_slice(),
            name.as_str(),
            texts,
            text,
        )? {
            return Err(broken(line, what));
        }
        let default = position_of(texts, text) as u16;
        self.params.push(Param {
            name,
            values,
            default,
        })?;
        Ok(())
    }

    /// Keeps a condition.
    #[tactic(auto, unfolding(crate::specs::Reading::fault_after))]
    fn add_condition(
        &mut self,
        alloc: Global,
        line: u32,
        child: Text,
        parent: Text,
        values: Items<Text>,
    ) -> Result<(), ParamFault>
        ensures value { OnOk result (kept_with self.old line (Condition child parent values) ≡ Ok self.new) }
        ensures fault { let kept = kept_with self.old line (Condition child parent values) in
            FailsAs fault_of result (in_line line kept) }
    {
        if let Some(what) = condition_fault(alloc, self.conditions, values.as_slice())? {
            return Err(broken(line, what));
        }
        self.relations.push((
            line,
            Statement::Condition {
                child,
                parent,
                values,
            },
        ))?;
        self.conditions += 1;
        Ok(())
    }

    /// Keeps a clause.
    #[tactic(auto, unfolding(crate::specs::Reading::fault_after))]
    fn add_clause(&mut self, line: u32, picks: Items<NamedPick>) -> Result<(), ParamFault>
        ensures value { OnOk result (kept_with self.old line (Clause picks) ≡ Ok self.new) }
        ensures fault { FailsAs fault_of result (in_line line (kept_with self.old line (Clause picks))) }
    {
        if let Some(what) = clause_fault(self.clauses, picks.as_slice()) {
            return Err(broken(line, what));
        }
        self.relations.push((line, Statement::Clause { picks }))?;
        self.clauses += 1;
        Ok(())
    }
}
