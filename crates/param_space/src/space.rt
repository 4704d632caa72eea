//! Spaces.
ghost use Rattle.std.specs.Prelude.{ℕ, ◌≡◌, ◌<◌, ◌≤◌, ◌++◌, true, false, OnOk, OnErr, IfOk, IfErr, None, length, map};
ghost use Rattle.param_space.specs.Limits;
ghost use Rattle.param_space.specs.Space.{space_lists, defaults, Belongs};
ghost use Rattle.param_space.specs.Faults.{space_fault, IsBreach, IsSpace};
ghost use Rattle.param_space.specs.Marks.{AreMarksOf};
ghost use Rattle.param_space.specs.Configurations;
ghost use Rattle.param_space.specs.Configurations.{settled_config, IsConfig};
ghost use Rattle.param_space.specs.Settings;
ghost use Rattle.param_space.specs.Settings.{name_and_value, settings_text};

use crate::activity::{activity, forbids_any};
use crate::checking::checked_order;
use crate::config::Config;
use crate::lists::{Condition, Forbidden, Param, SpaceFault};
use crate::marks::Marks;
use crate::settings::{NamedValue, marked_values, text_of};
use objective::Memory;
use plain_text::Items;
use std::alloc::Global;
use std::marker::Model;

/// A parameter space. Contracts see it as its three lists. Its type keeps that they break
/// no rule, and an order of the conditions in which a parent's own stand before those of
/// its children.
#[derive(Drop)]
pub struct Space {
    params: Items<Param>,
    conditions: Items<Condition>,
    forbidden: Items<Forbidden>,
    order: Items<u32>,
}

impl Model for Space {
    ghost use Rattle.param_space.specs.Space.{Lists, space_lists};
    ghost use Rattle.param_space.specs.Faults.{IsSpace};
    ghost use Rattle.param_space.specs.Order.{IsOrder};

    ghost Value = { Lists };

    ghost view = { λ s. space_lists s.params s.conditions s.forbidden };

    ghost invariant = { λ s. IsSpace (space_lists s.params s.conditions s.forbidden) × IsOrder s.conditions s.order };
}

impl PartialEq for Space {
    ghost use Rattle.std.specs.Cmp.{partial_equiv_from_equiv};
    ghost use Rattle.std.specs.Cmp.Lexicographic.{pointwise};
    ghost use Rattle.std.specs.Ordering.{on, eq_of_both};
    ghost use Rattle.std.proofs.lemmas.Cmp.{and_equiv, on_equiv, lists_equiv};
    ghost use Rattle.param_space.specs.contracts.lists.ParamEq.TheImpl.Laws as param;
    ghost use Rattle.param_space.specs.contracts.lists.ConditionEq.TheImpl.Laws as condition;
    ghost use Rattle.param_space.specs.contracts.lists.ForbiddenEq.TheImpl.Laws as forbidden;

    ghost eq = { eq_of_both
        (on (λ s. s.params) (pointwise ⟦<Param as PartialEq>⟧.eq))
        (eq_of_both
        (on (λ s. s.conditions) (pointwise ⟦<Condition as PartialEq>⟧.eq))
        (on (λ s. s.forbidden) (pointwise ⟦<Forbidden as PartialEq>⟧.eq))) };

    ghost laws = { partial_equiv_from_equiv (and_equiv
        (on_equiv (λ s. s.params) (lists_equiv param.laws-law))
        (and_equiv
        (on_equiv (λ s. s.conditions) (lists_equiv condition.laws-law))
        (on_equiv (λ s. s.forbidden) (lists_equiv forbidden.laws-law)))) };

    fn eq(&self, other: &Space) -> bool {
        self.params == other.params
            && self.conditions == other.conditions
            && self.forbidden == other.forbidden
    }
}

impl Eq for Space {
    ghost use Rattle.std.proofs.lemmas.Cmp.{and_equiv, on_equiv, lists_equiv};
    ghost use Rattle.param_space.specs.contracts.lists.ParamEq.TheImpl.Laws as param;
    ghost use Rattle.param_space.specs.contracts.lists.ConditionEq.TheImpl.Laws as condition;
    ghost use Rattle.param_space.specs.contracts.lists.ForbiddenEq.TheImpl.Laws as forbidden;

    ghost laws = { and_equiv
        (on_equiv (λ s. s.params) (lists_equiv param.laws-law))
        (and_equiv
        (on_equiv (λ s. s.conditions) (lists_equiv condition.laws-law))
        (on_equiv (λ s. s.forbidden) (lists_equiv forbidden.laws-law))) };
}

impl Space {
    /// The space of these lists, or their first fault: of the parameters, the conditions and
    /// the forbidden clauses, each in order; then the first condition whose child is its own
    /// ancestor; then the first clause that forbids the defaults.
    pub fn new(
        alloc: Global,
        params: Vec<Param>,
        conditions: Vec<Condition>,
        forbidden: Vec<Forbidden>,
    ) -> Result<Space, SpaceFault>
        ensures ok { IfOk result (λ s. s ≡ space_lists params.items conditions.items forbidden.items) }
        ensures sound { OnOk result (space_fault (space_lists params.items conditions.items forbidden.items) ≡ None) }
        ensures fault { let found = space_fault (space_lists params.items conditions.items forbidden.items) in
            IfErr result (λ e. IsBreach e found) }
    {
        let order = checked_order(
            alloc,
            params.as_slice(),
            conditions.as_slice(),
            forbidden.as_slice(),
        )?;
        Ok(Space {
            params: Items::new(params)?,
            conditions: Items::new(conditions)?,
            forbidden: Items::new(forbidden)?,
            order: Items::new(order)?,
        })
    }

    /// The parameters, in order. The lists of a space break no rule.
    pub fn params(&self) -> &[Param]
        ensures value { result.now ≡ self.now.params }
        ensures space { IsSpace self.now }
    {
        self.params.as_slice()
    }

    /// The conditions, in order.
    pub fn conditions(&self) -> &[Condition]
        ensures value { result.now ≡ self.now.conditions }
        ensures space { IsSpace self.now }
    {
        self.conditions.as_slice()
    }

    /// The forbidden clauses, in order.
    pub fn forbidden(&self) -> &[Forbidden]
        ensures value { result.now ≡ self.now.forbidden }
        ensures space { IsSpace self.now }
    {
        self.forbidden.as_slice()
    }

    /// Marks the active parameters of a configuration.
    fn marks(&self, config: &Config) -> Marks
        requires { Belongs self.now.params config.now }
        ensures size { length result ≡ Limits.max_params }
        ensures value { AreMarksOf (Configurations.is_active self.now config.now) result }
        ensures space { IsSpace self.now }
        ensures long { length config.now ≡ length self.now.params }
        ensures few { length self.now.params ≤ Limits.max_params }
    {
        let conditions = self.conditions.as_slice();
        activity(conditions, self.order.as_slice(), config.values())
    }

    /// Whether the parameter, from 0, is active in the configuration: each condition with it
    /// as child has an active parent with a listed value. Takes no memory.
    pub fn is_active(&self, config: &Config, param: u16) -> bool
        requires belongs { Belongs self.now.params config.now }
        requires in_range { param < length self.now.params }
        ensures { result ≡ Configurations.is_active self.now config.now param }
    {
        self.marks(config)[usize::from(param)]
    }

    /// Puts each inactive parameter at its default. Takes no memory.
    pub fn settle(&self, config: &mut Config)
        requires { Belongs self.now.params config.old }
        ensures value { config.new ≡ settled_config self.now config.old }
        ensures belongs { Belongs self.now.params config.new }
        ensures sound { Configurations.is_allowed self.now config.new ≡ true → IsConfig self.now config.new }
    {
        let active = self.marks(config);
        for (i, param) in self.params.as_slice().iter().enumerate() {
            if !active[i] {
                config.set(i as u16, param.default);
            }
        }
    }

    /// Whether each inactive parameter stands at its default. Takes no memory.
    pub fn is_canonical(&self, config: &Config) -> bool
        requires { Belongs self.now.params config.now }
        ensures { result ≡ Configurations.is_canonical self.now config.now }
    {
        let active = self.marks(config);
        let values = config.values();
        for (i, param) in self.params.as_slice().iter().enumerate() {
            if !active[i] && values[i] != param.default {
                return false;
            }
        }
        true
    }

    /// Whether no forbidden clause has all its settings in the configuration; a setting
    /// counts only where its parameter is active. Takes no memory.
    pub fn is_allowed(&self, config: &Config) -> bool
        requires { Belongs self.now.params config.now }
        ensures { result ≡ Configurations.is_allowed self.now config.now }
    {
        let active = self.marks(config);
        !forbids_any(self.forbidden.as_slice(), config.values(), &active)
    }

    /// The same space, shared. Takes no memory.
    pub fn copy(&self) -> Result<Space, Memory>
        ensures { IfOk result (λ s. s ≡ self.now) }
    {
        Ok(Space {
            params: self.params.copy()?,
            conditions: self.conditions.copy()?,
            forbidden: self.forbidden.copy()?,
            order: self.order.copy()?,
        })
    }

    /// The configuration of the defaults, which is canonical and allowed.
    pub fn default_config(&self) -> Result<Config, Memory>
        ensures value { IfOk result (λ c. c ≡ defaults self.now.params) }
        ensures belongs { IfOk result (λ c. Belongs self.now.params c) }
        ensures sound { IfOk result (λ c. IsConfig self.now c) }
    {
        let alloc = *self.params.allocator();
        let params = self.params.as_slice();
        let values = params.iter().map(|param| param.default).collect(alloc)?;
        Ok(Config::new(values))
    }

    /// Each active parameter's name and its value, in order.
    pub fn active_values(&self, config: &Config) -> Result<Vec<NamedValue<'_>>, Memory>
        requires { Belongs self.now.params config.now }
        ensures { IfOk result (λ v. map name_and_value v.items ≡ Settings.active_values self.now config.now) }
    {
        let alloc = *self.params.allocator();
        let active = self.marks(config);
        marked_values(alloc, self.params.as_slice(), config.values(), &active)
    }

    /// Appends `name=value` for each active parameter in order, parted by one space. Where
    /// there is no memory left, nothing is appended.
    pub fn push_settings(&self, config: &Config, out: &mut Vec<u8>) -> Result<(), Memory>
        requires { Belongs self.now.params config.now }
        ensures ok { let settings = Settings.active_values self.now config.now in
            OnOk result (out.new.items ≡ out.old.items ++ settings_text settings) }
        ensures err { OnErr result (out.new.items ≡ out.old.items) }
    {
        let alloc = *self.params.allocator();
        let text = text_of(alloc, self.active_values(config)?.as_slice())?;
        out.extend_from_slice(text.as_slice())?;
        Ok(())
    }
}
