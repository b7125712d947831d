//! The known variables: their user names and sampling modes.
ghost use Rattle.std.specs.Prelude.{◌≡◌, ◌==◌, ◌++◌, ◌-◌, ◌<◌, length, set, replicate, [], None, Some, false, OnOk, OnErr};
ghost use Rattle.sat_formula.specs.Vars.{index_of, indexes_of};
ghost use Rattle.checker_rules.specs.KnownVars.{new_known};
ghost use Rattle.checker_rules.specs.State.{hide};
ghost use Rattle.checker_rules.specs.Transcript.{known_at};
ghost use Rattle.checker_parts.specs.Names.{AreDistinct, is_taken};
ghost use Rattle.checker_parts.specs.Variables.{known_of_data, mode_of};

use sat_formula::lit::Var;
use std::alloc::{AllocError, Global};
use std::marker::Model;

/// Data for each literal.
#[derive(Clone, Copy, Default)]
pub struct LitData {
    /// This many stored clauses of two or more literals hold the literal.
    pub clause_count: usize,
}

/// How a variable relates to the user's formula: models give its value as a sample or as a witness,
/// or it is hidden.
#[derive(Clone, Copy, PartialEq, Eq)]
pub enum SamplingMode {
    Sample,
    Witness,
    Hide,
}

/// The explicit user name of a variable, and its mode.
#[derive(Clone, Drop)]
pub struct VarData {
    /// The explicit user name.
    pub user_var: Option<Var>,
    pub sampling_mode: SamplingMode,
}

impl Default for VarData {
    ghost use Rattle.std.specs.Prelude.{◌≡◌};
    ghost use Rattle.checker_rules.specs.KnownVars.{new_known};
    ghost use Rattle.checker_parts.specs.Variables.{known_of_data};

    ghost is_default = { λ d. known_of_data d ≡ new_known };

    fn default() -> VarData {
        VarData {
            user_var: None,
            sampling_mode: SamplingMode::Sample,
        }
    }
}

/// The index of no name. No variable has it.
const UNNAMED: u32 = u32::MAX;

/// The known variables, in order of their indexes, in six bytes a variable.
///
/// User names are indexes of known variables, each of one variable.
#[derive(Drop)]
pub struct Variables {
    names: Vec<u32>,
    modes: Vec<SamplingMode>,
    // Whether the index is a user name.
    taken: Vec<bool>,
}

impl Model for Variables {
    ghost use Rattle.std.specs.Prelude.{List};
    ghost use Rattle.checker_rules.specs.State.{Known};

    ghost Value = { List Known };

    ghost use Rattle.checker_parts.specs.Variables.{AreColumns, known_by};

    ghost view = { λ v. known_by v.names.items v.modes.items };

    ghost invariant = { λ v. AreColumns v.names.items v.modes.items v.taken.items };
}

impl Variables {
    /// Returns a table without variables. Allocates no memory.
    pub fn new(alloc: Global) -> Variables
        ensures { result ≡ [] }
    {
        Variables {
            names: Vec::new(alloc),
            modes: Vec::new(alloc),
            taken: Vec::new(alloc),
        }
    }

    /// Returns how many variables are known: those of smaller indexes.
    pub fn len(&self) -> usize
        ensures { result ≡ length self.now }
    {
        self.names.len()
    }

    /// Returns whether no variable is known.
    pub fn is_empty(&self) -> bool
        ensures { result ≡ (length self.now == 0) }
    {
        self.names.is_empty()
    }

    /// Returns the name and mode of a variable. An unknown one has those of a new one.
    pub fn get(&self, var: Var) -> VarData
        ensures { known_of_data result ≡ known_at self.now (index_of var) }
    {
        let index = var.index();
        match self.modes.get(index) {
            Some(mode) => VarData {
                user_var: self.name(index),
                sampling_mode: *mode,
            },
            None => VarData::default(),
        }
    }

    /// Returns the user name of the variable of this index.
    fn name(&self, index: usize) -> Option<Var>
        ensures { indexes_of result ≡ (known_at self.now index).name }
    {
        Var::from_index(*self.names.get(index)? as usize)
    }

    /// Returns whether some variable has this user name.
    pub fn is_taken(&self, user_var: Var) -> bool
        ensures value { result ≡ is_taken self.now (index_of user_var) }
        ensures distinct { AreDistinct self.now }
    {
        match self.taken.get(user_var.index()) {
            Some(taken) => *taken,
            None => false,
        }
    }

    /// Makes the first `count` variables known, new ones unnamed and in mode `Sample`.
    ///
    /// # Errors
    ///
    /// `AllocError` if memory runs out; nothing is changed.
    pub fn know(&mut self, count: usize) -> Result<(), AllocError>
        ensures ok { OnOk result (self.new
            ≡ self.old ++ replicate (count - length self.old) new_known) }
        ensures err { OnErr result (self.new ≡ self.old) }
    {
        if self.len() < count {
            let more = count - self.len();
            self.names.reserve(more)?;
            self.modes.reserve(more)?;
            self.taken.reserve(more)?;
            self.names.resize(count, UNNAMED)?;
            self.modes.resize(count, SamplingMode::Sample)?;
            self.taken.resize(count, false)?;
        }
        Ok(())
    }

    /// Gives a variable without a user name one that no variable has.
    pub fn set_name(&mut self, var: Var, user_var: Var)
        requires known { index_of var < length self.old }
        requires unnamed { (known_at self.old (index_of var)).name ≡ None }
        requires in_range { index_of user_var < length self.old }
        requires not_taken { is_taken self.old (index_of user_var) ≡ false }
        ensures { self.new ≡ set self.old (index_of var)
            (record {
              name = Some (index_of user_var);
              mode = (known_at self.old (index_of var)).mode;
            }) }
    {
        let name = user_var.index();
        self.taken[name] = true;
        self.names[var.index()] = name as u32;
    }

    /// Removes the user name of a variable, if it has one, and hides the variable.
    pub fn hide(&mut self, var: Var)
        requires { index_of var < length self.old }
        ensures { self.new ≡ set self.old (index_of var) (record { name = None; mode = hide }) }
    {
        let index = var.index();
        let name = self.name(index);
        self.names[index] = UNNAMED;
        self.modes[index] = SamplingMode::Hide;
        if let Some(user_var) = name {
            self.taken[user_var.index()] = false;
        }
    }

    /// Sets the sampling mode of a variable; its name stays.
    pub fn set_mode(&mut self, var: Var, sampling_mode: SamplingMode)
        requires { index_of var < length self.old }
        ensures { self.new ≡ set self.old (index_of var)
            (record {
              name = (known_at self.old (index_of var)).name;
              mode = mode_of sampling_mode;
            }) }
    {
        self.modes[var.index()] = sampling_mode;
    }
}
