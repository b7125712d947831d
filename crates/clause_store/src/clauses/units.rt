//! The value of each known variable, if it has one.
ghost use Rattle.std.specs.Prelude.{◌≡◌, ◌-◌, ◌<◌, ◌++◌, ◌∷◌, [], length, replicate, None, OnOk, OnErr, slice_set};
ghost use Rattle.std.specs.Option.{option_map};
ghost use Rattle.clause_store.specs.Units as spec;
ghost use Rattle.clause_store.specs.Units.{unit_at};

use sat_formula::lit::Lit;
use std::alloc::{AllocError, Global};
use std::marker::Model;

/// The origin of a value.
#[derive(Clone, Copy, Debug)]
pub enum UnitId {
    /// A stored unit, with its id.
    Global(u64),
    /// The entry of the trace that gave the value.
    TracePos(usize),
    /// The negation of a literal of the clause that is checked.
    InClause,
}

/// The value of a variable, and its origin.
#[derive(Clone, Copy, Debug)]
pub struct UnitClause {
    pub id: UnitId,
    pub value: bool,
}

/// Whether a variable has a value, in one byte.
///
/// The first two are in the order of `bool`, so that one comparison shows whether a value makes a
/// literal false.
#[derive(Clone, Copy, PartialEq, Eq)]
pub(crate) enum Value {
    False,
    True,
    Free,
}

impl Value {
    fn of(value: bool) -> Value
        ensures { spec.known result ≡ Some value }
    {
        if value { Value::True } else { Value::False }
    }

    fn known(self) -> Option<bool>
        ensures { result ≡ spec.known self }
    {
        match self {
            Value::Free => None,
            Value::False => Some(false),
            Value::True => Some(true),
        }
    }

    /// Returns the value of a literal whose variable has this one. A false literal, which most are
    /// that a check looks at, is decided first.
    #[inline(always)]
    fn of_lit(self, lit: Lit) -> Option<bool>
        ensures { result ≡ spec.signed (spec.known self) lit }
    {
        if self == Value::of(lit.is_negative()) {
            Some(false)
        } else if self == Value::Free {
            None
        } else {
            Some(true)
        }
    }
}

/// The kind of a value's id, in one byte. Its number is stored elsewhere.
#[derive(Clone, Copy)]
enum Source {
    Stored,
    Derived,
    Negated,
}

impl Source {
    ghost use Rattle.clause_store.specs.Units.{id_by};

    fn id(self, number: u64) -> UnitId
        ensures { result ≡ id_by self number }
    {
        match self {
            Source::Stored => UnitId::Global(number),
            Source::Derived => UnitId::TracePos(number as usize),
            Source::Negated => UnitId::InClause,
        }
    }

    fn with_number(id: UnitId) -> (Source, u64)
        ensures { id_by result.0 result.1 ≡ id }
    {
        match id {
            UnitId::Global(id) => (Source::Stored, id),
            UnitId::TracePos(position) => (Source::Derived, position as u64),
            UnitId::InClause => (Source::Negated, 0),
        }
    }
}

/// A literal, and the value that its variable had before it was overwritten, in sixteen bytes.
#[derive(Drop)]
pub struct Overwritten {
    lit: Lit,
    value: Value,
    source: Source,
    number: u64,
}

impl Model for Overwritten {
    ghost use Rattle.std.specs.Prelude.{ℕ, Option};
    ghost use Rattle.clause_store.specs.Units.{id_by, unit_by};
    ghost use Rattle.clause_store.specs.declared.clauses.units.UnitClause.{UnitClause};

    ghost Value = { ℕ × Option UnitClause };

    ghost view = { λ o. (o.lit, unit_by o.value (id_by o.source o.number)) };
}

/// The values of the known variables, by index, in ten bytes a variable.
///
/// A check reads little but values, so these are stored apart.
#[derive(Drop)]
pub struct Units {
    values: Vec<Value>,
    sources: Vec<Source>,
    numbers: Vec<u64>,
}

impl Model for Units {
    ghost use Rattle.std.specs.Prelude.{List, Option};
    ghost use Rattle.clause_store.specs.Units.{AreEven, units_by};
    ghost use Rattle.clause_store.specs.declared.clauses.units.UnitClause.{UnitClause};

    ghost Value = { List (Option UnitClause) };

    ghost view = { λ u. units_by u.values.items u.sources.items u.numbers.items };

    ghost invariant = { λ u. AreEven u.values.items u.sources.items u.numbers.items };
}

impl Units {
    ghost use Rattle.sat_rules.specs.Clauses.{negate, var_of};
    ghost use Rattle.clause_store.specs.Rup.{true_lits};
    ghost use Rattle.clause_store.specs.StateOf.{stored_units};
    ghost use Rattle.clause_store.specs.Trace as traces;
    ghost use Rattle.clause_store.specs.Trace.{AreStored};

    /// Returns a table without variables. Allocates no memory.
    pub fn new(alloc: Global) -> Units
        ensures { result ≡ [] }
    {
        Units {
            values: Vec::new(alloc),
            sources: Vec::new(alloc),
            numbers: Vec::new(alloc),
        }
    }

    /// Returns how many variables are known.
    pub fn len(&self) -> usize
        ensures { result ≡ length self.now }
    {
        self.values.len()
    }

    /// Returns the value of the variable of this index. None for an unknown variable too.
    #[inline]
    pub fn value(&self, index: usize) -> Option<bool>
        ensures { result ≡ option_map (λ u. u.value) (unit_at self.now index) }
    {
        self.values
            .get(index)
            .copied()
            .unwrap_or(Value::Free)
            .known()
    }

    /// Returns the value of the variable of this index, with its id. None for an unknown variable
    /// too.
    #[inline]
    pub fn get(&self, index: usize) -> Option<UnitClause>
        ensures { result ≡ unit_at self.now index }
    {
        let value = self.value(index)?;
        let id = self.sources[index].id(self.numbers[index]);
        Some(UnitClause { id, value })
    }

    /// Returns the id of the stored unit that gives the variable of this index its value.
    pub fn stored_id(&self, index: usize) -> Option<u64>
        ensures { result ≡ spec.stored_id (unit_at self.now index) }
    {
        match self.get(index)?.id {
            UnitId::Global(id) => Some(id),
            _ => None,
        }
    }

    /// Returns the value of a literal.
    #[inline]
    pub fn lit_value(&self, lit: Lit) -> Option<bool>
        ensures { result ≡ spec.lit_value self.now lit }
    {
        match self.value(lit.index()) {
            Some(value) => Some(value == lit.is_positive()),
            None => None,
        }
    }

    /// Returns the value of a literal whose variable is known.
    #[inline]
    pub fn known_lit_value(&self, lit: Lit) -> Option<bool>
        requires { var_of lit < length self.now }
        ensures { result ≡ spec.lit_value self.now lit }
    {
        self.values[lit.index()].of_lit(lit)
    }

    /// Returns the values alone, for `is_false_by`.
    #[inline(always)]
    pub(crate) fn values(&self) -> &[Value]
        ensures { spec.AreValues result.now self.now }
    {
        self.values.as_slice()
    }

    /// Returns whether the value of its known variable makes the literal false, given the values.
    #[inline(always)]
    pub(crate) fn is_false_by(&self, values: &[Value], lit: Lit) -> bool
        requires known { var_of lit < length self.now }
        requires values { spec.AreValues values.now self.now }
        ensures { result ≡ true_lits self.now (negate lit) }
    {
        values[lit.index()].of_lit(lit) == Some(false)
    }

    fn is_true(&self, lit: Lit) -> bool
        ensures { result ≡ true_lits self.now lit }
    {
        matches!(self.lit_value(lit), Some(true))
    }

    /// Returns whether its variable's value makes the literal false.
    pub fn is_false(&self, lit: Lit) -> bool
        ensures { result ≡ true_lits self.now (negate lit) }
    {
        self.lit_value(lit) == Some(false)
    }

    /// Returns the id of the stored unit that makes the first true literal true.
    pub fn true_unit_id(&self, lits: &[Lit]) -> Option<u64>
        requires { AreStored self.now }
        ensures { result ≡ traces.true_unit_id (stored_units self.now) lits.now }
    {
        for lit in lits {
            if self.is_true(*lit) {
                return self.stored_id(lit.index());
            }
        }
        None
    }

    /// Gives a variable a unit, or none, in place of what it has.
    #[inline]
    pub fn set(&mut self, index: usize, unit: Option<UnitClause>)
        requires { index < length self.old }
        ensures { self.new ≡ slice_set self.old index unit }
    {
        match unit {
            Some(unit) => {
                let (source, number) = Source::with_number(unit.id);
                self.values[index] = Value::of(unit.value);
                self.sources[index] = source;
                self.numbers[index] = number;
            }
            None => self.values[index] = Value::Free,
        }
    }

    /// Gives the variable of this index a value. Its id is the one that is there.
    #[inline]
    pub fn give(&mut self, index: usize, value: bool)
        requires { index < length self.old }
        ensures { spec.IsGiven self.old index value self.new }
    {
        self.values[index] = Value::of(value);
    }

    /// Takes the value of the variable of this index away.
    #[inline]
    pub fn free(&mut self, index: usize)
        requires { index < length self.old }
        ensures { self.new ≡ slice_set self.old index None }
    {
        self.values[index] = Value::Free;
    }

    /// Returns the literal with the value of its variable, to be put back.
    #[inline]
    pub fn kept(&self, lit: Lit) -> Overwritten
        requires { var_of lit < length self.now }
        ensures { result ≡ (lit, unit_at self.now (var_of lit)) }
    {
        let index = lit.index();
        Overwritten {
            lit,
            value: self.values[index],
            source: self.sources[index],
            number: self.numbers[index],
        }
    }

    /// Puts a value back.
    #[inline]
    pub fn put_back(&mut self, old: Overwritten)
        requires { var_of old.0 < length self.old }
        ensures { self.new ≡ slice_set self.old (var_of old.0) old.1 }
    {
        let Overwritten {
            lit,
            value,
            source,
            number,
        } = old;
        let index = lit.index();
        match value {
            Value::Free => self.values[index] = Value::Free,
            _ => {
                self.values[index] = value;
                self.sources[index] = source;
                self.numbers[index] = number;
            }
        }
    }

    /// Makes the first `count` variables known, new ones without a value.
    ///
    /// # Errors
    ///
    /// `AllocError` if memory runs out.
    pub fn know(&mut self, count: usize) -> Result<(), AllocError>
        ensures { OnOk result (self.new ≡ self.old ++ replicate (count - length self.old) None) }
    {
        let more = count.saturating_sub(self.len());
        'vars: for _ in 0..more {
            self.push_free()?;
        }
        Ok(())
    }

    /// Makes one more variable known, without a value.
    ///
    /// # Errors
    ///
    /// `AllocError` if memory runs out; nothing is changed.
    pub fn push_free(&mut self) -> Result<(), AllocError>
        ensures ok { OnOk result (self.new ≡ self.old ++ None ∷ []) }
        ensures err { OnErr result (self.new ≡ self.old) }
    {
        self.values.reserve(1)?;
        self.sources.reserve(1)?;
        self.numbers.reserve(1)?;
        self.values.push(Value::Free)?;
        self.sources.push(Source::Stored)?;
        self.numbers.push(0)?;
        Ok(())
    }
}
