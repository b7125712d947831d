//! The trail: the assigned literals in order, with their reasons.
use crate::arena::Block;
use crate::clauses::narrow;
use crate::fault::ElaborateFault;
use crate::local::LocalLit;
use std::alloc::{AllocError, Global};

/// The value of a literal.
#[derive(Clone, Copy, PartialEq, Eq)]
pub(crate) enum Value {
    Free,
    True,
    False,
}

/// The reason and the position of an assigned variable.
#[derive(Clone, Copy)]
struct Cause {
    /// The clause that implies it, or none if it is assumed.
    reason: Block,
    place: u32,
}

/// The parts of a trail that grows while its values are read.
#[derive(Drop)]
pub(crate) struct Growing<'a> {
    pub(crate) values: &'a mut [Value],
    causes: &'a mut [Cause],
    lits: &'a mut Vec<LocalLit>,
}

impl<'a> Growing<'a> {
    /// Returns the literal at a position, if there is one.
    #[inline(always)]
    pub(crate) fn get(&self, place: usize) -> Option<LocalLit> {
        self.lits.get(place).copied()
    }

    /// Assigns an unassigned literal, with the clause that implies it, or no block if it is
    /// assumed.
    #[inline(always)]
    pub(crate) fn assign(&mut self, lit: LocalLit, reason: Block) -> Result<(), ElaborateFault> {
        let place = narrow(self.lits.len())?;
        self.lits.push(lit)?;
        set_value(self.values, lit, Value::True);
        set_value(self.values, !lit, Value::False);
        match self.causes.get_mut(lit.variable()) {
            Some(cause) => *cause = Cause { reason, place },
            None => return Err(ElaborateFault::Internal),
        }
        Ok(())
    }
}

/// The true literals in order.
#[derive(Drop)]
pub(crate) struct Trail {
    /// By code of the literal.
    values: Vec<Value>,
    /// By index of the variable; unspecified if it is unassigned.
    causes: Vec<Cause>,
    lits: Vec<LocalLit>,
}

impl Trail {
    pub(crate) fn new(alloc: Global) -> Trail {
        Trail {
            values: Vec::new(alloc),
            causes: Vec::new(alloc),
            lits: Vec::new(alloc),
        }
    }

    /// Allocates slots for this many variables, at least as many as before.
    pub(crate) fn make_room(&mut self, count: usize) -> Result<(), AllocError> {
        let cause = Cause {
            reason: Block::none(),
            place: 0,
        };
        self.causes.resize(count, cause)?;
        self.values.resize(count.saturating_mul(2), Value::Free)
    }

    /// Returns how many literals are assigned.
    pub(crate) fn len(&self) -> usize {
        self.lits.len()
    }

    /// Returns twice the number of variables.
    pub(crate) fn lit_count(&self) -> usize {
        self.values.len()
    }

    /// Returns the literals that are true, in order.
    #[inline(always)]
    pub(crate) fn lits(&self) -> &[LocalLit] {
        self.lits.as_slice()
    }

    /// Returns the literal at a position, if there is one.
    pub(crate) fn get(&self, place: usize) -> Option<LocalLit> {
        self.lits.get(place).copied()
    }

    /// Returns the value of a literal.
    #[inline(always)]
    pub(crate) fn value(&self, lit: LocalLit) -> Value {
        value_in(&self.values, lit)
    }

    /// Returns the values of the literals, by their codes.
    pub(crate) fn values(&self) -> &[Value] {
        self.values.as_slice()
    }

    /// Returns the reason of a literal's variable, `None` if it was assumed.
    pub(crate) fn reason(&self, lit: LocalLit) -> Option<Block> {
        self.causes.get(lit.variable())?.reason.known()
    }

    /// Returns the position of a literal's variable.
    ///
    /// # Errors
    ///
    /// `Internal` if it is unassigned.
    pub(crate) fn place(&self, lit: LocalLit) -> Result<usize, ElaborateFault> {
        match self.causes.get(lit.variable()) {
            Some(cause) => Ok(cause.place as usize),
            None => Err(ElaborateFault::Internal),
        }
    }

    /// Returns the parts, to assign literals while the values are read.
    #[inline(always)]
    pub(crate) fn growing(&mut self) -> Growing<'_> {
        Growing {
            values: self.values.as_mut_slice(),
            causes: self.causes.as_mut_slice(),
            lits: &mut self.lits,
        }
    }

    /// Assigns an unassigned literal, with the clause that implies it, or no block if it is
    /// assumed.
    #[inline(always)]
    pub(crate) fn assign(&mut self, lit: LocalLit, reason: Block) -> Result<(), ElaborateFault> {
        self.growing().assign(lit, reason)
    }

    /// Unassigns the literals from a position on.
    pub(crate) fn cut(&mut self, len: usize) {
        let values = self.values.as_mut_slice();
        for lit in self.lits.get(len..).unwrap_or(&[]) {
            set_free(values, *lit);
        }
        self.lits.truncate(len);
    }

    /// Returns the position of a literal's variable, or 0 if there is no such variable.
    fn place_or_0(&self, lit: LocalLit) -> u32 {
        match self.causes.get(lit.variable()) {
            Some(cause) => cause.place,
            None => 0,
        }
    }

    /// Returns how good a literal is to watch: the highest for one that has been true longest, then
    /// for an unassigned one, then for one that became false late.
    pub(crate) fn rank(&self, lit: LocalLit) -> u64 {
        match self.value(lit) {
            Value::Free => 0x100_0000_0000,
            Value::True => u64::MAX - self.place_or_0(lit) as u64,
            Value::False => self.place_or_0(lit) as u64,
        }
    }
}

/// Returns the value of a literal. One without a slot is unassigned.
#[inline(always)]
pub(crate) fn value_in(values: &[Value], lit: LocalLit) -> Value {
    values.get(lit.place()).copied().unwrap_or(Value::Free)
}

/// Sets the value of a literal.
#[inline(always)]
fn set_value(values: &mut [Value], lit: LocalLit, value: Value) {
    if let Some(found) = values.get_mut(lit.place()) {
        *found = value;
    }
}

/// Unassigns a literal and its negation.
#[inline(always)]
fn set_free(values: &mut [Value], lit: LocalLit) {
    let start = lit.variable().saturating_mul(2);
    let Some(pair) = values.get_mut(start..start.saturating_add(2)) else {
        return;
    };
    if let [positive, negative] = pair {
        *positive = Value::Free;
        *negative = Value::Free;
    }
}
