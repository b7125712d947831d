//! The variables, numbered here in the order in which they come.
use crate::clauses::narrow;
use crate::fault::ElaborateFault;
use crate::local::LocalLit;
use sat_formula::Lit;
use std::alloc::Global;
use std::collections::HashMap;

/// `near` has this many slots in addition to `PLACES_EACH` for each variable.
const SPARE_PLACES: usize = 1 << 16;

const PLACES_EACH: usize = 16;

/// The variables that came so far. Each has a number here, so that tables by variable need memory
/// for those that occur, whatever their names.
#[derive(Drop)]
pub(crate) struct Variables {
    alloc: Global,
    /// By index of the variable, its number here and 1 more; 0 if it has none, or is in `far`.
    near: Vec<u32>,
    /// The numbers of variables whose index was too large for `near`.
    far: HashMap<u32, u32>,
    /// By number here, the index of the variable.
    indexes: Vec<u32>,
}

impl Variables {
    pub(crate) fn new(alloc: Global) -> Variables {
        Variables {
            alloc,
            near: Vec::new(alloc),
            far: HashMap::new(alloc),
            indexes: Vec::new(alloc),
        }
    }

    /// Returns how many variables there are.
    pub(crate) fn len(&self) -> usize {
        self.indexes.len()
    }

    /// Returns the literal over the variable's number here. A new variable gets the next number.
    #[inline(always)]
    pub(crate) fn local(&mut self, lit: Lit) -> Result<LocalLit, ElaborateFault> {
        let number = match self.near.get(lit.index()).copied() {
            Some(number) if number > 0 => number - 1,
            _ => self.enter(lit.index() as u32)?,
        };
        Ok(LocalLit::new(number, lit.is_negative()))
    }

    /// Returns the number of a variable that has no slot in `near`.
    #[inline(never)]
    fn enter(&mut self, index: u32) -> Result<u32, ElaborateFault> {
        if let Some(number) = self.far.get(&index) {
            return Ok(*number);
        }
        let number = narrow(self.indexes.len())?;
        self.place(index, number)?;
        self.indexes.push(index)?;
        Ok(number)
    }

    /// Stores the number of a new variable.
    fn place(&mut self, index: u32, number: u32) -> Result<(), ElaborateFault> {
        let place = index as usize;
        let room = self.indexes.len().saturating_mul(PLACES_EACH);
        if place >= room.saturating_add(SPARE_PLACES) {
            self.far.insert(index, number)?;
            return Ok(());
        }
        if self.near.len() <= place {
            self.near.resize(place + 1, 0)?;
        }
        self.near[place] = number.saturating_add(1);
        Ok(())
    }

    /// Returns the literal over the variable's own name.
    ///
    /// # Errors
    ///
    /// `Internal` if there is no such variable.
    pub(crate) fn named(&self, lit: LocalLit) -> Result<Lit, ElaborateFault> {
        let index = match self.indexes.get(lit.variable()).copied() {
            Some(index) => index as usize,
            None => return Err(ElaborateFault::Internal),
        };
        Lit::from_code(index.saturating_mul(2) | lit.is_negative() as usize).ok_or(
            ElaborateFault::Internal,
        )
    }

    /// Returns the literal of the variable above the largest one, if there is such a variable.
    pub(crate) fn fresh_lit(&self) -> Option<Lit> {
        let mut end = 0;
        for index in &self.indexes {
            end = (*index as usize).saturating_add(1).max(end);
        }
        Lit::from_code(end.saturating_mul(2))
    }

    /// Frees the memory that only new variables need.
    pub(crate) fn end(&mut self) {
        self.near = Vec::new(self.alloc);
        self.far = HashMap::new(self.alloc);
    }
}
