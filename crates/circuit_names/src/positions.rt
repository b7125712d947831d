//! The positions of names.
ghost use Rattle.std.specs.Prelude.{◌≡◌, ◌<◌, ◌==◌, ℕ, List, Some, None, if◌then◌else◌, length, slice_index, IfErr, IfOk, OnOk, IsNone, IfSome};
ghost use Rattle.std.specs.Str.{bytes_eq};
ghost use Rattle.circuit_names.specs.Names.{count_in, name_in};
ghost use Rattle.circuit_names.specs.Pairs.{ArePlaces, FailsNames, IsPlace};
ghost use Rattle.circuit_names.specs.Positions.{HasNames, position_of};

use crate::fault::PairFault;
use crate::names::Names;
use crate::place::Kind;
use std::alloc::{AllocError, Global};
use std::collections::HashMap;

/// The positions of names, no two of which are the same.
#[derive(Drop)]
pub(crate) struct Positions<'a> {
    positions: HashMap<&'a [u8], usize>,
}

impl<'a> Positions<'a> {
    /// Returns the positions of all names of a kind.
    ///
    /// # Errors
    ///
    /// `Unnamed` or `Repeated` for the first one without a name, or with that of an earlier one;
    /// `OutOfMemory`.
    pub(crate) fn of(
        alloc: Global,
        names: &Names<'a>,
        kind: Kind,
    ) -> Result<Positions<'a>, PairFault>
        ensures positions { IfOk result (HasNames (count_in names.now kind)
            (name_in names.now kind)) }
        ensures fault { IfErr result (λ fault. (others : ℕ → List ℕ)
            → FailsNames names.now.circuit kind (count_in names.now kind) (name_in names.now kind)
            others fault) }
    {
        let mut positions = Positions {
            positions: HashMap::new(alloc),
        };
        for position in 0..names.count(kind) {
            let name = names.name(kind, position);
            if name.is_empty() {
                return Err(PairFault::Unnamed(names.spot(kind, position)));
            }
            if positions.get(name).is_some() {
                return Err(PairFault::Repeated(names.spot(kind, position)));
            }
            positions.put(name, position)?;
        }
        Ok(positions)
    }

    /// Returns the position of a name, if it is kept.
    fn get(&self, name: &[u8]) -> Option<usize>
        ensures { result ≡ position_of self.now name.now }
    {
        self.positions.get(name).copied()
    }

    /// Keeps the position of a name.
    fn put(&mut self, name: &'a [u8], position: usize) -> Result<(), AllocError>
        ensures { OnOk result ((other : List ℕ) → position_of self.new other
            ≡ (if bytes_eq name.now other then Some position else position_of self.old other)) }
    {
        match self.positions.insert(name, position) {
            Ok(_) => Ok(()),
            Err(_) => Err(AllocError),
        }
    }

    /// Returns the position of each name of a kind.
    ///
    /// # Errors
    ///
    /// `Unmatched` for the first name whose position is not kept; `OutOfMemory`.
    pub(crate) fn places(
        &self,
        alloc: Global,
        names: &Names<'_>,
        kind: Kind,
    ) -> Result<Vec<usize>, PairFault>
        ensures places { IfOk result (λ places. (others : ℕ → List ℕ)
            → HasNames (count_in names.now kind) others self.now
            → ArePlaces (count_in names.now kind) others (name_in names.now kind) places.items) }
        ensures fault { IfErr result (λ fault. (others : ℕ → List ℕ)
            → HasNames (count_in names.now kind) others self.now
            → FailsNames names.now.circuit kind (count_in names.now kind) (name_in names.now kind)
            others fault) }
    {
        let mut places = Vec::new(alloc);
        for position in 0..names.count(kind) {
            let Some(place) = self.get(names.name(kind, position)) else {
                return Err(PairFault::Unmatched(names.spot(kind, position)));
            };
            places.push(place)?;
        }
        Ok(places)
    }
}
