//! The digests of the formulas that receipts show to be unsatisfiable.
ghost use Rattle.std.specs.Prelude.{◌≡◌, ◌++◌, ◌||◌, [], ℕ, List, IfOk, OnOk, if◌then◌else◌};
ghost use Rattle.std.specs.Str.{bytes_eq};

use crate::carriers::{Carriers, refuted_subjects};
use receipts::Receipt;
use std::alloc::{AllocError, Global};
use std::collections::HashSet;

/// Digests of formulas that receipts show to be unsatisfiable.
#[derive(Drop)]
pub(crate) struct ShownDigests {
    digests: HashSet<[u8; 32]>,
}

impl ShownDigests {
    ghost use Rattle.join_check.specs.Carriers.{subjects_to};
    ghost use Rattle.join_check.specs.Digests.{HasShown, is_shown};

    /// Returns the digests from which receipts lead to a formula that is refuted.
    pub(crate) fn of(alloc: Global, receipts: &[Receipt]) -> Result<ShownDigests, AllocError>
        ensures { IfOk result (HasShown receipts.now) }
    {
        let carriers = Carriers::of(alloc, receipts)?;
        let mut left = refuted_subjects(alloc, receipts)?;
        let mut shown = ShownDigests {
            digests: HashSet::new(alloc),
        };
        'digests: while let Some(digest) = left.pop() {
            shown.add(digest, &carriers, &mut left)?;
        }
        Ok(shown)
    }

    /// Returns whether the digest is among them.
    pub(crate) fn has(&self, digest: &[u8; 32]) -> bool
        ensures { result ≡ is_shown self.now digest.now }
    {
        self.digests.contains(digest)
    }

    /// Adds a digest. If it is new, the subjects of the receipts that carry to it are left to add.
    fn add(
        &mut self,
        digest: [u8; 32],
        carriers: &Carriers,
        left: &mut Vec<[u8; 32]>,
    ) -> Result<(), AllocError>
        ensures digests { OnOk result ((other : List ℕ) → is_shown self.new other
            ≡ (is_shown self.old other || bytes_eq digest other)) }
        ensures left { OnOk result (left.new.items ≡ left.old.items
            ++ (if is_shown self.old digest then [] else subjects_to carriers.now digest)) }
    {
        match self.digests.insert(digest) {
            Ok(true) => carriers.push_to(&digest, left),
            Ok(false) => Ok(()),
            Err(_) => Err(AllocError),
        }
    }
}
