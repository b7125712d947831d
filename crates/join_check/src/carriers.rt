//! The receipts that carry, by the digests that they carry to.
ghost use Rattle.std.specs.Prelude.{◌≡◌, ◌++◌, ℕ, List, IfOk, OnOk};
ghost use Rattle.std.specs.List.{filter_map};
ghost use Rattle.std.specs.Option.{option_to_list};
ghost use Rattle.join_check.specs.Carriers.{refuted_by};

use receipts::Receipt;
use std::alloc::{AllocError, Global};
use std::collections::HashMap;

/// For each digest the subjects of the receipts that carry to it.
#[derive(Drop)]
pub(crate) struct Carriers {
    subjects: HashMap<[u8; 32], Vec<[u8; 32]>>,
}

impl Carriers {
    ghost use Rattle.join_check.specs.Carriers.{carried_to, subjects_to};

    /// Returns those of receipts.
    pub(crate) fn of(alloc: Global, receipts: &[Receipt]) -> Result<Carriers, AllocError>
        ensures { IfOk result (λ carriers. (next : List ℕ)
            → subjects_to carriers next ≡ filter_map (carried_to next) receipts.now) }
    {
        let mut carriers = Carriers {
            subjects: HashMap::new(alloc),
        };
        'receipts: for receipt in receipts {
            carriers.add(alloc, *receipt)?;
        }
        Ok(carriers)
    }

    /// Appends the subjects of the receipts that carry to a digest.
    pub(crate) fn push_to(
        &self,
        next: &[u8; 32],
        list: &mut Vec<[u8; 32]>,
    ) -> Result<(), AllocError>
        ensures { OnOk result (list.new.items ≡ list.old.items ++ subjects_to self.now next.now) }
    {
        match self.subjects.get(next) {
            Some(subjects) => list.extend_from_slice(subjects),
            None => Ok(()),
        }
    }

    /// Adds a receipt, if it carries.
    fn add(&mut self, alloc: Global, receipt: Receipt) -> Result<(), AllocError>
        ensures { OnOk result ((next : List ℕ) → subjects_to self.new next
            ≡ subjects_to self.old next ++ option_to_list (carried_to next receipt)) }
    {
        let Receipt::Carries(subject, next) = receipt else {
            return Ok(());
        };
        let mut subjects = match self.subjects.remove(&next) {
            Some(subjects) => subjects,
            None => Vec::new(alloc),
        };
        subjects.push(subject)?;
        match self.subjects.insert(next, subjects) {
            Ok(_) => Ok(()),
            Err(_) => Err(AllocError),
        }
    }
}

/// Returns the subjects of the receipts that say that they are refuted.
pub(crate) fn refuted_subjects(
    alloc: Global,
    receipts: &[Receipt],
) -> Result<Vec<[u8; 32]>, AllocError>
    ensures { IfOk result (λ subjects. subjects.items ≡ filter_map refuted_by receipts.now) }
{
    let mut subjects = Vec::new(alloc);
    'receipts: for receipt in receipts {
        push_refuted(&mut subjects, *receipt)?;
    }
    Ok(subjects)
}

/// Appends the subject of a receipt, if the receipt says that it is refuted.
fn push_refuted(subjects: &mut Vec<[u8; 32]>, receipt: Receipt) -> Result<(), AllocError>
    ensures { OnOk result (subjects.new.items
        ≡ subjects.old.items ++ option_to_list (refuted_by receipt)) }
{
    if let Receipt::Refuted(subject) = receipt {
        subjects.push(subject)?;
    }
    Ok(())
}
