//! Marks of literals.
ghost use Rattle.std.specs.Prelude.{◌≡◌, ℕ, OnOk, [], false};
ghost use Rattle.checker_steps.specs.Marks.{HasPlaces, is_marked};

use checker_parts::variables::Variables;
use std::alloc::{AllocError, Global};

/// Marks of literals, kept from one step to the next for their memory. None is set between steps.
#[derive(Drop)]
pub struct Marks {
    /// By the code of the literal.
    pub(crate) by_code: Vec<bool>,
    ghost unset: { (l : ℕ) → is_marked by_code.items l ≡ false },
}

impl Marks {
    /// Returns marks without slots. Allocates no memory.
    pub fn new(alloc: Global) -> Marks
        ensures { result.by_code.items ≡ [] }
    {
        Marks {
            by_code: Vec::new(alloc),
        }
    }

    /// Makes a slot for each literal of a known variable that has none.
    pub(crate) fn make_places(&mut self, variables: &Variables) -> Result<(), AllocError>
        ensures { OnOk result (HasPlaces self.new.by_code.items variables.now) }
    {
        let count = variables.len().saturating_mul(2);
        if self.by_code.len() < count {
            self.by_code.resize(count, false)?;
        }
        Ok(())
    }
}
