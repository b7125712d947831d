//! The solver names that wait.
ghost use Rattle.std.specs.Prelude.{◌≡◌, ◌++◌, ◌∷◌, [], OnErr, OnOk, is_some};
ghost use Rattle.std.specs.List.{list_any};

use sat_formula::lit::Var;
use std::alloc::{AllocError, Global};

/// Names, and removals (`None`), in order.
///
/// Whether a name is among them is stored too, so that a check need not scan the removals.
#[derive(Drop)]
pub struct PendingNames {
    pub entries: Vec<(Var, Option<Var>)>,
    named: bool,
    ghost noted: { named ≡ list_any (λ p. is_some p.1) entries.items },
}

impl PendingNames {
    /// Returns an empty list. Allocates no memory.
    pub fn new(alloc: Global) -> PendingNames
        ensures { result.entries.items ≡ [] }
    {
        PendingNames {
            entries: Vec::new(alloc),
            named: false,
        }
    }

    /// Returns whether one of the entries is a name.
    pub fn some_name(&self) -> bool
        ensures { result ≡ list_any (λ p. is_some p.1) self.now.entries.items }
    {
        self.named
    }

    /// Adds a name of a variable, or that it loses its name.
    ///
    /// # Errors
    ///
    /// `AllocError` if memory runs out; the entries are unchanged.
    pub fn push(&mut self, var: Var, name: Option<Var>) -> Result<(), AllocError>
        ensures ok { OnOk result (self.new.entries.items
            ≡ self.old.entries.items ++ (var, name) ∷ []) }
        ensures err { OnErr result (self.new.entries.items ≡ self.old.entries.items) }
    {
        self.entries.push((var, name))?;
        self.named |= name.is_some();
        Ok(())
    }

    /// Nothing waits any more.
    pub fn clear(&mut self)
        ensures { self.new.entries.items ≡ [] }
    {
        self.entries.clear();
        self.named = false;
    }
}
