//! A hasher of the lines of clauses.
ghost use Rattle.std.specs.Prelude.{◌≡◌, [], ℕ, List, OnOk};
ghost use Rattle.sha2.specs.Hashers.{Holds256};
ghost use Rattle.sha2.specs.Sha256.{sha256};
ghost use Rattle.sat_output.specs.DratTexts.{addition_text};
ghost use Rattle.sat_output.specs.FormulaTexts.{clauses_text};

use sat_formula::{CnfFormula, Lit};
use sat_output::push_addition;
use sha2::{Digest, Sha256};
use std::alloc::{AllocError, Global};

/// How many bytes are hashed together at least, so that they are still in the processor's cache.
const CHUNK: usize = 0x4000;

/// A hasher of the lines of clauses, which takes many lines at a time. Its room for them is used
/// again for the next text.
#[derive(Drop)]
pub(crate) struct LineHasher {
    hasher: Sha256,
    /// The last lines, which the hasher has not taken yet.
    lines: Vec<u8>,
}

impl LineHasher {
    ghost use Rattle.join_check.specs.Hashed.{HasTaken, Takes};

    /// Returns a hasher of the empty text. Allocates no memory.
    pub(crate) fn new(alloc: Global) -> LineHasher
        ensures { HasTaken result [] }
    {
        LineHasher {
            hasher: Sha256::new(),
            lines: Vec::new(alloc),
        }
    }

    /// Begins a text anew, with what a hasher has taken.
    pub(crate) fn begin(&mut self, hasher: Sha256)
        ensures { (text : List ℕ) → Holds256 hasher text → HasTaken self.new text }
    {
        self.hasher = hasher;
        self.lines.clear();
    }

    /// Takes the line of a clause.
    pub(crate) fn push(&mut self, clause: &[Lit]) -> Result<(), AllocError>
        ensures { OnOk result (Takes self.old self.new (addition_text clause.now)) }
    {
        push_addition(&mut self.lines, clause)?;
        if self.lines.len() >= CHUNK {
            self.hash_lines();
        }
        Ok(())
    }

    /// Takes the lines of clauses.
    pub(crate) fn push_clauses(&mut self, clauses: &CnfFormula) -> Result<(), AllocError>
        ensures { OnOk result (Takes self.old self.new (clauses_text clauses.now)) }
    {
        for clause in clauses {
            self.push(clause)?;
        }
        Ok(())
    }

    /// Returns the digest of the text. What the hasher has taken after it is open.
    pub(crate) fn digest(&mut self) -> [u8; 32]
        ensures { (text : List ℕ) → HasTaken self.old text → result ≡ sha256 text }
    {
        self.hash_lines();
        self.hasher.finalize_reset()
    }

    /// Returns a hasher that has taken the text.
    pub(crate) fn finish(self) -> Sha256
        ensures { (text : List ℕ) → HasTaken self text → Holds256 result text }
    {
        let mut whole = self;
        whole.hash_lines();
        whole.hasher
    }

    /// Gives the last lines to the hasher.
    fn hash_lines(&mut self)
        ensures hashed { (text : List ℕ) → HasTaken self.old text
            → Holds256 self.new.hasher text }
        ensures lines { self.new.lines.items ≡ [] }
    {
        self.hasher.update(self.lines.as_slice());
        self.lines.clear();
    }
}
