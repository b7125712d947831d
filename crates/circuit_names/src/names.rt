//! The names in the text of a circuit.
ghost use Rattle.std.specs.Prelude.{◌≡◌, ◌↔◌, ◌<◌, ◌≤◌, ℕ, [], length, IfOk, IsTrue};
ghost use Rattle.circuit_names.specs.Names.{AreNames, NamesNone, count_in, line_length, name_at, name_in, spot_in};

use crate::fault::Spot;
use crate::place::Kind;
use crate::table::Table;
use circuit_text::Circuit;
use std::alloc::{AllocError, Global};

/// One of two circuits.
#[derive(Clone, Copy, Debug, PartialEq, Eq)]
pub enum Which {
    First,
    Second,
}

/// The names of a circuit, by its text.
#[derive(Drop)]
pub(crate) struct Names<'a> {
    pub(crate) circuit: Which,
    text: &'a [u8],
    table: Table,
    inputs: usize,
    outputs: usize,
}

impl<'a> Names<'a> {
    /// Returns the names of a circuit, by its text.
    pub(crate) fn of(
        alloc: Global,
        which: Which,
        circuit: &Circuit,
        text: &'a [u8],
    ) -> Result<Names<'a>, AllocError>
        ensures { IfOk result (AreNames which circuit.now text.now) }
    {
        let table = Table::of(alloc, circuit, text)?;
        Ok(Names {
            circuit: which,
            text,
            table,
            inputs: circuit.inputs as usize,
            outputs: circuit.outputs.len(),
        })
    }

    /// Returns the name of an input or output, or an empty one if it has none.
    #[tactic(auto, using(std::proofs::lemmas::List::get_or_past))]
    pub(crate) fn name(&self, kind: Kind, position: usize) -> &'a [u8]
        ensures { result.now ≡ name_in self.now kind position }
    {
        let starts = self.table.starts(kind);
        if position < starts.len() {
            name_at(self.text, starts[position])
        } else {
            &[]
        }
    }

    /// Returns how many inputs or outputs there are.
    pub(crate) fn count(&self, kind: Kind) -> usize
        ensures { result ≡ count_in self.now kind }
    {
        match kind {
            Kind::Input => self.inputs,
            Kind::Output => self.outputs,
        }
    }

    /// Returns the input or output at a position.
    pub(crate) fn spot(&self, kind: Kind, position: usize) -> Spot
        ensures { result ≡ spot_in self.now kind position }
    {
        Spot {
            circuit: self.circuit,
            kind,
            position,
        }
    }

    /// Returns whether nothing has a name.
    pub(crate) fn is_empty(&self) -> bool
        ensures { IsTrue result ↔ NamesNone self.now }
    {
        self.is_empty_of(Kind::Input) && self.is_empty_of(Kind::Output)
    }

    /// Returns whether nothing of a kind has a name.
    fn is_empty_of(&self, kind: Kind) -> bool
        ensures { IsTrue result ↔ ((p : ℕ) → p < count_in self.now kind
            → name_in self.now kind p ≡ []) }
    {
        for position in 0..self.count(kind) {
            if !self.name(kind, position).is_empty() {
                return false;
            }
        }
        true
    }
}

/// Returns the name that begins at an index, and an empty one for 0.
#[tactic(auto, using(std::proofs::lemmas::List::drop_all))]
fn name_at(text: &[u8], start: usize) -> &[u8]
    ensures { result.now ≡ name_at text.now start }
{
    if start == 0 || start > text.len() {
        return &[];
    }
    let rest = &text[start..];
    &rest[..line_length(rest)]
}

/// Returns how many bytes come before the end of the line.
fn line_length(bytes: &[u8]) -> usize
    ensures length { result ≡ line_length bytes.now }
    ensures within { result ≤ length bytes.now }
{
    for (place, byte) in bytes.iter().enumerate() {
        if *byte == b'\n' {
            return place;
        }
    }
    bytes.len()
}
