//! Where the names of inputs and outputs begin in a text.
ghost use Rattle.std.specs.Prelude.{◌≡◌, ◌+◌, ◌*◌, length, replicate, slice_set, IfOk};
ghost use Rattle.circuit_names.specs.Starts.{after, capped, first_place, is_text_form, lines_before, starts_for, starts_in, starts_of, with_start};
ghost use Rattle.circuit_text.specs.Circuits.{circuit_of};

use crate::place::{Kind, Place};
use circuit_text::Circuit;
use std::alloc::{AllocError, Global};

/// Where names begin, up to a place in the text.
#[derive(Drop)]
pub(crate) struct Table {
    place: Place,
    /// For each input the index of the first byte of its name, or 0 if it has none.
    inputs: Vec<usize>,
    outputs: Vec<usize>,
}

impl Table {
    /// Returns where names begin in the text of a circuit. Of several symbols for one position the
    /// last one counts.
    pub(crate) fn of(alloc: Global, circuit: &Circuit, text: &[u8]) -> Result<Table, AllocError>
        ensures { IfOk result (λ table. starts_in table
            ≡ starts_of (circuit_of circuit.now) text.now) }
    {
        let mut table = Table {
            place: first_place(circuit, is_text_form(text)),
            inputs: zeros(alloc, circuit.inputs as usize)?,
            outputs: zeros(alloc, circuit.outputs.len())?,
        };
        for (at, byte) in text.iter().enumerate() {
            table.take(*byte, at + 1);
        }
        Ok(table)
    }

    /// Returns where names of a kind begin.
    pub(crate) fn starts(&self, kind: Kind) -> &[usize]
        ensures { result.now ≡ starts_for (starts_in self.now) kind }
    {
        match kind {
            Kind::Input => &self.inputs,
            Kind::Output => &self.outputs,
        }
    }

    /// Takes a byte; `next` is the index of the one after it.
    fn take(&mut self, byte: u8, next: usize)
        ensures { starts_in self.new ≡ after (starts_in self.old) byte next }
    {
        if let Some((kind, position)) = self.place.named(byte) {
            self.put(kind, position, next);
        }
        self.place = self.place.after(byte);
    }

    /// Notes where a name begins, if the circuit has such an input or output.
    fn put(&mut self, kind: Kind, position: u64, start: usize)
        ensures { starts_in self.new ≡ with_start (starts_in self.old) kind position start }
    {
        match kind {
            Kind::Input => set_start(&mut self.inputs, position, start),
            Kind::Output => set_start(&mut self.outputs, position, start),
        }
    }
}

/// Sets an element, if there is one at this position.
#[tactic(auto, using(std::proofs::lemmas::List::set_past))]
fn set_start(starts: &mut Vec<usize>, position: u64, start: usize)
    ensures { starts.new.items ≡ slice_set starts.old.items position start }
{
    if position < starts.len() as u64 {
        starts[position as usize] = start;
    }
}

/// Returns this many zeros.
fn zeros(alloc: Global, count: usize) -> Result<Vec<usize>, AllocError>
    ensures { IfOk result (λ zeros. zeros.items ≡ replicate count 0) }
{
    let mut zeros = Vec::new(alloc);
    zeros.resize(count, 0)?;
    Ok(zeros)
}

/// Returns the place before the first byte of the text of a circuit, in the text form or the binary
/// one.
#[tactic(auto, using(crate::proofs::Counts::two_more))]
fn first_place(circuit: &Circuit, is_text: bool) -> Place
    ensures { result ≡ first_place (circuit_of circuit.now) is_text }
{
    let lines = lines_before(circuit);
    let (inputs, gates) = (circuit.inputs as u64, circuit.gates.len() as u64);
    if is_text {
        Place::before(lines.saturating_add(inputs).saturating_add(gates), 0)
    } else {
        Place::before(lines, gates.saturating_mul(2))
    }
}

/// Returns the number of lines up to the gates; it stays at `u64::MAX`.
#[tactic(auto, using(crate::proofs::Counts::four_more))]
fn lines_before(circuit: &Circuit) -> u64
    ensures { result ≡ capped (lines_before (circuit_of circuit.now)) }
{
    let (latches, outputs) = (circuit.latches.len() as u64, circuit.outputs.len() as u64);
    let (bad, constraints) = (circuit.bad.len() as u64, circuit.constraints.len() as u64);
    1u64.saturating_add(latches)
        .saturating_add(outputs)
        .saturating_add(bad)
        .saturating_add(constraints)
}

/// Returns whether a text is in the text form of AIGER, by the second byte of the first word.
fn is_text_form(text: &[u8]) -> bool
    ensures { result ≡ is_text_form text.now }
{
    match text {
        [_, second, ..] => *second == b'a',
        _ => false,
    }
}
