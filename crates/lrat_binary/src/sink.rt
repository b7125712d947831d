//! What takes the lines of a proof, one after the other.
use lrat_text::{LratLine, LratTextFault};

/// Takes the lines of a proof, in their order, up to one after which no further line is needed.
pub trait LineSink {
    ghost use Rattle.std.specs.Prelude.{◌≡◌, ◌++◌, ◌∷◌, [], Bool, List, false};
    ghost use Rattle.sat_formula.specs.TakenClauses.{Takes};
    ghost use Rattle.lrat_rules.specs.Lines.{Line};
    ghost use Rattle.lrat_text.specs.NextLine.{view};

    /// Why a line is not taken.
    type Fault: Drop;

    /// Whether no further line is needed.
    ghost is_done: { Self → Bool };

    /// What holds of the sink before any line, the lines that it took from there on, and the sink
    /// after them.
    ghost has_taken: { Self → List Line → Self → Type 0 };

    /// What holds of the sink before any line, the lines that it took, the line that it did not
    /// take after them, the fault of that line, and the sink after it.
    ghost has_refused: { Self → List Line → Line → Self.Fault → Self → Type 0 };

    /// Returns whether no further line is needed.
    fn is_done(&self) -> bool
        ensures { result ≡ is_done self.now };

    /// Takes the next line. None is given once no further one is needed.
    ///
    /// # Errors
    ///
    /// Any fault of the sink. No line is given after it.
    fn take(&mut self, line: LratLine<'_>) -> Result<(), Self::Fault>
        ensures { (first : Self) → (lines : List Line)
            → has_taken first lines self.old → is_done self.old ≡ false
            → Takes result (has_taken first (lines ++ view line.entry ∷ []) self.new)
            (λ fault. has_refused first lines (view line.entry) fault self.new) };
}

/// Why not all lines of a proof were taken.
#[derive(Drop)]
pub enum UntakenLine<E> {
    /// The fault of the proof, a failed read or out of memory.
    Proof(LratTextFault),
    /// The sink's fault at the line of this number. Lines count from 1.
    Sink { line: u64, fault: E },
}
