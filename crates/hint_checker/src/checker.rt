//! A checker of lines of hints, which stores ids and clauses and nothing else.
ghost use Rattle.std.specs.Prelude.{◌≡◌, ℕ, Bool, true, List, Some, None, Err, map, IfErr, IfOk, OnOk};
ghost use Rattle.sat_rules.specs.Clauses.{all_true};
ghost use Rattle.sat_rules.specs.HintLines as rules;
ghost use Rattle.sat_rules.specs.HintLines.{Follows, Listed, listing};
ghost use Rattle.lrat_text.specs.Grammar.{hint_of};
ghost use Rattle.lrat_text.specs.NextLine.{view};
ghost use Rattle.hint_rules.specs.Accepted.{Accepts};
ghost use Rattle.hint_checker.specs.Checked.{AcceptsAfter, IsCause, IsRefusal, after_said, refusal};
ghost use Rattle.hint_checker.specs.Given.{CollectsIds, as_hints, ids_along};
ghost use Rattle.hint_checker.specs.Held.{HoldsLittle, IsSmall, held_by, holds};
ghost use Rattle.hint_checker.specs.Streams.{IsTextRefusal, ReadsAccepted};
ghost use Rattle.hint_checker.specs.declared.fault.HintFault.TheVariants.{Malformed, OutOfMemory};
ghost use Rattle.hint_checker.specs.declared.fault.HintTextFault.TheVariants.{Refused};
ghost use Rattle.hint_checker.specs.declared.fault.LineFault.TheVariants as lines;

use crate::fault::{HintFault, HintTextFault, LineFault};
use crate::listing::Listing;
use clause_table::Values;
use lrat_binary::{LratForm, LratReader, take_lines};
use lrat_text::{Hint, LratLine};
use sat_formula::CnfFormula;
use std::alloc::Global;
use std::io::Read;

/// Checks lines of hints after the clauses of a formula. Nothing of the checker of proof bytes is
/// below it, except the types of literals and formulas.
#[derive(Drop)]
pub struct HintChecker {
    alloc: Global,
    held: Listing,
    values: Values,
    /// The hints of the line that is checked.
    ids: Vec<u64>,
    faulted: bool,
}

impl HintChecker {
    /// Returns a checker that stores the clauses of a formula under 1, 2 and so on.
    ///
    /// # Errors
    ///
    /// `OutOfMemory`, and no other fault.
    pub fn new(alloc: Global, formula: &CnfFormula) -> Result<HintChecker, HintFault>
        ensures ok { IfOk result (λ checker. holds checker ≡ Some (listing formula.now)) }
        ensures err { IfErr result (λ fault. fault ≡ OutOfMemory) }
        ensures small { IfOk result (λ checker. HoldsLittle checker) }
    {
        match Listing::new(alloc, formula) {
            Ok(held) => Ok(HintChecker {
                alloc,
                held,
                values: Values::new(alloc),
                ids: Vec::new(alloc),
                faulted: false,
            }),
            Err(_) => Err(HintFault::OutOfMemory),
        }
    }

    /// Checks whole lines, the last of which may lack its LF, after those of earlier calls. Returns
    /// whether some line so far added the empty clause: then no assignment satisfies the formula.
    ///
    /// # Errors
    ///
    /// The first line that is rejected, or `OutOfMemory`. After it every later call returns
    /// `Malformed` with line 0.
    pub fn check(&mut self, text: &[u8]) -> Result<bool, HintFault>
        ensures failed { holds self.old ≡ None → (result ≡ Err (Malformed 0))
            × (holds self.new ≡ None) }
        ensures accepted { (h : Listed) → holds self.old ≡ Some h
            → IfOk result (λ yes. (k : Listed) × Accepts h text.now k × (holds self.new ≡ Some k)
            × (yes ≡ k.added_empty)) }
        ensures refused { (h : Listed) → holds self.old ≡ Some h
            → IfErr result (λ fault. IsRefusal h text.now fault × (holds self.new ≡ None)) }
        ensures refutes { (formula : List (List ℕ)) (lines : List rules.HintLine) (h : Listed)
            → holds self.old ≡ Some h → Follows (listing formula) lines h
            → IfOk result (λ yes. yes ≡ true → (a : ℕ → Bool) → all_true a formula ≡ true → ⊥) }
        ensures lines { (formula : List (List ℕ)) (lines : List rules.HintLine) (h : Listed)
            → holds self.old ≡ Some h → Follows (listing formula) lines h
            → IfOk result (λ yes. AcceptsAfter formula lines text.now (holds self.new) yes) }
        ensures small { HoldsLittle self.old → OnOk result (HoldsLittle self.new) }
    {
        match self.check_reader(text) {
            Ok(yes) => Ok(yes),
            Err(fault) => Err(fault.of_bytes()),
        }
    }

    /// Checks the text of a reader, as a stream: it keeps no more of it than what was read ahead,
    /// or its longest line. Returns as `check` does.
    ///
    /// # Errors
    ///
    /// `Refused` with the first line that is rejected or with `OutOfMemory`, or `Read` if a read
    /// failed, which is not retried. A line that was cut by a failed read is not judged. After an
    /// error every later call returns `Malformed` with line 0.
    pub fn check_reader<R: Read + Drop>(&mut self, input: R) -> Result<bool, HintTextFault>
        ensures failed { holds self.old ≡ None → (result ≡ Err (Refused (Malformed 0)))
            × (holds self.new ≡ None) }
        ensures accepted { (h : Listed) → holds self.old ≡ Some h
            → IfOk result (λ yes. ReadsAccepted (R.remaining input) h (holds self.new) yes) }
        ensures refused { (h : Listed) → holds self.old ≡ Some h
            → IfErr result (λ fault. IsTextRefusal (R.remaining input) h fault
            × (holds self.new ≡ None)) }
        ensures refutes { (formula : List (List ℕ)) (lines : List rules.HintLine) (h : Listed)
            → holds self.old ≡ Some h → Follows (listing formula) lines h
            → IfOk result (λ yes. yes ≡ true → (a : ℕ → Bool) → all_true a formula ≡ true → ⊥) }
        ensures small { HoldsLittle self.old → OnOk result (HoldsLittle self.new) }
    {
        if self.faulted {
            return Err(HintTextFault::Refused(HintFault::Malformed { line: 0 }));
        }
        let mut reader = LratReader::new(self.alloc, input, LratForm::Text);
        match take_lines(&mut reader, self) {
            Ok(()) => Ok(self.added_empty()),
            Err(untaken) => {
                self.fail();
                Err(HintTextFault::from(untaken))
            }
        }
    }

    /// Checks a line after those of earlier calls.
    ///
    /// # Errors
    ///
    /// Why the line is rejected, or `OutOfMemory`. After it every later call returns `Malformed`.
    pub fn check_line(&mut self, line: LratLine<'_>) -> Result<(), LineFault>
        ensures failed { holds self.old ≡ None → (result ≡ Err lines.Malformed)
            × (holds self.new ≡ None) }
        ensures accepted { (h : Listed) → holds self.old ≡ Some h
            → OnOk result ((refusal h (as_hints (view line.entry)) ≡ None)
            × (holds self.new ≡ Some (after_said h (as_hints (view line.entry))))) }
        ensures refused { (h : Listed) → holds self.old ≡ Some h
            → IfErr result (λ fault. IsCause fault (refusal h (as_hints (view line.entry)))
            × (holds self.new ≡ None)) }
        ensures small { HoldsLittle self.old → OnOk result (HoldsLittle self.new) }
    {
        if self.faulted {
            return Err(LineFault::Malformed);
        }
        let outcome = check_line(&mut self.held, &mut self.values, &mut self.ids, line);
        if outcome.is_err() {
            self.fail();
        }
        outcome
    }

    /// Returns whether some line so far added the empty clause: then no assignment satisfies the
    /// formula.
    pub fn added_empty(&self) -> bool
        ensures { (h : Listed) → holds self.now ≡ Some h → result ≡ h.added_empty }
    {
        self.held.added_empty()
    }

    /// No text is checked from here on.
    fn fail(&mut self)
        ensures { self.new ≡ record self.old { faulted = true } }
    {
        self.faulted = true;
    }
}

/// Checks one line.
fn check_line(
    held: &mut Listing,
    values: &mut Values,
    ids: &mut Vec<u64>,
    line: LratLine<'_>,
) -> Result<(), LineFault>
    ensures ok { OnOk result (refusal (held_by held.old) (as_hints (view line.entry)) ≡ None) }
    ensures after { OnOk result (held_by held.new
        ≡ after_said (held_by held.old) (as_hints (view line.entry))) }
    ensures err { IfErr result (λ fault. IsCause fault
        (refusal (held_by held.old) (as_hints (view line.entry)))) }
    ensures small { IsSmall held.old → OnOk result (IsSmall held.new) }
{
    match line {
        LratLine::Add { id, clause, hints } => {
            collect_ids(hints, ids)?;
            held.add(values, id, clause, ids)
        }
        LratLine::Delete { ids } => {
            held.remove(ids);
            Ok(())
        }
    }
}

/// Collects the ids of hints, in place of what `ids` held. A candidate hint makes a line malformed.
fn collect_ids(hints: &[Hint], ids: &mut Vec<u64>) -> Result<(), LineFault>
    ensures { CollectsIds ids.new.items result (ids_along (map hint_of hints.now)) }
{
    ids.clear();
    for hint in hints {
        match *hint {
            Hint::Along(id) => ids.push(id).map_err(|_| LineFault::OutOfMemory)?,
            Hint::Against(_) => return Err(LineFault::Malformed),
        }
    }
    Ok(())
}
