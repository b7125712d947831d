//! The files that a run writes.
ghost use Rattle.std.specs.Prelude.{◌≡◌, [], IfOk, None, OnErr, OnOk, Some, is_some};
ghost use Rattle.command.specs.Calls.{choices_of};
ghost use Rattle.drat_check_main.specs.Named.{GivesAll, GivesFirst, bytes_of, core_name, empty_outputs, form_asked};

use command::{Call, OutputSystem, ReadFile, Refusal, WrittenFiles};
use drat_check::{LineForm, MissingClause, Outputs, PieceOutputs};
use sat_formula::LyingHeader;
use std::cell::Cell;
use std::io;
use std::io::BufWriter;

/// The outputs of a run on a system, each with a buffer.
pub(crate) type FileOutputs<S> = Outputs<
    BufWriter<<S as OutputSystem>::Output>,
    BufWriter<<S as OutputSystem>::Output>,
>;

/// Makes the optional outputs. None of them is one of the inputs, nor is one file made twice.
#[tactic(auto, using(crate::proofs::Naming::all_empty))]
pub(crate) fn create_outputs<'a, S: OutputSystem>(
    files: &mut WrittenFiles<'a, S>,
    call: &'a Call<'_>,
    inputs: &[ReadFile<'_>],
) -> Result<FileOutputs<S>, Refusal>
    ensures form { IfOk result (λ outputs. outputs.form ≡ form_asked (choices_of call.now)) }
    ensures empty { S.unwritten files.old.system.now ≡ Some [] → IfOk result (λ outputs.
        bytes_of S.Output.contents outputs ≡ empty_outputs (choices_of call.now)) }
    ensures wanted { IfOk result (λ outputs.
        is_some outputs.core ≡ is_some (core_name (choices_of call.now))) }
    ensures system { files.new.system.now ≡ files.old.system.now }
{
    Ok(Outputs {
        lrat: files.create_wanted(call.value("--lrat"), inputs)?,
        form: form_of(call),
        trim: files.create_wanted(call.value("--trim"), inputs)?,
        core: files.create_wanted(call.value("--core"), inputs)?,
        counts: Cell::default(),
    })
}

/// Returns how the lines of `--lrat` are written.
fn form_of(call: &Call<'_>) -> LineForm
    ensures { result ≡ form_asked (choices_of call.now) }
{
    if call.has("--binary") {
        LineForm::Binary
    } else {
        LineForm::Text
    }
}

/// What a run over a piece has to say in addition to its verdict.
#[derive(Drop)]
pub(crate) struct PieceTold {
    pub(crate) missing: Option<MissingClause>,
    pub(crate) lie: Option<LyingHeader>,
    pub(crate) wanted_lie: Option<LyingHeader>,
}

/// Returns the outputs that were made as those of a run over a piece, which trims no steps.
pub(crate) fn of_piece<L: Drop>(made: Outputs<L, L>) -> PieceOutputs<L, L>
    ensures lrat { result.lrat ≡ made.lrat }
    ensures form { result.form ≡ made.form }
    ensures core { result.core ≡ made.core }
{
    PieceOutputs {
        lrat: made.lrat,
        form: made.form,
        core: made.core,
        counts: made.counts,
        missing: None,
        lie: None,
        wanted_lie: None,
    }
}

/// Returns the outputs of a run over a piece as those that get names, and what it has to say.
pub(crate) fn of_whole<L>(outputs: PieceOutputs<L, L>) -> (Outputs<L, L>, PieceTold)
    ensures lrat { result.0.lrat ≡ outputs.lrat }
    ensures trim { result.0.trim ≡ None }
    ensures core { result.0.core ≡ outputs.core }
{
    let told = PieceTold {
        missing: outputs.missing,
        lie: outputs.lie,
        wanted_lie: outputs.wanted_lie,
    };
    let outputs = Outputs {
        lrat: outputs.lrat,
        form: outputs.form,
        trim: None,
        core: outputs.core,
        counts: outputs.counts,
    };
    (outputs, told)
}

/// Gives the outputs of a run their names.
///
/// # Errors
///
/// That of the first write or rename that fails. The outputs before it have their names then, and
/// no other one.
#[tactic(auto, using(crate::proofs::Naming::same_bytes, crate::proofs::Naming::two_given))]
pub(crate) fn name_outputs<S: OutputSystem>(
    files: &WrittenFiles<'_, S>,
    call: &Call<'_>,
    outputs: FileOutputs<S>,
    given: &mut S::Names,
) -> io::Result<()>
    ensures named { OnOk result (GivesAll (S.place files.now.system.now) (choices_of call.now)
        (bytes_of S.Output.contents outputs) (S.renamed given.old) (S.renamed given.new)) }
    ensures first { OnErr result (GivesFirst (S.place files.now.system.now) (choices_of call.now)
        (bytes_of S.Output.contents outputs) (S.renamed given.old) (S.renamed given.new)) }
{
    files.name_wanted(given, call.value("--lrat"), outputs.lrat)?;
    files.name_wanted(given, call.value("--trim"), outputs.trim)?;
    files.name_wanted(given, call.value("--core"), outputs.core)
}
