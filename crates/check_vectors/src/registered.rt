//! Processors and transcripts of a checker: how they are registered, and what they show.
use crate::answers::answer;
use crate::boxes::{Faulty, StepList, Tally};
use crate::listeners::{Processor, Transcript};
use crate::words::first_word;
use checker_parts::processor::{ProofProcessor, ProofTranscriptProcessor};
use checker_parts::step::ProofTranscriptStep;
use sat_hints::LratWriter;
use std::alloc::Global;
use std::test::Fail;
use varisat_checker::CheckerOf;

/// A checker whose processors and transcripts are of the kinds that scripts name.
pub type Checker = CheckerOf<Processor, Transcript>;

/// What a checker of the line `new` has: three processors and two transcripts, which get the same
/// steps.
const PROCESSORS: &str = "list|faulty never|tally";

const TRANSCRIPTS: &str = "list|tally";

/// Registers the processors and transcripts of the line `new`.
///
/// # Errors
///
/// If the checker rejects one, or there is no memory.
pub fn register(alloc: Global, checker: &mut Checker) -> Result<(), Fail> {
    let processors = add_listeners(alloc, checker, "processor", PROCESSORS)?;
    let transcripts = add_listeners(alloc, checker, "transcript", TRANSCRIPTS)?;
    if processors.as_str() == "Ok" && transcripts.as_str() == "Ok" {
        return Ok(());
    }
    Err("a processor or a transcript is refused".into())
}

/// Registers processors or transcripts of these kinds, which bars divide, up to one that is
/// rejected. Returns the result of the last one.
///
/// # Errors
///
/// If there is no such kind, or there is no memory.
pub fn add_listeners(
    alloc: Global,
    checker: &mut Checker,
    place: &str,
    kinds: &str,
) -> Result<String, Fail> {
    for kind in kinds.split('|') {
        let answer = match place {
            "processor" => add_processor(alloc, checker, kind)?,
            _ => add_transcript(alloc, checker, kind)?,
        };
        if answer.as_str() != "Ok" {
            return Ok(answer);
        }
    }
    Ok("Ok".to_string(alloc)?)
}

/// Registers a processor: `tally`, `told` (a tally that was given a step), `faulty STEPS`, `faulty
/// never`, `list`, `names` or `writer CLAUSES`. Returns the text of the result, with the output of
/// a processor that is rejected.
fn add_processor(alloc: Global, checker: &mut Checker, kind: &str) -> Result<String, Fail> {
    let processor = match first_word(kind) {
        ("tally", _) => Processor::Strokes(Tally::new(alloc)),
        ("told", _) => Processor::Strokes(told_tally(alloc)?),
        ("faulty", steps) => Processor::Failing(faulty(steps)?),
        ("list", _) => Processor::Steps(StepList::new(alloc)),
        ("names", _) => Processor::Steps(StepList::of_names(alloc)),
        ("writer", clauses) => Processor::Hints(LratWriter::new(alloc, clauses.parse::<u64>()?)),
        _ => return Err("no such processor".into()),
    };
    match checker.add_processor(processor) {
        Ok(()) => Ok("Ok".to_string(alloc)?),
        Err((back, fault)) => refused(alloc, &answer(alloc, Err(fault))?, back.output()),
    }
}

/// Registers a transcript: `tally`, `told`, `faulty STEPS`, `faulty never` or `list`. Returns the
/// text of the result, with the output of a transcript that is rejected.
fn add_transcript(alloc: Global, checker: &mut Checker, kind: &str) -> Result<String, Fail> {
    let transcript = match first_word(kind) {
        ("tally", _) => Transcript::Strokes(Tally::new(alloc)),
        ("told", _) => Transcript::Strokes(told_tally(alloc)?),
        ("faulty", steps) => Transcript::Failing(faulty(steps)?),
        ("list", _) => Transcript::Steps(StepList::new(alloc)),
        _ => return Err("no such transcript".into()),
    };
    match checker.add_transcript(transcript) {
        Ok(()) => Ok("Ok".to_string(alloc)?),
        Err((back, fault)) => refused(alloc, &answer(alloc, Err(fault))?, back.output()),
    }
}

/// Returns the text of a rejection: the result, and the output of the processor or transcript that
/// was returned.
fn refused(alloc: Global, answer: &str, output: &[u8]) -> Result<String, Fail> {
    let shown = barred(alloc, output)?;
    Ok(format!(in alloc; "{answer}, and back comes {shown}")?)
}

/// Returns a processor or transcript that fails after this many steps, or never.
fn faulty(steps: &str) -> Result<Faulty, Fail> {
    Ok(Faulty::after(match steps {
        "never" => u64::MAX,
        _ => steps.parse::<u64>()?,
    }))
}

/// Returns a tally that was given one step.
fn told_tally(alloc: Global) -> Result<Tally, Fail> {
    let mut tally = Tally::new(alloc);
    ProofTranscriptProcessor::process_step(&mut tally, &ProofTranscriptStep::Unsat)?;
    Ok(tally)
}

/// Returns the outputs of the processors, each with bars for the ends of its lines. A slash divides
/// two of them, and a dash is an empty one. Fails only if there is no memory.
pub fn processors_shown(alloc: Global, processors: &[Processor]) -> Result<String, Fail> {
    let mut shown = String::new(alloc);
    for processor in processors {
        append_output(alloc, &mut shown, processor.output())?;
    }
    Ok(shown)
}

/// Returns the outputs of the transcripts, in the same form. Fails only if there is no memory.
pub fn transcripts_shown(alloc: Global, transcripts: &[Transcript]) -> Result<String, Fail> {
    let mut shown = String::new(alloc);
    for transcript in transcripts {
        append_output(alloc, &mut shown, transcript.output())?;
    }
    Ok(shown)
}

/// Appends an output, with bars for the ends of its lines.
fn append_output(alloc: Global, outputs: &mut String, output: &[u8]) -> Result<(), Fail> {
    if !outputs.is_empty() {
        write!(outputs, " / ")?;
    }
    match barred(alloc, output)?.as_str() {
        "" => write!(outputs, "-")?,
        text => write!(outputs, "{text}")?,
    }
    Ok(())
}

/// Returns the steps that the processors of the line `new` list.
///
/// # Errors
///
/// If their outputs disagree, or there is no memory.
pub fn steps_listed(alloc: Global, processors: &[Processor]) -> Result<String, Fail> {
    match processors {
        [list, _, tally] => Ok(counted(list.output(), tally.output())?.to_string(alloc)?),
        _ => Err("not these processors".into()),
    }
}

/// Returns the steps that the transcripts of the line `new` list. Fails as `steps_listed` does.
pub fn transcript_listed(alloc: Global, transcripts: &[Transcript]) -> Result<String, Fail> {
    match transcripts {
        [list, tally] => Ok(counted(list.output(), tally.output())?.to_string(alloc)?),
        _ => Err("not these transcripts".into()),
    }
}

/// Returns the text of a list, which must have as many lines as a tally has strokes.
fn counted<'a>(list: &'a [u8], strokes: &[u8]) -> Result<&'a str, Fail> {
    let Ok(text) = str::from_utf8(list) else {
        return Err("no text".into());
    };
    if text.lines().count() != strokes.len() {
        return Err("not as many steps as the tally took".into());
    }
    Ok(text)
}

/// Returns a text with bars for the ends of its lines.
fn barred(alloc: Global, output: &[u8]) -> Result<String, Fail> {
    match str::from_utf8(output) {
        Ok(text) => Ok(text.replace(alloc, '\n', "|")?),
        Err(_) => Err("no text".into()),
    }
}
