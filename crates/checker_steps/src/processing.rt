//! The processors and transcripts that receive checked steps.
ghost use Rattle.std.specs.Prelude.{◌≡◌, ◌≢◌, [], Err, IfErr, Ok, OnOk, false};
ghost use Rattle.checker_rules.specs.Ran.{AllTook, OneFaulted};
ghost use Rattle.checker_parts.specs.CheckedSteps.{step_of, told, transcript_of};
ghost use Rattle.checker_parts.specs.Faults.{IsAnswerOf, IsErrorOf, IsFaultOrMemory};
ghost use Rattle.checker_parts.specs.Memory.{lists_literals};
ghost use Rattle.checker_parts.specs.declared.error.StepFault.TheVariants.{OutOfMemory};
ghost use Rattle.checker_steps.specs.Delivered.{DeliveredStep, listeners_of};

use checker_parts::error::{CheckerError, StepFault};
use checker_parts::processor::{CheckerData, ProofProcessor, ProofTranscriptProcessor};
use checker_parts::step::{CheckedProofStep, ProofTranscriptStep};
use checker_parts::transcript::Transcript;
use checker_parts::variables::Variables;
use std::alloc::Global;
use std::mem::replace;

/// The registered processors and transcripts, each in order of registration.
#[derive(Drop)]
pub struct ProcessingOf<P, T> {
    pub processors: Vec<P>,
    pub transcript_processors: Vec<T>,
    transcript: Transcript,
    /// The last error of a processor or a transcript.
    fault: anyhow::Error,
}

/// The registered boxes.
pub type Processing = ProcessingOf<Box<dyn ProofProcessor>, Box<dyn ProofTranscriptProcessor>>;

impl<P: ProofProcessor, T: ProofTranscriptProcessor> ProcessingOf<P, T> {
    /// Returns a list without processors and transcripts. Allocates no memory.
    pub fn new(alloc: Global) -> ProcessingOf<P, T>
        ensures processors { result.processors.items ≡ [] }
        ensures transcripts { result.transcript_processors.items ≡ [] }
    {
        ProcessingOf {
            processors: Vec::new(alloc),
            transcript_processors: Vec::new(alloc),
            transcript: Transcript::new(alloc),
            fault: no_fault(),
        }
    }

    /// Delivers a step to the processors, and then its image to the transcripts, each in order of
    /// registration, up to the first fault.
    ///
    /// # Errors
    ///
    /// `Processor` if a listener failed, whose error is kept until `error` takes it; `OutOfMemory`
    /// if there is no memory for the image. What the listeners took is unspecified then.
    #[inline(always)]
    pub fn step(&mut self, step: &CheckedProofStep, names: CheckerData) -> Result<(), StepFault>
        ensures delivers { DeliveredStep result (told step.now names.entry.0.now)
            P.ProofProcessor T.ProofTranscriptProcessor
            (listeners_of self.old) (listeners_of self.new) }
        ensures memory { lists_literals (step_of step.now) ≡ false → result ≢ Err OutOfMemory }
    {
        // Most runs register nothing, and then the step need not even be made.
        if self.processors.is_empty() && self.transcript_processors.is_empty() {
            Ok(())
        } else {
            self.deliver(step, names)
        }
    }

    /// Delivers the step to all listeners.
    #[inline(never)]
    fn deliver(&mut self, step: &CheckedProofStep, names: CheckerData) -> Result<(), StepFault>
        ensures delivers { DeliveredStep result (told step.now names.entry.0.now)
            P.ProofProcessor T.ProofTranscriptProcessor
            (listeners_of self.old) (listeners_of self.new) }
        ensures memory { lists_literals (step_of step.now) ≡ false → result ≢ Err OutOfMemory }
    {
        tell(&mut self.processors, step, names, &mut self.fault)?;
        if self.transcript_processors.is_empty() {
            return Ok(());
        }
        let Ok(image) = self.transcript.transcript_step(step, names) else {
            return Err(StepFault::OutOfMemory);
        };
        match image {
            None => Ok(()),
            Some(image) => tell_image(&mut self.transcript_processors, &image, &mut self.fault),
        }
    }

    /// Returns the result of a call from that of its step at this number, without the text of a
    /// step.
    pub(crate) fn answer(
        &mut self,
        alloc: Global,
        number: u64,
        taken: Result<(), StepFault>,
    ) -> Result<(), CheckerError>
        ensures answer { IsAnswerOf number taken result }
        ensures listeners { listeners_of self.new ≡ listeners_of self.old }
        ensures same { taken ≡ Ok tt → self.new ≡ self.old }
    {
        match taken {
            Ok(()) => Ok(()),
            Err(fault) => Err(self.error(number, fault, String::new(alloc))),
        }
    }

    /// Returns the error of a fault at this step number, with the text of the step that is
    /// rejected.
    pub fn error(&mut self, number: u64, fault: StepFault, debug_step: String) -> CheckerError
        ensures error { IsErrorOf number fault result }
        ensures listeners { listeners_of self.new ≡ listeners_of self.old }
    {
        match fault {
            StepFault::Refused(msg) => CheckerError::CheckFailed {
                step: number,
                msg,
                debug_step,
            },
            StepFault::Processor => CheckerError::ProofProcessorError {
                cause: replace(&mut self.fault, no_fault()),
            },
            StepFault::OutOfMemory => CheckerError::OutOfMemory,
        }
    }
}

/// Delivers a step with the names of the variables.
///
/// # Errors
///
/// As for `ProcessingOf::step`.
#[inline(always)]
pub fn process_step<P: ProofProcessor, T: ProofTranscriptProcessor>(
    processing: &mut ProcessingOf<P, T>,
    variables: &Variables,
    step: &CheckedProofStep,
) -> Result<(), StepFault>
    ensures delivers { DeliveredStep result (told step.now variables.now)
        P.ProofProcessor T.ProofTranscriptProcessor (listeners_of processing.old)
        (listeners_of processing.new) }
    ensures memory { lists_literals (step_of step.now) ≡ false → result ≢ Err OutOfMemory }
{
    processing.step(step, CheckerData(variables))
}

/// Returns the value that means that no listener failed.
fn no_fault() -> anyhow::Error {
    anyhow::Error::msg("no fault")
}

/// Delivers a step to each processor, up to the first fault.
fn tell<P: ProofProcessor>(
    processors: &mut [P],
    step: &CheckedProofStep,
    names: CheckerData,
    fault: &mut anyhow::Error,
) -> Result<(), StepFault>
    ensures ok { OnOk result (AllTook P.took processors.old (told step.now names.entry.0.now)
        processors.new) }
    ensures fault { IfErr result (λ e. IsFaultOrMemory e
        (OneFaulted P.took P.faulted processors.old (told step.now names.entry.0.now)
        processors.new) ⊥) }
{
    for processor in processors.iter_mut() {
        if let Err(cause) = processor.process_step(step, names) {
            *fault = cause;
            return Err(StepFault::Processor);
        }
    }
    Ok(())
}

/// Delivers the image of a step to each transcript, up to the first fault.
fn tell_image<T: ProofTranscriptProcessor>(
    transcripts: &mut [T],
    image: &ProofTranscriptStep,
    fault: &mut anyhow::Error,
) -> Result<(), StepFault>
    ensures ok { OnOk result (AllTook T.took transcripts.old (transcript_of image.now)
        transcripts.new) }
    ensures fault { IfErr result (λ e. IsFaultOrMemory e
        (OneFaulted T.took T.faulted transcripts.old (transcript_of image.now) transcripts.new) ⊥) }
{
    for transcript in transcripts.iter_mut() {
        if let Err(cause) = transcript.process_step(image) {
            *fault = cause;
            return Err(StepFault::Processor);
        }
    }
    Ok(())
}
