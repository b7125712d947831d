//! The lines of a session, from its texts.
ghost use Rattle.std.specs.Prelude.{◌≡◌, ◌<◌, ◌≤◌, List, [], None, true, is_none, is_some, IfOk};
ghost use Rattle.session_text.specs.Content.{content_of};
ghost use Rattle.session_text.specs.NextLine.{content_read};
ghost use Rattle.session_text.specs.Outcomes.{Line};
ghost use Rattle.session_check.specs.Lines.{Texts, is_alike, is_heard, is_told};

use crate::fault::{LineCause, RunFault};
use session_text::{Format, LineKind, Lists, SessionReader};
use std::alloc::Global;
use std::io::Read;

/// What comes next in an interaction.
#[derive(Clone, Copy)]
pub(crate) enum Ahead {
    /// It was not read yet.
    Unread,
    /// A line of this kind.
    Next(LineKind),
    End,
}

/// The lines of a session: those of the proof. If the interaction is a text of its own, it tells
/// the clauses, queries and answers, and the proof only repeats them; what was reported to the
/// application comes behind the answer.
#[derive(Drop)]
pub(crate) struct SessionLines<P, I> {
    proof: SessionReader<P>,
    interaction: Option<SessionReader<I>>,
    ahead: Ahead,
}

impl<P: Read, I: Read> SessionLines<P, I> {
    ghost use Rattle.session_check.specs.Lines.{alone, both};
    ghost use Rattle.session_check.specs.NextLine.{Reads, ReadsAhead, ReadsLine, ReadsNext, ReadsProof, rooms_left};

    /// Returns the lines of a proof alone.
    pub(crate) fn alone(alloc: Global, proof: P) -> SessionLines<P, I>
        ensures { Reads P.remaining I.remaining (alone (P.remaining proof)) [] result }
    {
        SessionLines {
            proof: SessionReader::new(alloc, proof, Format::Lidrup),
            interaction: None,
            ahead: Ahead::Unread,
        }
    }

    /// Returns the lines of an interaction and its proof.
    pub(crate) fn new(alloc: Global, interaction: I, proof: P) -> SessionLines<P, I>
        ensures { Reads P.remaining I.remaining (both (I.remaining interaction) (P.remaining proof))
            [] result }
    {
        SessionLines {
            proof: SessionReader::new(alloc, proof, Format::Lidrup),
            interaction: Some(SessionReader::new(alloc, interaction, Format::Icnf)),
            ahead: Ahead::Unread,
        }
    }

    /// Returns the number of the proof's line that was read last.
    pub(crate) fn line(&self) -> u64 {
        self.proof.line()
    }

    /// Returns what stands in the line that was read last.
    pub(crate) fn lists(&self) -> &Lists
        ensures { content_of result.now ≡ content_read self.now.proof }
    {
        self.proof.lists()
    }

    /// Reads the next line and returns its kind, or `None` at the end. What stands in the line is
    /// in `lists`.
    ///
    /// # Errors
    ///
    /// `Proof` and `Interaction` for a text that can't be read or is malformed, `Line` for a line
    /// of the proof that does not repeat what is told next, and `Unproved` where the proof ends
    /// before the interaction. After an error this is of no use.
    pub(crate) fn next_line(&mut self) -> Result<Option<LineKind>, RunFault>
        ensures reads { (known : Texts) (lines : List Line)
            → Reads P.remaining I.remaining known lines self.old
            → ReadsNext P.remaining I.remaining known lines self.new result }
        ensures room { IfOk result (λ line. is_some line ≡ true
            → rooms_left self.new < rooms_left self.old) }
    {
        match self.look_ahead() {
            Ok(Some(kind)) => Ok(Some(kind)),
            Ok(None) => self.next_of_proof(),
            Err(fault) => Err(fault),
        }
    }

    /// Reads the next line of the interaction, unless that was read before. Returns its kind if the
    /// application was told something by it.
    fn look_ahead(&mut self) -> Result<Option<LineKind>, RunFault>
        ensures reads { (known : Texts) (lines : List Line)
            → Reads P.remaining I.remaining known lines self.old
            → ReadsAhead P.remaining I.remaining known lines self.new result }
        ensures room { IfOk result (λ line. is_some line ≡ true
            → rooms_left self.new < rooms_left self.old) }
        ensures kept { IfOk result (λ line. is_none line ≡ true
            → rooms_left self.new ≤ rooms_left self.old) }
    {
        let Ahead::Unread = self.ahead else {
            return Ok(None);
        };
        match &mut self.interaction {
            None => Ok(None),
            Some(interaction) => match interaction.next_line() {
                Ok(Some(kind)) if is_heard(kind) => {
                    self.proof.swap_lists(interaction);
                    Ok(Some(kind))
                }
                Ok(Some(kind)) => {
                    self.ahead = Ahead::Next(kind);
                    Ok(None)
                }
                Ok(None) => {
                    self.ahead = Ahead::End;
                    Ok(None)
                }
                Err(fault) => Err(RunFault::Interaction(fault)),
            },
        }
    }

    /// Reads the next line of the proof.
    fn next_of_proof(&mut self) -> Result<Option<LineKind>, RunFault>
        ensures reads { (known : Texts) (lines : List Line)
            → Reads P.remaining I.remaining known lines self.old
            → ReadsNext P.remaining I.remaining known lines self.new result }
        ensures room { IfOk result (λ line. is_some line ≡ true
            → rooms_left self.new < rooms_left self.old) }
    {
        match self.proof.next_line() {
            Ok(Some(kind)) if is_told(kind) => self.repeat(kind),
            Ok(Some(kind)) => Ok(Some(kind)),
            Ok(None) => self.end(),
            Err(fault) => Err(RunFault::Proof(fault)),
        }
    }

    /// After a line of the proof of a kind that is told.
    fn repeat(&mut self, kind: LineKind) -> Result<Option<LineKind>, RunFault>
        ensures reads { (known : Texts) (lines : List Line)
            → ReadsLine P.remaining I.remaining known lines self.old kind
            → ReadsNext P.remaining I.remaining known lines self.new result }
        ensures room { rooms_left self.new ≡ rooms_left self.old }
    {
        match &mut self.interaction {
            None => Ok(Some(kind)),
            Some(interaction) => match self.ahead {
                Ahead::Next(told) if is_alike(told, kind) => {
                    self.proof.swap_lits(interaction);
                    self.ahead = Ahead::Unread;
                    Ok(Some(told))
                }
                _ => Err(RunFault::Line {
                    line: self.proof.line(),
                    cause: LineCause::Untold,
                }),
            },
        }
    }

    /// After the end of the proof.
    fn end(&mut self) -> Result<Option<LineKind>, RunFault>
        ensures reads { (known : Texts) (lines : List Line)
            → ReadsProof P.remaining I.remaining known lines self.old
            → ReadsNext P.remaining I.remaining known lines self.new result }
        ensures ended { IfOk result (λ line. line ≡ None) }
    {
        match &self.interaction {
            None => Ok(None),
            Some(interaction) => match self.ahead {
                Ahead::End => Ok(None),
                Ahead::Unread | Ahead::Next(_) => Err(RunFault::Unproved {
                    line: interaction.line(),
                }),
            },
        }
    }
}

/// Returns whether the application tells lines of this kind.
fn is_told(kind: LineKind) -> bool
    ensures { result ≡ is_told kind }
{
    matches!(
        kind,
        LineKind::Clause
            | LineKind::Query
            | LineKind::Answer(_)
            | LineKind::Values
            | LineKind::Failed
    )
}

/// Returns whether the application was told values or a core by lines of this kind.
fn is_heard(kind: LineKind) -> bool
    ensures { result ≡ is_heard kind }
{
    matches!(kind, LineKind::Values | LineKind::Failed)
}

/// Returns whether a line of the proof may repeat one that is told.
fn is_alike(told: LineKind, kind: LineKind) -> bool
    ensures { result ≡ is_alike told kind }
{
    match told {
        LineKind::Clause => matches!(kind, LineKind::Clause),
        LineKind::Query => matches!(kind, LineKind::Query),
        LineKind::Answer(_) => matches!(kind, LineKind::Answer(_)),
        _ => false,
    }
}
