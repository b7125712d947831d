//! Exit statuses.
ghost use Rattle.std.specs.Prelude.{◌≡◌};
ghost use Rattle.verdicts.specs.Statuses.{ended_of, refused_with, status_of};

/// The result of a run that was not rejected.
pub trait Claims: Drop {
    ghost use Rattle.std.specs.Prelude.{◌≡◌, Bool};

    /// Whether that is what the program is asked to show.
    ghost claimed: { Self → Bool };

    /// Returns whether that is what the program is asked to show.
    fn claims(&self) -> bool
        ensures { result ≡ claimed self.now };
}

/// Why a call shows no verdict.
#[derive(Clone, Copy, Debug, PartialEq, Eq)]
pub enum Refusal {
    /// It failed: an input is malformed or can't be read, a proof is rejected, or an output could
    /// not be written.
    Failed,
    /// It can't be run: its words are wrong, or a file that it names can't be opened.
    NotRun,
}

impl Refusal {
    /// Returns its exit status, 1 or 2.
    pub fn status(self) -> u8
        ensures { result ≡ refused_with self }
    {
        match self {
            Refusal::Failed => 1,
            Refusal::NotRun => 2,
        }
    }
}

/// Returns the exit status of a program that made this run: 0 if it shows what the program is to
/// show, 3 if it does not, 1 if the run was rejected.
pub fn exit_status<V: Claims, E>(outcome: &Result<V, E>) -> u8
    ensures { result ≡ status_of V.claimed outcome.now }
{
    match outcome {
        Ok(verdict) if verdict.claims() => 0,
        Ok(_) => 3,
        Err(_) => 1,
    }
}

/// Returns the exit status of a run's verdict: 0 if it shows what the program is to show, 3 if it
/// does not.
///
/// # Errors
///
/// `Failed` if the run was rejected.
pub fn ended<V: Claims, E>(outcome: &Result<V, E>) -> Result<u8, Refusal>
    ensures { result ≡ ended_of V.claimed outcome.now }
{
    match outcome {
        Ok(verdict) if verdict.claims() => Ok(0),
        Ok(_) => Ok(3),
        Err(_) => Err(Refusal::Failed),
    }
}
