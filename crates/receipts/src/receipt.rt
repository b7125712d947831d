//! Receipts and their lines.
ghost use Rattle.std.specs.Prelude.{◌≡◌, ◌++◌, IfOk, OnOk};
ghost use Rattle.receipts.specs.Honesty.{subject_of};
ghost use Rattle.receipts.specs.Lines.{digest_text, receipt_line};

use std::alloc::{AllocError, Global};

/// What a checker has shown of formulas, each named by the SHA-256 digest of its text.
#[derive(Clone, Copy, Debug, PartialEq, Eq)]
pub enum Receipt {
    /// No assignment satisfies the formula.
    Refuted([u8; 32]),
    /// If some assignment satisfies the first formula, some assignment, perhaps another one,
    /// satisfies the second.
    Carries([u8; 32], [u8; 32]),
    /// Some assignment satisfies the formula.
    Satisfied([u8; 32]),
}

impl Receipt {
    /// Returns the digest of the formula of which the receipt speaks, the first one of two.
    pub fn subject(&self) -> [u8; 32]
        ensures { result ≡ subject_of self.now }
    {
        match self {
            Receipt::Refuted(digest) => *digest,
            Receipt::Carries(digest, _) => *digest,
            Receipt::Satisfied(digest) => *digest,
        }
    }

    /// Returns the receipt's line, with its LF.
    ///
    /// # Errors
    ///
    /// `AllocError` if memory runs out.
    pub fn line(&self, alloc: Global) -> Result<Vec<u8>, AllocError>
        ensures { IfOk result (λ line. line.items ≡ receipt_line self.now) }
    {
        let mut line = Vec::new(alloc);
        match self {
            Receipt::Refuted(digest) => {
                line.extend_from_slice(b"refuted")?;
                push_digest(alloc, &mut line, digest)?;
            }
            Receipt::Carries(digest, next) => {
                line.extend_from_slice(b"carries")?;
                push_digest(alloc, &mut line, digest)?;
                push_digest(alloc, &mut line, next)?;
            }
            Receipt::Satisfied(digest) => {
                line.extend_from_slice(b"satisfied")?;
                push_digest(alloc, &mut line, digest)?;
            }
        }
        line.push(b'\n')?;
        Ok(line)
    }
}

/// Appends the name of the hash function and a digest.
fn push_digest(alloc: Global, line: &mut Vec<u8>, digest: &[u8; 32]) -> Result<(), AllocError>
    ensures { OnOk result (line.new.items ≡ line.old.items ++ digest_text digest.now) }
{
    line.extend_from_slice(b" sha256 ")?;
    let text = hex::encode(alloc, digest.as_slice())?;
    line.extend_from_slice(text.as_bytes())?;
    Ok(())
}
