//! Receipts by the digests that were taken.
ghost use Rattle.std.specs.Prelude.{◌≡◌, ℕ, List, IfSome, Ok};
ghost use Rattle.receipt_files.specs.Named.{IsDigestOf, carries_of, refuted_of, satisfied_of};
ghost use Rattle.verdicts.specs.declared.piece.PieceVerdict.TheVariants.{Carried, Refuted};

use receipts::Receipt;
use verdicts::PieceVerdict;

/// Returns the receipt that the formula of a digest is refuted.
pub fn refuted_by(digest: Option<[u8; 32]>) -> Option<Receipt>
    ensures { (text : List ℕ) → IsDigestOf digest text
        → IfSome result (λ receipt. receipt ≡ refuted_of text) }
{
    Some(Receipt::Refuted(digest?))
}

/// Returns the receipt that the formula of a digest is satisfied.
pub fn satisfied_by(digest: Option<[u8; 32]>) -> Option<Receipt>
    ensures { (text : List ℕ) → IsDigestOf digest text
        → IfSome result (λ receipt. receipt ≡ satisfied_of text) }
{
    Some(Receipt::Satisfied(digest?))
}

/// Returns the receipt of what was shown of the formulas of these digests, before a piece and
/// behind it, or `None` if nothing was.
pub fn piece_receipt<E>(
    digests: (Option<[u8; 32]>, Option<[u8; 32]>),
    checked: &Result<PieceVerdict, E>,
) -> Option<Receipt>
    ensures carried { (text next : List ℕ) → IsDigestOf digests.0 text → IsDigestOf digests.1 next
        → checked.now ≡ Ok Carried → IfSome result (λ receipt. receipt ≡ carries_of text next) }
    ensures refuted { (text : List ℕ) → IsDigestOf digests.0 text
        → checked.now ≡ Ok Refuted → IfSome result (λ receipt. receipt ≡ refuted_of text) }
{
    match checked {
        Ok(PieceVerdict::Refuted) => refuted_by(digests.0),
        Ok(PieceVerdict::Carried) => carries_by(digests),
        Ok(PieceVerdict::NotCarried) | Err(_) => None,
    }
}

/// Returns the receipt that the formula of the first digest carries to that of the second.
fn carries_by(digests: (Option<[u8; 32]>, Option<[u8; 32]>)) -> Option<Receipt>
    ensures { (text next : List ℕ) → IsDigestOf digests.0 text → IsDigestOf digests.1 next
        → IfSome result (λ receipt. receipt ≡ carries_of text next) }
{
    let (digest, next) = digests;
    Some(Receipt::Carries(digest?, next?))
}
