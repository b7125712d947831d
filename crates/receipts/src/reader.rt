//! A reader of receipts.
ghost use Rattle.std.specs.Prelude.{◌≡◌, ◌<◌, ◌≤◌, length, take, IfOk, IfSome};
ghost use Rattle.receipts.specs.Lines.{receipt_line, receipts_text};

use crate::fault::ReceiptFault;
use crate::receipt::Receipt;
use hex::FromHex;
use std::alloc::{AllocError, Global};
use std::io::Read;

/// How many digits a digest has.
const DIGITS: usize = 64;

/// Returns the receipts of a text, which has their lines and nothing else.
///
/// # Errors
///
/// The first line that is no receipt, a failed read, or out of memory.
pub fn read_receipts<R: Read + Drop>(alloc: Global, from: R) -> Result<Vec<Receipt>, ReceiptFault>
    ensures { IfOk result (λ receipts. IfSome (R.remaining from)
        (λ text. text ≡ receipts_text receipts.items)) }
{
    let mut from = from;
    let mut text = Vec::new(alloc);
    match from.read_to_end(&mut text) {
        Ok(_) => {}
        Err(fault) => return Err(ReceiptFault::Read(fault)),
    }
    receipts_in(alloc, &text)
}

/// Returns the receipts of a text.
fn receipts_in(alloc: Global, text: &[u8]) -> Result<Vec<Receipt>, ReceiptFault>
    ensures { IfOk result (λ receipts. text.now ≡ receipts_text receipts.items) }
{
    let mut receipts = Vec::new(alloc);
    let mut at = 0;
    'lines: while at < text.len() {
        let rest = &text[at..];
        let Some((receipt, length)) = first_receipt(alloc, rest)? else {
            return Err(fault_of(rest, receipts.len() as u64));
        };
        receipts.push(receipt)?;
        at += length;
    }
    Ok(receipts)
}

/// Returns the receipt whose line a text begins with, and how many bytes the line has.
fn first_receipt(alloc: Global, text: &[u8]) -> Result<Option<(Receipt, usize)>, AllocError>
    ensures line { IfOk result (λ found. IfSome found (λ first.
        take first.1 text.now ≡ receipt_line first.0)) }
    ensures length { IfOk result (λ found. IfSome found (λ first.
        (0 < first.1) × (first.1 ≤ length text.now))) }
{
    let Some(receipt) = receipt_by(text) else {
        return Ok(None);
    };
    let line = receipt.line(alloc)?;
    if text.starts_with(&line) && !line.is_empty() {
        Ok(Some((receipt, line.len())))
    } else {
        Ok(None)
    }
}

/// Returns the receipt that the digits of a line say, whatever stands between and behind them. The
/// caller compares the whole line.
fn receipt_by(text: &[u8]) -> Option<Receipt> {
    if let Some(rest) = text.strip_prefix(b"refuted sha256 ") {
        return Some(Receipt::Refuted(digest_at(rest, 0)?));
    }
    if let Some(rest) = text.strip_prefix(b"satisfied sha256 ") {
        return Some(Receipt::Satisfied(digest_at(rest, 0)?));
    }
    let rest = text.strip_prefix(b"carries sha256 ")?;
    let next = DIGITS + b" sha256 ".len();
    Some(Receipt::Carries(digest_at(rest, 0)?, digest_at(rest, next)?))
}

/// Returns the digest whose digits stand at a place.
fn digest_at(text: &[u8], at: usize) -> Option<[u8; 32]> {
    let digits = text.get(at..)?.get(..DIGITS)?;
    <[u8; 32] as FromHex>::from_hex(digits).ok()
}

/// Returns why the first line of a text, which this many lines come before, is no receipt.
fn fault_of(text: &[u8], before: u64) -> ReceiptFault {
    let line = before.saturating_add(1);
    let is_known = [b"refuted ".as_slice(), b"carries ", b"satisfied "]
        .iter()
        .any(|kind| text.starts_with(kind));
    if is_known {
        ReceiptFault::Malformed { line }
    } else {
        ReceiptFault::UnknownKind { line }
    }
}
