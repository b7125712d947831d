//! Numbers in groups of seven bits, a byte each, at the end of others.
ghost use Rattle.std.specs.Prelude.{◌≡◌, ◌++◌, OnOk};
ghost use Rattle.written_numbers.specs.GroupedBytes.{number_bytes};
ghost use Rattle.written_numbers.specs.Growing.{Grows};

use std::alloc::AllocError;

/// Appends a number: seven bits a byte, the low ones first, and 128 added to each but the last.
///
/// # Errors
///
/// `AllocError` if memory runs out. What was there before stays in front.
pub fn push_number(bytes: &mut Vec<u8>, number: u64) -> Result<(), AllocError>
    ensures ok { OnOk result (bytes.new.items ≡ bytes.old.items ++ number_bytes number) }
    ensures grows { Grows bytes.old.items bytes.new.items }
{
    let mut rest = number;
    'groups: for _ in 0..9u8 {
        if rest < 128 {
            bytes.push(rest as u8)?;
            return Ok(());
        }
        bytes.push(128 + (rest % 128) as u8)?;
        rest /= 128;
    }
    bytes.push(rest as u8)?;
    Ok(())
}
