//! The texts of two circuits.
use circuit_names::Pairing;

/// The texts of two circuits, and how their inputs and outputs are paired.
#[derive(Clone, Copy)]
pub struct PairTexts<'a> {
    pub text: &'a [u8],
    pub other: &'a [u8],
    pub pairing: Pairing,
}
