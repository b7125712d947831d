//! Widths of clause hashes.
ghost use Rattle.std.specs.Prelude.{◌≡◌, ◌<◌, ◌≤◌};

/// How many bits the clause hashes of a proof have: 1 to 64.
#[derive(Clone, Copy, Debug, PartialEq, Eq)]
pub struct HashWidth {
    bits: u32,
    pub ghost some_bits: { 0 < bits },
    pub ghost at_most: { bits ≤ 64 },
}

impl HashWidth {
    ghost use Rattle.std.specs.Prelude.{SomeIff};
    ghost use Rattle.std.specs.Option.{option_map};
    ghost use Rattle.lrat_to_proof.specs.Widths.{bits_of};

    /// Returns the width of a proof that sets none: 64 bits.
    pub fn full() -> HashWidth
        ensures { bits_of result ≡ 64 }
    {
        HashWidth { bits: 64 }
    }

    /// Returns a width of 1 to 64 bits.
    pub fn from_bits(bits: u32) -> Option<HashWidth>
        ensures { SomeIff (option_map bits_of result) ((0 < bits) × (bits ≤ 64)) bits }
    {
        if 0 < bits && bits <= 64 {
            Some(HashWidth { bits })
        } else {
            None
        }
    }

    /// Returns how many bits.
    pub fn bits(self) -> u32
        ensures { result ≡ bits_of self }
    {
        self.bits
    }
}
