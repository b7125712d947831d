//! What the program says of itself.
use command::{About, CNF, Entry, IDS};

/// What `--help` says.
pub const ABOUT: About<'static> = About {
    call: "lrat_to_proof CNF LRAT PROOF [--ids WAY] [--width N]",
    does: "Write an LRAT proof of a formula in varisat's binary format, for varisat_check. Nothing is checked.",
    operands: &[
        CNF,
        Entry {
            name: "LRAT",
            text: "the proof, LRAT, text or binary, without RAT steps; - is standard input",
        },
        Entry {
            name: "PROOF",
            text: "the output",
        },
    ],
    options: &[
        IDS,
        Entry {
            name: "--width N",
            text: "bits of each hash, from 1 to 64 (default: 64)",
        },
    ],
    verified: "the proof is written, and derives the empty clause or two opposite units",
    open: "the proof is written, and does not",
    environment: &[],
    examples: &[
        Entry {
            name: "lrat_to_proof formula.cnf proof.lrat proof.bytes",
            text: "convert a proof",
        },
        Entry {
            name: "lrat_to_proof formula.cnf proof.lrat /dev/stdout | varisat_check formula.cnf -",
            text: "check an LRAT proof by varisat_check",
        },
    ],
};
