//! What the program says of itself.
use command::{About, CNF, Entry, QUIET, RUST_LOG, VERBOSE};

/// What `--help` says.
pub const ABOUT: About<'static> = About {
    call: "varisat_check CNF PROOF [LRAT] [--quiet] [--verbose]",
    does: "Check a proof in varisat's binary format against a formula, and print the verdict. \
        Without arguments, check a small fixed example.",
    operands: &[
        CNF,
        Entry {
            name: "PROOF",
            text: "the proof, in varisat's binary format; - is standard input",
        },
        Entry {
            name: "LRAT",
            text: "an output: the checked steps as lines of hints",
        },
    ],
    options: &[QUIET, VERBOSE],
    verified: "s UNSATISFIABLE: no assignment satisfies the formula",
    open: "s NOT SHOWN: the proof does not show that. s UNSATISFIABLE WITH n ADDED CLAUSES: \
        it shows that for the formula with n clauses that it adds",
    environment: &[RUST_LOG],
    examples: &[
        Entry {
            name: "varisat_check formula.cnf proof.bytes",
            text: "check a proof",
        },
        Entry {
            name: "varisat_check formula.cnf proof.bytes proof.lrat",
            text: "check it, and write its hints for hint_check",
        },
        Entry {
            name: "RUST_LOG=info varisat_check formula.cnf proof.bytes",
            text: "check it, and log its progress",
        },
    ],
};
