//! What the program says of itself.
use command::{About, CNF, EXAMPLE, Entry, IDS, JSON, QUIET, RUST_LOG, STATS, VERBOSE};
use receipt_files::RECEIPT;

const HOLDS: Entry<'static> = Entry {
    name: "--holds FILE",
    text: "check a piece of a proof: at its end the clauses of FILE must be stored; the verdict is s VERIFIED PIECE",
};

/// What `--help` says.
pub const ABOUT: About<'static> = About {
    call: "lrat_check CNF LRAT [--ids WAY] [--holds FILE] [--receipt FILE] [--stats] [--json] [--quiet] [--verbose]",
    does: "Check an LRAT proof against a formula, and print the verdict.",
    operands: &[
        CNF,
        Entry {
            name: "LRAT",
            text: "the proof, LRAT, text or binary; - is standard input",
        },
    ],
    options: &[IDS, HOLDS, RECEIPT, STATS, JSON, QUIET, VERBOSE, EXAMPLE],
    verified: "s VERIFIED UNSAT: no assignment satisfies the formula",
    open: "s NOT VERIFIED: the proof ends without the empty clause",
    environment: &[RUST_LOG],
    examples: &[
        Entry {
            name: "lrat_check formula.cnf proof.lrat",
            text: "check a proof",
        },
        Entry {
            name: "solver formula.cnf | lrat_check formula.cnf -",
            text: "check a proof while the solver writes it",
        },
    ],
};
