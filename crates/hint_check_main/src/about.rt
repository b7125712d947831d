//! What the program says of itself.
use command::{About, CNF, EXAMPLE, Entry, IDS, QUIET, RUST_LOG, VERBOSE};

/// What `--help` says.
pub const ABOUT: About<'static> = About {
    call: "hint_check CNF LRAT [--ids WAY] [--quiet] [--verbose]",
    does: "Check lines of hints over a formula, and print the verdict.",
    operands: &[
        CNF,
        Entry {
            name: "LRAT",
            text: "the lines, LRAT, text or binary; - is standard input",
        },
    ],
    options: &[IDS, QUIET, VERBOSE, EXAMPLE],
    verified: "s VERIFIED UNSAT: no assignment satisfies the formula",
    open: "s NOT VERIFIED: no line adds the empty clause",
    environment: &[RUST_LOG],
    examples: &[
        Entry {
            name: "hint_check formula.cnf proof.lrat",
            text: "check lines of hints",
        },
        Entry {
            name: "varisat_check formula.cnf proof.bytes proof.lrat && hint_check formula.cnf proof.lrat",
            text: "check a proof in varisat's format, and once more by its hints",
        },
    ],
};
