//! What the program says of itself.
use command::{About, CNF, Entry, QUIET, RUST_LOG, VERBOSE};

/// What `--help` says.
pub const ABOUT: About<'static> = About {
    call: "drat_cut CNF PROOF PREFIX [--drat] [--lemmas N] [--live N] [--quiet] [--verbose]",
    does: "Cut a DRAT or DPR proof into pieces where few clauses live, while it is read. Nothing is checked.",
    operands: &[
        CNF,
        Entry {
            name: "PROOF",
            text: "the proof, DRAT or DPR, text or binary; - is standard input",
        },
        Entry {
            name: "PREFIX",
            text: "what the names of the files begin with: PREFIX1.cnf, PREFIX1.drat, PREFIX2.cnf and so on",
        },
    ],
    options: &[
        Entry {
            name: "--drat",
            text: "read the proof as DRAT; repeated literals are ignored (no PR witnesses)",
        },
        Entry {
            name: "--lemmas N",
            text: "lemmas of a piece, at least, except of the last one; fewer, down to half, by those that the one before has too many (default: 20000)",
        },
        Entry {
            name: "--live N",
            text: "clauses that live at the end of a piece, at most (default: twice as many as it has lemmas)",
        },
        QUIET,
        VERBOSE,
    ],
    verified: "the pieces are written, and propagation after the last one leads to a conflict",
    open: "the pieces are written, and the proof ends without a conflict",
    environment: &[RUST_LOG],
    examples: &[
        Entry {
            name: "drat_cut formula.cnf proof.drat piece.",
            text: "cut a proof",
        },
        Entry {
            name: "cadical -q formula.cnf - | drat_cut formula.cnf - piece.",
            text: "cut a proof while the solver writes it, and print a line for each piece",
        },
    ],
};
