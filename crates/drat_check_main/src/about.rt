//! What the program says of itself.
use command::{About, CNF, EXAMPLE, Entry, JSON, QUIET, RUST_LOG, STATS, VERBOSE};
use receipt_files::RECEIPT;

/// What `--help` says.
pub const ABOUT: About<'static> = About {
    call: "drat_check CNF PROOF [--drat] [--frat] [--lpr] [--lrat FILE] [--binary] [--trim FILE] [--core FILE] [--holds FILE] [--receipt FILE] [--stats] [--json] [--quiet] [--verbose]",
    does: "Check a DRAT, DPR, FRAT or LPR proof, text or binary, against a formula, and print the verdict.",
    operands: &[
        CNF,
        Entry {
            name: "PROOF",
            text: "the proof, DRAT, DPR or FRAT, text or binary, or LPR text; - is standard input",
        },
    ],
    options: &[
        Entry {
            name: "--drat",
            text: "read the proof as DRAT without detection; repeated literals are ignored (no PR witnesses)",
        },
        Entry {
            name: "--frat",
            text: "read the proof as FRAT without detection",
        },
        Entry {
            name: "--lpr",
            text: "read the proof as LPR text, or LRAT text",
        },
        Entry {
            name: "--lrat FILE",
            text: "write the lines that the checker of LRAT proofs accepted",
        },
        Entry {
            name: "--binary",
            text: "write them as binary LRAT, in place of text",
        },
        Entry {
            name: "--trim FILE",
            text: "write the needed steps as a DRAT proof",
        },
        Entry {
            name: "--core FILE",
            text: "write the clauses of the formula that these lines use",
        },
        Entry {
            name: "--holds FILE",
            text: "check a piece of a proof: it must derive the clauses of FILE; the verdict is s VERIFIED PIECE",
        },
        RECEIPT,
        STATS,
        JSON,
        QUIET,
        VERBOSE,
        EXAMPLE,
    ],
    verified: "s VERIFIED UNSAT: no assignment satisfies the formula",
    open: "s NOT VERIFIED: the proof ends without a conflict. Outputs are empty",
    environment: &[RUST_LOG],
    examples: &[
        Entry {
            name: "drat_check formula.cnf proof.drat",
            text: "check a proof",
        },
        Entry {
            name: "cadical -q formula.cnf - | drat_check formula.cnf -",
            text: "check a proof while the solver writes it",
        },
        Entry {
            name: "drat_check formula.cnf proof.drat --lrat proof.lrat",
            text: "write the proof as LRAT text too, for another checker",
        },
    ],
};
