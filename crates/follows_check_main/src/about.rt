//! What the program says of itself.
use command::{About, EXAMPLE, Entry, QUIET, RUST_LOG, VERBOSE};

/// What `--help` says.
pub const ABOUT: About<'static> = About {
    call: "follows_check FORMULA CLAIMS [PROOF] [--formula FILE] [--answer] [--drat] [--frat] [--lpr] [--quiet] [--verbose]",
    does: "Check a proof that all claims follow from a formula, or a solver's answer that one does not, and print the verdict.",
    operands: &[
        Entry {
            name: "FORMULA",
            text: "the formula, DIMACS text; - is standard input",
        },
        Entry {
            name: "CLAIMS",
            text: "the claims, DIMACS text: clauses that must follow from the formula",
        },
        Entry {
            name: "PROOF",
            text: "a proof for the formula of --formula, DRAT, DPR or FRAT, text or binary, or LPR text; or with --answer an answer; - is standard input",
        },
    ],
    options: &[
        Entry {
            name: "--formula FILE",
            text: "write the formula for a solver: FORMULA, and some claim fails. Takes no PROOF; the file is never read back",
        },
        Entry {
            name: "--answer",
            text: "PROOF is the solver's answer that this formula is satisfiable",
        },
        Entry {
            name: "--drat",
            text: "read the proof as DRAT without detection; repeated literals are ignored (no PR witnesses)",
        },
        Entry {
            name: "--frat",
            text: "read the proof as FRAT without detection",
        },
        Entry {
            name: "--lpr",
            text: "read the proof as LPR text, or LRAT text",
        },
        QUIET,
        VERBOSE,
        EXAMPLE,
    ],
    verified: "--formula has written its file. 20: s VERIFIED FOLLOWS: each assignment that satisfies the formula satisfies all claims. 10: s VERIFIED NOT FOLLOWS: some assignment satisfies the formula and fails a claim; standard error says which",
    open: "s NOT VERIFIED: the proof ends before it shows that the claims follow, or the answer does not show that one fails; standard error says why",
    environment: &[RUST_LOG],
    examples: &[
        Entry {
            name: "follows_check formula.cnf claims.cnf --formula asked.cnf",
            text: "write the formula for a solver",
        },
        Entry {
            name: "cadical -q asked.cnf - | follows_check formula.cnf claims.cnf -",
            text: "check a proof while the solver writes it",
        },
    ],
};
