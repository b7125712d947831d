//! What the program says of itself.
use command::{About, EXAMPLE, Entry, QUIET, RUST_LOG, VERBOSE};

/// What `--help` says.
pub const ABOUT: About<'static> = About {
    call: "minimal_check CORE PROOF MODELS [--drat] [--frat] [--lpr] [--quiet] [--verbose]",
    does: "Check that no assignment satisfies a formula and that each of its clauses is needed for that, and print the verdict.",
    operands: &[
        Entry {
            name: "CORE",
            text: "the formula, DIMACS text; - is standard input",
        },
        Entry {
            name: "PROOF",
            text: "a proof that it is unsatisfiable, DRAT, DPR or FRAT, text or binary, or LPR text; - is standard input",
        },
        Entry {
            name: "MODELS",
            text: "for each clause in turn literals and a 0, which satisfy all other clauses; a variable that is not listed keeps its value, at first false",
        },
    ],
    options: &[
        Entry {
            name: "--drat",
            text: "read the proof as DRAT without detection; repeated literals are ignored (no PR witnesses)",
        },
        Entry {
            name: "--frat",
            text: "read the proof as FRAT without detection",
        },
        Entry {
            name: "--lpr",
            text: "read the proof as LPR text, or LRAT text",
        },
        QUIET,
        VERBOSE,
        EXAMPLE,
    ],
    verified: "s VERIFIED MINIMAL: no assignment satisfies the formula, and without any of its clauses one does",
    open: "s NOT VERIFIED: the proof ends before it shows the first, or the models do not show the second; standard error says why",
    environment: &[RUST_LOG],
    examples: &[Entry {
        name: "minimal_check core.cnf core.drat models",
        text: "check a core",
    }],
};
