//! What the program says of itself.
use command::{About, EXAMPLE, Entry};

/// What `--help` says.
pub const ABOUT: About<'static> = About {
    call: "session_check [INTERACTION] PROOF [--alone]",
    does: "Check the answers of a session of queries to a solver as they come, and print a line for each query.",
    operands: &[
        Entry {
            name: "INTERACTION",
            text: "the clauses, queries and answers, as the application told them, ICNF text; - is standard input",
        },
        Entry {
            name: "PROOF",
            text: "the solver's proof of them, LIDRUP text; - is standard input",
        },
    ],
    options: &[
        Entry {
            name: "--alone",
            text: "take the clauses, queries and answers of the application from the proof itself, without INTERACTION",
        },
        EXAMPLE,
    ],
    verified: "all answers are shown",
    open: "an answer is not shown; its line says why",
    environment: &[],
    examples: &[
        Entry {
            name: "session_check session.icnf session.lidrup",
            text: "check a session",
        },
        Entry {
            name: "application | session_check --alone -",
            text: "check each answer as soon as it is written",
        },
    ],
};
