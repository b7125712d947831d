//! What the program says of itself.
use command::{About, CNF, EXAMPLE, Entry};
use receipt_files::RECEIPT;

/// What `--help` says.
pub const ABOUT: About<'static> = About {
    call: "model_check CNF ANSWER [--receipt FILE]",
    does: "Check that a solver's answer satisfies a formula, and print the verdict.",
    operands: &[
        CNF,
        Entry {
            name: "ANSWER",
            text: "the answer, as solvers print it, or numbers up to a 0; - is standard input",
        },
    ],
    options: &[RECEIPT, EXAMPLE],
    verified: "s VERIFIED SAT: each assignment that agrees with the answer satisfies the formula",
    open: "s NOT VERIFIED: a clause has no literal of the answer; its number is on standard error",
    environment: &[],
    examples: &[
        Entry {
            name: "model_check formula.cnf answer",
            text: "check an answer",
        },
        Entry {
            name: "solver formula.cnf | model_check formula.cnf -",
            text: "check an answer as the solver prints it",
        },
    ],
};
