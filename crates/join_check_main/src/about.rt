//! What the program says of itself.
use command::{About, CNF, EXAMPLE, Entry};

/// What `--help` says.
pub const ABOUT: About<'static> = About {
    call: "join_check CNF RECEIPTS [--cubes FILE]",
    does: "Check that receipts of checkers show together that a formula is unsatisfiable, and print the verdict.",
    operands: &[
        CNF,
        Entry {
            name: "RECEIPTS",
            text: "the receipts, a line each: refuted sha256 DIGEST, or carries sha256 DIGEST sha256 DIGEST; - is standard input",
        },
    ],
    options: &[
        Entry {
            name: "--cubes FILE",
            text: "the formula is split: of each cube of FILE, and of the closing part, the receipts must show the part",
        },
        EXAMPLE,
    ],
    verified: "s VERIFIED UNSAT BY N RECEIPTS: if all N receipts are honest, no assignment satisfies the formula",
    open: "s NOT VERIFIED: the receipts do not show this; standard error says which part is missing",
    environment: &[],
    examples: &[
        Entry {
            name: "cat pieces/*.receipt | join_check formula.cnf -",
            text: "join the pieces of a proof",
        },
        Entry {
            name: "cat parts/*.receipt | join_check formula.cnf - --cubes cubes.txt",
            text: "join the parts of a formula",
        },
    ],
};
