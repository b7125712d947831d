//! The option `--example`, and the example of the programs that read LRAT.
use crate::about::Entry;

/// The option that runs a program on a small example.
pub const EXAMPLE: Entry<'static> = Entry {
    name: "--example",
    text: "check a small fixed example, in place of files",
};

/// Four clauses, each excluding one assignment of two variables.
pub const EXAMPLE_FORMULA: &[u8] = b"p cnf 2 4\n1 2 0\n1 -2 0\n-1 2 0\n-1 -2 0\n";

/// 1 follows from the first two clauses, and with it the other two lead to a conflict.
pub const EXAMPLE_LRAT: &[u8] = b"5 1 0 1 2 0\n5 d 1 2 0\n6 0 5 3 4 0\n";
