//! What is said of a formula that was to be shown unsatisfiable, and of a piece of a proof: the
//! verdict, what it means for the texts of the formulas, its line, its exit status, and the report
//! of a clause that is missing.
#![tactic(auto)]

mod line;
mod missing;
mod piece;
mod shown;
mod status;
mod verdict;

pub use line::{write_line, write_piece_line};
pub use missing::MissingClause;
pub use piece::PieceVerdict;
pub use shown::{Shown, Unshown, show_line};
pub use status::{Claims, Refusal, ended, exit_status};
pub use verdict::Verdict;
