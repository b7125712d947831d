//! A session and the ported checker for callers that hold them as pointers in memory of their own,
//! such as callers in C: each in a box, of which a pointer and an allocator are kept, and with
//! literals as DIMACS numbers. The ported checker has no processors.
#![tactic(auto)]

mod checker;
mod checker_answer;
mod checker_fault;
mod checker_kind;
mod checker_ported;
mod checker_slot;
mod checker_unheard;
pub mod lits;
pub mod parts;
mod session;
mod session_answer;
mod session_fault;
mod session_slot;
mod status;

pub use checker::CheckerHandle;
pub use checker_answer::CheckerAnswer;
pub use checker_fault::CallFault;
pub use checker_kind::StepKind;
pub use session::Session;
pub use session_answer::SessionAnswer;
pub use session_fault::HandleFault;
