//! Whether a candidate is a lawful bit order, and the first law that it breaks.
#![tactic(auto)]

mod check;
mod every_register;
mod fault;

pub use check::verify_for_type;
pub use every_register::verify;
pub use fault::{OrderFault, WordFault};
