//! The commands of a table's script: how lines spell them, what refuses them, what they do, and what they answer.
#![tactic(auto)]

mod cause;
mod command;
mod items;
mod mark_words;
mod name;
mod number_words;
mod reading;
mod reply;
mod test;

pub use cause::cutting_off_changes_nothing;
pub use command::{Command, Values};
pub use items::Items;
pub use reply::{ImageBytes, Numbers, Reply, RowNumbers};
pub use test::Test;
