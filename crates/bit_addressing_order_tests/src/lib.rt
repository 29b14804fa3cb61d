//! The tests of registers, places in a word and orders: the rows, each call once, and what callers know.
#![tactic(auto)]

#[cfg(test)]
mod candidates;
#[cfg(test)]
mod order_rows;
#[cfg(test)]
mod places;
#[cfg(test)]
mod texts;
