//! The tests of `column_table`: the same asked of a plain `Vec` of rows, and tables read back.
#![tactic(auto)]

#[cfg(test)]
mod tests;
