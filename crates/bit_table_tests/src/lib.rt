//! The tests of rows and fields in bits, texts, replies, command lines, single calls, and runs between readers and writers
//! that fail; and what a user of rows and fields proves.
#![tactic(auto)]

#[cfg(test)]
mod answers;
#[cfg(test)]
mod causes;
#[cfg(test)]
mod command_lines;
#[cfg(test)]
mod digit_callers;
#[cfg(test)]
mod field_callers;
#[cfg(test)]
mod field_rows;
#[cfg(test)]
mod growth;
#[cfg(test)]
mod image_lines;
#[cfg(test)]
mod letters;
#[cfg(test)]
mod line_runs;
#[cfg(test)]
mod line_words;
#[cfg(test)]
mod numbers;
#[cfg(test)]
mod queue;
#[cfg(test)]
mod replies;
#[cfg(test)]
mod room;
#[cfg(test)]
mod rows;
#[cfg(test)]
mod streams;
