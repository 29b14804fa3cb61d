//! Windows of bits for callers in C: an export for each operation and storage, in the files named after the storages.
//!
//! No `requires` stands at an export, since nothing proves one of a caller in C: what is asked is tested, and where it
//! does not hold the status says so and nothing changes.
#![tactic(auto)]

mod changes;
mod combines;
mod compares;
mod numbers;
mod reads;
mod status;
mod table;
mod u64_lsb0;
mod u64_msb0;
mod u8_lsb0;
mod u8_msb0;
mod windows;
