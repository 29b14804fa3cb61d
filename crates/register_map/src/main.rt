//! A register map: three devices whose bits share two words of `u32`, under an order of their own, and what a driver does
//! with one of them, which no other notices.
//!
//! It stands on `bit_addressing`, with `thiserror` of the kit.
#![tactic(auto)]

mod commands;
mod device;
mod errors;
mod map;
mod order;
mod sheet;
mod show;

use device::Device;
use map::RegisterMap;
use std::io;

/// How many words the devices share.
pub const WORDS: usize = 2;

// The numbers of the devices.
pub const TIMER: usize = 0;

pub const PORT: usize = 1;

pub const COUNTER: usize = 2;

fn main(rt: HostRuntime) -> io::Result<()> {
    let devices = devices();
    match RegisterMap::<3>::new(&devices, WORDS) {
        Err(error) => println!(rt; "refused: {error}"),
        Ok(map) => {
            show::print_devices(&rt, &devices)?;
            show::print_owners(&rt, &devices, &map)?;
            show::print_session(&rt, &devices, &map)?;
            show::print_refused_maps(&rt)?;
            commands::print_commands(&rt, &map)?;
            commands::print_order(&rt)
        }
    }
}

// The data sheet: the counter begins in the first word and ends in the second.
fn devices() -> [Device; 3] {
    [
        Device::new("timer", 0, 20),
        Device::new("port", 20, 8),
        Device::new("counter", 28, 12),
    ]
}
