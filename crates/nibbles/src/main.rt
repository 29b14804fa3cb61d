//! Four nibbles packed into two bytes, and the window of their bits printed, in an order of the program's own too.
//!
//! It stands on `bit_slice` alone.
#![tactic(auto)]

mod order;

use bit_slice::*;
use order::UpperNibbleFirst;
use std::io;

fn main(rt: HostRuntime) -> io::Result<()> {
    let nibbles = [0x1u8, 0x2, 0x4, 0x8];
    let mut bytes = [0u8; 2];
    let mut bits = BitSliceMut::<u8, Lsb0>::from_slice_mut(&mut bytes);
    for k in 0..4 {
        for i in 0..4 {
            let place = 4 * k + i;
            if place < bits.len() {
                bits.set(place, nibbles[k] >> i & 1 == 1);
            }
        }
    }
    println!(rt; "{bits}")?;
    println!(rt;
        "{} ones, the first at {:?}",
        bits.count_ones(),
        bits.first_one()
    )?;
    println!(rt; "{:02x} {:02x}", bytes[0], bytes[1])?;
    let lawful = verify_for_type::<u8, UpperNibbleFirst>().is_ok();
    let other = BitSlice::<u8, UpperNibbleFirst>::from_slice(&bytes);
    println!(rt; "{other} from the upper nibble on, lawful {lawful}")
}
