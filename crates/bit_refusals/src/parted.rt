//! Calls that make a second vector of one.

use crate::given::Given;
use crate::shown::{begin, end, no_such_call, show_after, show_made, show_whole};
use bit_table::containers::{BitOrder, BitStore, Bits, BitsMut, ToBits};
use std::io;

/// A call that leaves the vector or a beginning of it, and answers another.
pub fn part_case<T: BitStore, O: BitOrder<T>>(
    rt: &HostRuntime,
    given: &Given<'_, T>,
) -> io::Result<()> {
    let alloc = rt.alloc();
    let mut vector = given.vector::<O>(alloc)?;
    let half = vector.len() / 2;
    if half > vector.len() {
        return no_such_call(rt);
    }
    show_whole(rt, "before", &vector)?;
    begin(rt)?;
    let outcome = match given.call {
        "clone" => vector.clone(),
        "split_off" => vector.split_off(half),
        "to_bitvec" => vector.as_mut_bitslice().to_bitvec(alloc),
        "to_vec" => vector.as_mut_bitslice().to_vec(alloc),
        _ => return no_such_call(rt),
    };
    end(rt, outcome.is_ok())?;
    show_after(rt, outcome.is_ok(), &vector)?;
    show_made(rt, outcome.ok())
}
