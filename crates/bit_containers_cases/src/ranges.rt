//! Calls that take a range of one of the six kinds, and those that pass over bits of what was taken out.

ghost use Rattle.std.specs.Prelude.{◌≤◌, length};
ghost use Rattle.bit_containers.specs.Memory.{read_by};
ghost use Rattle.bit_containers.specs.Vector.{vec_bits};

use crate::call::Call;
use crate::shown::{push_bit, push_list, push_turns};
use bit_addressing_sample_orders::texts::number;
use bit_containers::{BitBox, BitOrder, BitRange, BitSlice, BitStore, BitVec, Bits, Msb0};
use std::alloc::{AllocError, Global};

/// Makes a call that takes bits of a range out, and says whether it could be made.
pub fn drain_by_kind<T: BitStore, O: BitOrder<T>>(
    text: &mut String,
    vector: &mut BitVec<T, O>,
    call: &Call<'_>,
) -> Result<bool, AllocError> {
    let (a, b) = (number(call.first), number(call.second));
    let len = vector.len();
    match call.name {
        "drain" if a <= b && b <= len => drain(text, vector, a..b)?,
        "drain_from" if a <= len => drain(text, vector, a..)?,
        "drain_to" if a <= len => drain(text, vector, ..a)?,
        "drain_with" if a <= b && b < len => drain(text, vector, a..=b)?,
        "drain_upto" if a < len => drain(text, vector, ..=a)?,
        "drain_all" => drain(text, vector, ..)?,
        "drain_nth" => {
            let mut gone = vector.drain(..);
            push_bit(text, gone.nth(a))?;
            push_bit(text, gone.nth_back(b))?;
            push_list(text, &gone.as_slice())?;
        }
        _ => return Ok(false),
    }
    Ok(true)
}

// Takes bits out, and writes them.
fn drain<T: BitStore, O: BitOrder<T>, R: BitRange + Drop>(
    text: &mut String,
    vector: &mut BitVec<T, O>,
    range: R,
) -> Result<(), AllocError>
    requires ordered { R.start range ≤ R.end range (length (vec_bits (read_by T.BitRegister O.position) vector.old)) }
    requires within { R.end range (length (vec_bits (read_by T.BitRegister O.position) vector.old))
        ≤ length (vec_bits (read_by T.BitRegister O.position) vector.old) }
{
    let gone = vector.drain(range);
    push_list(text, &gone.as_slice())?;
    push_turns(text, gone)
}

/// Makes a call that puts bits in the place of those of a range, and says whether it could be made.
pub fn splice_by_kind<T: BitStore, O: BitOrder<T>>(
    alloc: Global,
    text: &mut String,
    vector: &mut BitVec<T, O>,
    call: &Call<'_>,
    other: BitSlice<'_, u16, Msb0>,
) -> Result<bool, AllocError> {
    let (a, b) = (number(call.second), number(call.third));
    let items = BitBox::<u16, Msb0>::from_bitslice(alloc, other)?;
    let len = vector.len();
    match call.name {
        "splice" if a <= b && b <= len => return splice(text, vector, a..b, items),
        "splice_from" if a <= len => return splice(text, vector, a.., items),
        "splice_to" if a <= len => return splice(text, vector, ..a, items),
        "splice_with" if a <= b && b < len => return splice(text, vector, a..=b, items),
        "splice_upto" if a < len => return splice(text, vector, ..=a, items),
        "splice_all" => return splice(text, vector, .., items),
        "splice_nth" => {
            let mut gone = vector.splice(.., items.into_iter());
            let bit = gone.nth(a);
            push_bit(text, bit)?;
            if bit.is_some() {
                push_bit(text, gone.nth_back(b))?;
            }
        }
        _ => return Ok(false),
    }
    Ok(true)
}

// Puts bits in the place of some, and writes the first and the last of these; not where there are many.
fn splice<T: BitStore, O: BitOrder<T>, R: BitRange + Drop>(
    text: &mut String,
    vector: &mut BitVec<T, O>,
    range: R,
    items: BitBox<u16, Msb0>,
) -> Result<bool, AllocError>
    requires ordered { R.start range ≤ R.end range (length (vec_bits (read_by T.BitRegister O.position) vector.old)) }
    requires within { R.end range (length (vec_bits (read_by T.BitRegister O.position) vector.old))
        ≤ length (vec_bits (read_by T.BitRegister O.position) vector.old) }
{
    if vector.len() > 2000 || items.len() > 200 {
        return Ok(false);
    }
    let mut gone = vector.splice(range, items.into_iter());
    push_bit(text, gone.next())?;
    push_bit(text, gone.next_back())?;
    gone.finish()?;
    Ok(true)
}

/// Makes a call that adds bits of a range at the end, and says whether it could be made.
pub fn repeat_by_kind<T: BitStore, O: BitOrder<T>>(
    vector: &mut BitVec<T, O>,
    call: &Call<'_>,
) -> Result<bool, AllocError> {
    let (a, b) = (number(call.first), number(call.second));
    let len = vector.len();
    if len > 2000 {
        return Ok(false);
    }
    match call.name {
        "within" if a <= b && b <= len => vector.extend_from_within(a..b)?,
        "within_from" if a <= len => vector.extend_from_within(a..)?,
        "within_to" if a <= len => vector.extend_from_within(..a)?,
        "within_with" if a <= b && b < len => vector.extend_from_within(a..=b)?,
        "within_upto" if a < len => vector.extend_from_within(..=a)?,
        "within_all" => vector.extend_from_within(..)?,
        _ => return Ok(false),
    }
    Ok(true)
}
