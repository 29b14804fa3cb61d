//! The bits of the rows that image bytes hold.

ghost use Rattle.std.specs.Prelude.{◌≡◌, ◌↔◌, ◌⊎◌, ◌*◌, ◌<◌, ◌≤◌, true, false, length, take, IfOk, IfErr};
ghost use Rattle.std.specs.Prelude.{IsErrOf};
ghost use Rattle.bit_addressing_memory.specs.Memory.{memory, piece, read_by};
ghost use Rattle.bit_containers_vector.specs.Vector.{vec_bits, vec_head};
ghost use Rattle.bit_table_layout.specs.Images.{HasOnlyNumbers};
ghost use Rattle.bit_table_layout.specs.Layouts.{row_width};
ghost use Rattle.bit_table_layout.specs.Loads.{bits_of_bytes, is_image, rows_in_bytes};
ghost use Rattle.bit_table_layout.specs.Rows.{table_bits};
ghost use Rattle.bit_table_image.specs.Bytes.{bytes_read};

use bit_addressing_memory::{BitOrder, Lsb0, Msb0};
use bit_containers_vector::BitVec;
use bit_slice_views::{BitSlice, BitStore};
use bit_table_layout::image::is_image;
use bit_table_layout::{Cause, Fault, Layout, MAX_BITS, Rule};
use std::alloc::{AllocError, Global};

/// The bits of so many rows of the layout, from their image bytes, in a vector of any words and order.
///
/// `Refused(Cause::Full)` says that the rows would have more than `MAX_BITS` bits, whatever the bytes;
/// `Refused(Cause::Image)` that they would not, and the bytes are no image of so many rows. Both are decided before
/// memory is taken. `Memory` says that neither holds, and that there was no memory for the bits.
pub fn read<T: BitStore, O: BitOrder<T>>(
    alloc: Global,
    layout: &Layout,
    rows: u64,
    bytes: &[u8],
) -> Result<BitVec<T, O>, Fault>
    ensures rows { IfOk result (λ bits. vec_bits (read_by T.BitRegister O.position) bits
        ≡ table_bits layout.now (rows_in_bytes layout.now rows bytes.now)) }
    ensures bits { IfOk result (λ bits. vec_bits (read_by T.BitRegister O.position) bits
        ≡ take (rows * row_width layout.now.fields) (bits_of_bytes layout.now.rule bytes.now)) }
    ensures head { IfOk result (λ bits. vec_head bits ≡ 0) }

    // The rows with these bytes have no other numbers.
    ensures only { IfOk result (λ _. HasOnlyNumbers layout.now rows bytes.now
        (rows_in_bytes layout.now rows bytes.now)) }
    ensures taken { IfOk result (λ bits. (rows * row_width layout.now.fields ≤ MAX_BITS)
        × (is_image layout.now rows bytes.now ≡ true)) }
    ensures full { IsErrOf result (Fault.Refused Cause.Full) ↔ (MAX_BITS < rows * row_width layout.now.fields) }
    ensures image { IsErrOf result (Fault.Refused Cause.Image)
        ↔ ((rows * row_width layout.now.fields ≤ MAX_BITS) × (is_image layout.now rows bytes.now ≡ false)) }
    ensures err { IfErr result (λ e. (e ≡ Fault.Refused Cause.Full)
        ⊎ ((e ≡ Fault.Refused Cause.Image) ⊎ (e ≡ Fault.Memory))) }
{
    let width = layout.row_bits();
    let rows = rows as usize;
    if rows > MAX_BITS / width {
        return Err(Fault::Refused(Cause::Full));
    }
    if !is_image(layout, rows, bytes) {
        return Err(Fault::Refused(Cause::Image));
    }
    match first_bits(alloc, layout.rule(), bytes, rows * width) {
        Ok(bits) => Ok(bits),
        Err(_) => Err(Fault::Memory),
    }
}

// The first so many bits of bytes.
fn first_bits<T: BitStore, O: BitOrder<T>>(
    alloc: Global,
    rule: Rule,
    bytes: &[u8],
    len: usize,
) -> Result<BitVec<T, O>, AllocError>
    requires enough { len ≤ 8 * length bytes.now }
    requires few { len ≤ MAX_BITS }
    ensures bits { IfOk result (λ bits. vec_bits (read_by T.BitRegister O.position) bits
        ≡ take len (bits_of_bytes rule bytes.now)) }
    ensures head { IfOk result (λ bits. vec_head bits ≡ 0) }
{
    match rule {
        Rule::Low => bits_in::<Lsb0, T, O>(alloc, bytes, len),
        Rule::High => bits_in::<Msb0, T, O>(alloc, bytes, len),
    }
}

// The first so many bits of bytes in an order of their bits.
fn bits_in<P: BitOrder<u8>, T: BitStore, O: BitOrder<T>>(
    alloc: Global,
    bytes: &[u8],
    len: usize,
) -> Result<BitVec<T, O>, AllocError>
    requires enough { len ≤ 8 * length bytes.now }
    requires few { len ≤ MAX_BITS }
    ensures bits { IfOk result (λ bits. vec_bits (read_by T.BitRegister O.position) bits
        ≡ piece (memory (bytes_read P.position) bytes.now) 0 len) }
    ensures head { IfOk result (λ bits. vec_head bits ≡ 0) }
{
    let mut bits = BitVec::with_capacity(alloc, len)?;
    bits.extend_from_bitslice(&BitSlice::<u8, P>::from_place(bytes, 0, len))?;
    Ok(bits)
}
