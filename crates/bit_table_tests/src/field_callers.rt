//! What a table proves of its rows of numbers, from the contracts of numbers in bits alone.

ghost use Rattle.std.specs.Prelude.{◌≡◌, ◌*◌, ◌<◌, ◌≤◌, length, IfOk, IsTrue, Some, slice_get};
ghost use Rattle.bit_addressing_memory.specs.Memory.{read_by};
ghost use Rattle.bit_slice_views.specs.SpanLimits.{MAX_BITS};
ghost use Rattle.bit_containers_vector.specs.Vector.{vec_bits};
ghost use Rattle.bit_table_tests.specs.Numbers.{number_set};
ghost use Rattle.bit_table_layout.specs.Fields.{takes};
ghost use Rattle.bit_table_layout.specs.Layouts.{row_width};
ghost use Rattle.bit_table_layout.specs.Readings.{rows_from};
ghost use Rattle.bit_table_layout.specs.Rows.{new_row};

use bit_containers_vector::BitVec;
use bit_slice_views::BitStore;
use bit_slice_words::Steps;
use bit_table_fields::{Digits, bits_before, load_row, store_number};
use bit_table_layout::Layout;
use std::alloc::{AllocError, Global};

/// Makes number `field` of row `p` of `n` rows another one that the field takes.
pub fn set_number<T: BitStore, O: Digits<T>>(
    rows: &mut BitVec<T, O>,
    layout: &Layout,
    n: usize,
    p: usize,
    field: usize,
    value: i128,
)
    requires rows { length (vec_bits (read_by T.BitRegister O.position) rows.old) ≡ n * row_width layout.now.fields }
    requires most { n * row_width layout.now.fields ≤ MAX_BITS }
    requires row { p < n }
    requires field { field < length layout.now.fields }
    requires takes { (f : _) → slice_get layout.now.fields field ≡ Some f → IsTrue (takes f value) }
    ensures rows { rows_from layout.now n (vec_bits (read_by T.BitRegister O.position) rows.new)
        ≡ number_set (rows_from layout.now n (vec_bits (read_by T.BitRegister O.position) rows.old)) p field value }
    ensures len { length (vec_bits (read_by T.BitRegister O.position) rows.new)
        ≡ length (vec_bits (read_by T.BitRegister O.position) rows.old) }
{
    let at = p * layout.row_bits() + bits_before(layout, field);
    let width = layout.fields()[field].width();
    store_number(rows, at, layout.rule(), width, value, &mut Steps::new());
}

/// The numbers of row `p` of `n` rows.
pub fn row_numbers<T: BitStore, O: Digits<T>>(
    alloc: Global,
    rows: &BitVec<T, O>,
    layout: &Layout,
    n: usize,
    p: usize,
) -> Result<Vec<i128>, AllocError>
    requires rows { length (vec_bits (read_by T.BitRegister O.position) rows.now) ≡ n * row_width layout.now.fields }
    requires most { n * row_width layout.now.fields ≤ MAX_BITS }
    requires row { p < n }
    ensures { IfOk result (λ numbers.
        slice_get (rows_from layout.now n (vec_bits (read_by T.BitRegister O.position) rows.now)) p
        ≡ Some (new_row numbers.items)) }
{
    load_row(
        alloc,
        rows,
        p * layout.row_bits(),
        layout,
        &mut Steps::new(),
    )
}
