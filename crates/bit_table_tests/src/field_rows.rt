//! One number of packed rows made another one, worked by hand.

use crate::field_callers::{row_numbers, set_number};
use bit_addressing_memory::Msb0;
use bit_containers_vector::BitVec;
use bit_slice_views::Bits;
use bit_slice_words::Steps;
use bit_table_fields::{bits_before, load_number, store_number};
use bit_table_layout::{Layout, Rule};
use std::alloc::AllocError;

// Number a of the second row becomes 7, and no other; its bits lie where its row begins.
#[test]
fn one_number_of_a_vector_is_written_over(rt: HostRuntime) -> Result<(), AllocError> {
    let Ok(layout) = Layout::parse(rt.alloc(), b"high a:u3 b:i4".as_slice()) else {
        return Ok(());
    };
    let mut rows = BitVec::<u8, Msb0>::from_slice(rt.alloc(), [0xbeu8, 0x8c].as_slice())?;
    rows.truncate(14);
    let fields = layout.fields();
    assert!(rt; rows.len() == 14 && layout.row_bits() == 7 && fields.len() == 2);
    let (second, all) = (bits_before(&layout, 1), bits_before(&layout, 2));
    assert!(rt; bits_before(&layout, 0) == 0 && second == 3 && all == 7);
    assert!(rt; fields[0].takes(7));
    set_number(&mut rows, &layout, 2, 1, 0, 7);
    let first = row_numbers(rt.alloc(), &rows, &layout, 2, 0)?;
    let second = row_numbers(rt.alloc(), &rows, &layout, 2, 1)?;
    assert!(rt; first.as_slice() == [5i128, -1].as_slice());
    assert!(rt; second.as_slice() == [7i128, 3].as_slice());
    assert!(rt; rows.len() == 14);
    let mut steps = Steps::new();
    assert!(rt; load_number(&rows, 3, Rule::High, 4, true, &mut steps) == -1);
    assert!(rt; load_number(&rows, 3, Rule::High, 4, false, &mut steps) == 15);
    assert!(rt; steps.taken() == 2);
    store_number(&mut rows, 3, Rule::Low, 2, 1, &mut steps);
    assert!(rt; load_number(&rows, 3, Rule::High, 4, false, &mut steps) == 11);
    assert!(rt; steps.taken() == 5);
    Ok(())
}
