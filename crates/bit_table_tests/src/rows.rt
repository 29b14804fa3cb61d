//! Rows of three bits in a window, worked by hand.

use bit_addressing_memory::Lsb0;
use bit_slice_views::BitSlice;
use bit_slice_views_mut::BitSliceMut;
use bit_table_rows::{move_rows_in, swap_rows, write_row};

// A row of three bits that lies in a window moves to the next one's place, and another is written over the first.
#[test]
fn rows_of_a_window(rt: HostRuntime) {
    let mut words = [0xffu8, 0x00, 0x00];
    {
        let mut view = BitSliceMut::<u8, Lsb0>::from_place_mut(&mut words, 3, 21);
        let writes = move_rows_in(&mut view, 1, 2, 2, 3);
        assert!(rt; writes <= 1);
    }
    assert!(rt; words == [0xff, 0x06, 0x00]);
    let row = [0x05u8];
    {
        let mut view = BitSliceMut::<u8, Lsb0>::from_place_mut(&mut words, 3, 9);
        write_row(
            &mut view,
            3,
            3,
            0,
            &BitSlice::<u8, Lsb0>::from_place(&row, 0, 3),
        );
        swap_rows(&mut view, 3, 3, 0, 1);
    }
    // 101 and 110 in the places of 111 and 110, exchanged, then 110
    assert!(rt; words == [0b0101_1111, 0b0000_0111, 0x00]);
}
