//! Accesses to write that are refused: no contract says that they write nothing.

use bit_addressing_memory::Lsb0;
use bit_slice_access::{BitsAccess, BitsCut};
use bit_slice_views_mut::{BitSliceMut, BitsMut, BitsWindow};

// Whether there is a first bit, which is set then.
fn sets_first<V: BitsWindow>(view: &mut V) -> bool {
    if let Some(mut pair) = view.split_first_mut() {
        pair.left_mut().fill(true);
        return true;
    }
    false
}

// Whether there is a last bit, which is set then.
fn sets_last<V: BitsWindow>(view: &mut V) -> bool {
    if let Some(mut pair) = view.split_last_mut() {
        pair.right_mut().fill(true);
        return true;
    }
    false
}

#[test]
fn what_is_refused_writes_nothing(rt: HostRuntime) {
    let mut words = [0xa5u8, 0x5a];
    let mut view = BitSliceMut::<u8, Lsb0>::from_place_mut(&mut words, 3, 10);
    assert!(rt; view.get_mut(10).is_none());
    assert!(rt; view.get_mut(4..11).is_none());
    assert!(rt; words == [0xa5, 0x5a]);
    let mut none = BitSliceMut::<u8, Lsb0>::from_place_mut(&mut words, 3, 0);
    assert!(rt; none.first_mut().is_none() && none.last_mut().is_none());
    assert!(rt; !sets_first(&mut none) && !sets_last(&mut none));
    assert!(rt; words == [0xa5, 0x5a]);
}
