//! Splits by a predicate, to write.

ghost use Rattle.bit_slice_splits.specs.SplitsMut.{parts_callee, LiesIn};

use crate::list::is_one;
use bit_addressing_memory::{BitRegister, Lsb0};
use bit_slice_splits::{AtMost, BitsSplitsMut, SplitEnd, SplitsMut};
use bit_slice_views::Bits;
use bit_slice_views_mut::{BitSliceMut, BitsMut, BitsWindow};

// The lengths of the parts that are lent from the front on, the first one's digit in front; each is filled.
fn fills<V: BitsWindow, F: FnMut(usize, &bool) -> bool + Drop, A: SplitEnd, B: SplitEnd>(
    parts: &mut SplitsMut<'_, V, F, A, B>,
) -> usize
    requires callable { F.IsAlwaysCallable (parts_callee parts.old) }
    requires lies { LiesIn V.Store.BITS V.words parts.old }
    ensures lies_still { LiesIn V.Store.BITS V.words parts.new }
{
    let mut lens = 0usize;
    while let Some(part) = parts.next_mut() {
        lens = lens.wrapping_mul(10).wrapping_add(part.len());
        part.fill(true);
    }
    lens
}

// The same from the back.
fn fills_back<V: BitsWindow, F: FnMut(usize, &bool) -> bool + Drop, A: SplitEnd, B: SplitEnd>(
    parts: &mut SplitsMut<'_, V, F, A, B>,
) -> usize
    requires callable { F.IsAlwaysCallable (parts_callee parts.old) }
    requires lies { LiesIn V.Store.BITS V.words parts.old }
    ensures lies_still { LiesIn V.Store.BITS V.words parts.new }
{
    let mut lens = 0usize;
    while let Some(part) = parts.next_back_mut() {
        lens = lens.wrapping_mul(10).wrapping_add(part.len());
        part.fill(true);
    }
    lens
}

// The length of the part behind the first from the front on, which is filled; 0 where there is none.
fn fills_second<V: BitsWindow, F: FnMut(usize, &bool) -> bool + Drop, A: SplitEnd, B: SplitEnd>(
    parts: &mut SplitsMut<'_, V, F, A, B>,
) -> usize
    requires callable { F.IsAlwaysCallable (parts_callee parts.old) }
    requires lies { LiesIn V.Store.BITS V.words parts.old }
    ensures lies_still { LiesIn V.Store.BITS V.words parts.new }
{
    let Some(part) = parts.nth_mut(1) else {
        return 0
    };
    let len = part.len();
    part.fill(true);
    len
}

// The same from the back.
fn fills_second_back<
    V: BitsWindow,
    F: FnMut(usize, &bool) -> bool + Drop,
    A: SplitEnd,
    B: SplitEnd,
>(parts: &mut SplitsMut<'_, V, F, A, B>) -> usize
    requires callable { F.IsAlwaysCallable (parts_callee parts.old) }
    requires lies { LiesIn V.Store.BITS V.words parts.old }
    ensures lies_still { LiesIn V.Store.BITS V.words parts.new }
{
    let Some(part) = parts.nth_back_mut(1) else {
        return 0
    };
    let len = part.len();
    part.fill(true);
    len
}

// The length of the part behind the first, of so many at most, which is cleared.
fn clears_second<V: BitsWindow, F: FnMut(usize, &bool) -> bool + Drop, A: SplitEnd>(
    parts: &mut SplitsMut<'_, V, F, A, AtMost>,
) -> usize
    requires callable { F.IsAlwaysCallable (parts_callee parts.old) }
    requires lies { LiesIn V.Store.BITS V.words parts.old }
    ensures lies_still { LiesIn V.Store.BITS V.words parts.new }
{
    let Some(part) = parts.nth_mut(1) else {
        return 0
    };
    let len = part.len();
    part.fill(false);
    len
}

// The same of so many parts at most, each of which is cleared.
fn clears<V: BitsWindow, F: FnMut(usize, &bool) -> bool + Drop, A: SplitEnd>(
    parts: &mut SplitsMut<'_, V, F, A, AtMost>,
) -> usize
    requires callable { F.IsAlwaysCallable (parts_callee parts.old) }
    requires lies { LiesIn V.Store.BITS V.words parts.old }
    ensures lies_still { LiesIn V.Store.BITS V.words parts.new }
{
    let mut lens = 0usize;
    while let Some(part) = parts.next_mut() {
        lens = lens.wrapping_mul(10).wrapping_add(part.len());
        part.fill(false);
    }
    lens
}

// The lengths of the parts by a way to split, all filled, or so many at most cleared.
fn written<V: BitsWindow>(view: &mut V, way: &str, count: usize) -> usize {
    match way {
        "split" => fills(&mut view.split_mut(is_one)),
        "rsplit" => fills(&mut view.rsplit_mut(is_one)),
        "split_inclusive" => fills(&mut view.split_inclusive_mut(is_one)),
        "split from the back" => fills_back(&mut view.split_mut(is_one)),
        "rsplit from the back" => fills_back(&mut view.rsplit_mut(is_one)),
        "split_inclusive from the back" => fills_back(&mut view.split_inclusive_mut(is_one)),
        "second of split" => fills_second(&mut view.split_mut(is_one)),
        "second of split from the back" => fills_second_back(&mut view.split_mut(is_one)),
        "second of splitn" => clears_second(&mut view.splitn_mut(count, is_one)),
        "splitn" => clears(&mut view.splitn_mut(count, is_one)),
        _ => clears(&mut view.rsplitn_mut(count, is_one)),
    }
}

#[test]
fn parts_are_written(rt: HostRuntime) {
    // the bits 0, 1, 0, 0, 1, 0 from the place 1 on, between ones: the lengths, and the byte then
    let rows = [
        ("split", 0, 121, 0xff),
        ("split from the back", 0, 121, 0xff),
        ("rsplit", 0, 121, 0xff),
        ("rsplit from the back", 0, 121, 0xff),
        ("split_inclusive", 0, 231, 0xff),
        ("split_inclusive from the back", 0, 132, 0xff),
        ("splitn", 0, 0, 0xa5),
        ("rsplitn", 0, 0, 0xa5),
        ("splitn", 1, 6, 0x81),
        ("rsplitn", 1, 6, 0x81),
        ("splitn", 2, 14, 0x85),
        ("rsplitn", 2, 14, 0xa1),
        ("splitn", 3, 121, 0xa5),
        ("rsplitn", 9, 121, 0xa5),
        ("second of split", 0, 2, 0xbd),
        ("second of split from the back", 0, 2, 0xbd),
        ("second of splitn", 1, 0, 0xa5),
        ("second of splitn", 2, 4, 0x85),
        ("second of splitn", 3, 2, 0xa5),
    ];
    for (way, count, wanted, byte) in rows {
        let mut words = [0xa5u8];
        let lens = {
            let mut view = BitSliceMut::<u8, Lsb0>::from_place_mut(&mut words, 1, 6);
            written(&mut view, way, count)
        };
        assert!(rt; lens == wanted && words == [byte], "{way} {count}");
    }
}
