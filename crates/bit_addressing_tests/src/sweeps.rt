//! Rows of a sweep.

use crate::callers::{put_ends, put_in_part};
use bit_addressing::{Sweep, Way, way_for};

#[test]
fn ways_of_a_move(rt: HostRuntime) {
    // source, target, way
    let rows = [(4, 0, Way::Up), (4, 4, Way::Up), (4, 5, Way::Down)];
    for (source, target, way) in rows {
        assert!(rt; way_for(source, target) == way, "{source} to {target}");
        assert!(rt;
            Sweep::way_for(source, target) == way,
            "{source} to {target}"
        );
    }
}

#[test]
fn a_sweep_counts_what_it_reads_and_writes(rt: HostRuntime) {
    let mut words = [0x12u8, 0x34, 0x56];
    let mut sweep = Sweep::new(&mut words, Way::Up);
    assert!(rt; sweep.way() == Way::Up);
    assert!(rt; (sweep.reads(), sweep.writes()) == (0, 0));
    assert!(rt; sweep.read(2) == 0x56);
    assert!(rt; sweep.read(0) == 0x12);
    sweep.put(0, 0xff);
    assert!(rt; sweep.read(0) == 0xff);
    sweep.put(2, 0);
    assert!(rt; (sweep.reads(), sweep.writes()) == (3, 2));
    assert!(rt; words == [0xff, 0x34, 0]);
}

#[test]
fn a_sweep_goes_down(rt: HostRuntime) {
    let mut words = [1u32, 2, 3];
    assert!(rt; put_ends(&mut words, 7, 8) == (1, 2));
    assert!(rt; words == [7, 8, 3]);
}

#[test]
fn a_part_is_swept(rt: HostRuntime) {
    let mut words = [1u16, 2, 3, 4, 5];
    put_in_part(&mut words, 1, 3, 2, 9);
    assert!(rt; words == [1, 2, 3, 9, 5]);
}
