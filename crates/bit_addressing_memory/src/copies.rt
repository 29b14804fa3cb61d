//! Bits copied and exchanged, between two memories and inside one, bit by bit.
//!
//! Every function here touches the places that it names, and no other bit.

ghost use Rattle.std.specs.Prelude.{◌≡◌, ◌+◌, ◌*◌, ◌<◌, ◌≤◌, length, true, false};
ghost use Rattle.bit_addressing_memory.specs.Memory.{read_by, Copies, Swaps};
ghost use Rattle.bit_addressing_memory.specs.Place.{place_of};

use crate::entry::{read_at, write_at};
use crate::place::Place;
use bit_addressing_order::{BitOrder, BitRegister};

/// Copies `len` bits of the memory `from`, those from `source` on, to the places from `target` on of the
/// memory `words`. The two may have different words and orders.
pub fn copy_between<Q: BitRegister, P: BitOrder<Q>, R: BitRegister, O: BitOrder<R>>(
    from: &[Q],
    source: usize,
    words: &mut [R],
    target: usize,
    len: usize,
)
    requires source_in { source + len ≤ length from.now * Q.BITS }
    requires target_in { target + len ≤ length words.old * R.BITS }
    ensures copied { Copies (read_by R.BitRegister O.position) words.old words.new
        (read_by Q.BitRegister P.position) from.now source target len }
{
    copy_between_at::<Q, P, R, O>(from, Place::new(source), words, Place::new(target), len);
}

/// Copies `len` bits of a memory, those from `source` on, to the places from `target` on of the same
/// memory. The two stretches may overlap: what is copied is the bits as they were.
pub fn copy_within<R: BitRegister, O: BitOrder<R>>(
    words: &mut [R],
    source: usize,
    target: usize,
    len: usize,
)
    requires source_in { source + len ≤ length words.old * R.BITS }
    requires target_in { target + len ≤ length words.old * R.BITS }
    ensures copied { Copies (read_by R.BitRegister O.position) words.old words.new
        (read_by R.BitRegister O.position) words.old source target len }
{
    let upward = target <= source;
    copy_within_at::<R, O>(words, Place::new(source), Place::new(target), len, upward);
}

/// Exchanges `len` bits of the memory `words`, those from `first` on, with as many of the memory `others`,
/// those from `second` on. The two may have different words and orders.
pub fn swap_between<R: BitRegister, O: BitOrder<R>, Q: BitRegister, P: BitOrder<Q>>(
    words: &mut [R],
    first: usize,
    others: &mut [Q],
    second: usize,
    len: usize,
)
    requires first_in { first + len ≤ length words.old * R.BITS }
    requires second_in { second + len ≤ length others.old * Q.BITS }
    ensures to_words { Copies (read_by R.BitRegister O.position) words.old words.new
        (read_by Q.BitRegister P.position) others.old second first len }
    ensures to_others { Copies (read_by Q.BitRegister P.position) others.old others.new
        (read_by R.BitRegister O.position) words.old first second len }
{
    swap_between_at::<R, O, Q, P>(words, Place::new(first), others, Place::new(second), len);
}

/// Exchanges `len` bits of a memory, those from `first` on, with those from `second` on. The first stretch
/// ends before the second begins.
#[tactic(auto, using(crate::proofs::CopyLemmas::swap_steps))]
pub fn swap_within<R: BitRegister, O: BitOrder<R>>(
    words: &mut [R],
    first: usize,
    second: usize,
    len: usize,
)
    requires apart { first + len ≤ second }
    requires within { second + len ≤ length words.old * R.BITS }
    ensures swapped { Swaps (read_by R.BitRegister O.position) words.old words.new first second len }
{
    for k in 0..len {
        swap_at::<R, O>(
            words,
            Place::new(first).after(k),
            Place::new(second).after(k),
        );
    }
}

/// Exchanges the bits at two places of a memory. The places may be the same.
pub fn swap_entries<R: BitRegister, O: BitOrder<R>>(words: &mut [R], first: usize, second: usize)
    requires first_in { first < length words.old * R.BITS }
    requires second_in { second < length words.old * R.BITS }
    ensures swapped { Swaps (read_by R.BitRegister O.position) words.old words.new first second 1 }
{
    swap_at::<R, O>(words, Place::new(first), Place::new(second));
}

// `copy_between`, from and to places of any size.
#[tactic(auto, using(crate::proofs::CopyLemmas::between_steps))]
pub fn copy_between_at<Q: BitRegister, P: BitOrder<Q>, R: BitRegister, O: BitOrder<R>>(
    from: &[Q],
    source: Place<Q>,
    words: &mut [R],
    target: Place<R>,
    len: usize,
)
    requires source_in { place_of Q.BITS source + len ≤ length from.now * Q.BITS }
    requires target_in { place_of R.BITS target + len ≤ length words.old * R.BITS }
    ensures copied { Copies (read_by R.BitRegister O.position) words.old words.new
        (read_by Q.BitRegister P.position) from.now (place_of Q.BITS source) (place_of R.BITS target) len }
{
    for k in 0..len {
        let bit = read_at::<Q, P>(from, source.after(k));
        write_at::<R, O>(words, target.after(k), bit);
    }
}

// `copy_within`, from and to places of any size; `upward` is whether the target is not past the source.
#[tactic(auto, using(crate::proofs::CopyLemmas::within_steps))]
pub fn copy_within_at<R: BitRegister, O: BitOrder<R>>(
    words: &mut [R],
    source: Place<R>,
    target: Place<R>,
    len: usize,
    upward: bool,
)
    requires source_in { place_of R.BITS source + len ≤ length words.old * R.BITS }
    requires target_in { place_of R.BITS target + len ≤ length words.old * R.BITS }
    requires up { upward ≡ true → place_of R.BITS target ≤ place_of R.BITS source }
    requires down { upward ≡ false → place_of R.BITS source ≤ place_of R.BITS target }
    ensures copied { Copies (read_by R.BitRegister O.position) words.old words.new
        (read_by R.BitRegister O.position) words.old (place_of R.BITS source) (place_of R.BITS target) len }
{
    if upward {
        'up: for k in 0..len {
            let bit = read_at::<R, O>(words, source.after(k));
            write_at::<R, O>(words, target.after(k), bit);
        }
    } else {
        'down: for k in (0..len).rev() {
            let bit = read_at::<R, O>(words, source.after(k));
            write_at::<R, O>(words, target.after(k), bit);
        }
    }
}

// `swap_between`, at places of any size.
#[tactic(auto, using(crate::proofs::CopyLemmas::between_steps))]
pub fn swap_between_at<R: BitRegister, O: BitOrder<R>, Q: BitRegister, P: BitOrder<Q>>(
    words: &mut [R],
    first: Place<R>,
    others: &mut [Q],
    second: Place<Q>,
    len: usize,
)
    requires first_in { place_of R.BITS first + len ≤ length words.old * R.BITS }
    requires second_in { place_of Q.BITS second + len ≤ length others.old * Q.BITS }
    ensures to_words { Copies (read_by R.BitRegister O.position) words.old words.new
        (read_by Q.BitRegister P.position) others.old (place_of Q.BITS second) (place_of R.BITS first) len }
    ensures to_others { Copies (read_by Q.BitRegister P.position) others.old others.new
        (read_by R.BitRegister O.position) words.old (place_of R.BITS first) (place_of Q.BITS second) len }
{
    for k in 0..len {
        let here = first.after(k);
        let there = second.after(k);
        let bit = read_at::<R, O>(words, here);
        let other = read_at::<Q, P>(others, there);
        write_at::<R, O>(words, here, other);
        write_at::<Q, P>(others, there, bit);
    }
}

// `swap_entries`, at places of any size.
#[tactic(auto, using(crate::proofs::CopyLemmas::swaps_two))]
pub fn swap_at<R: BitRegister, O: BitOrder<R>>(words: &mut [R], first: Place<R>, second: Place<R>)
    requires first_in { place_of R.BITS first < length words.old * R.BITS }
    requires second_in { place_of R.BITS second < length words.old * R.BITS }
    ensures swapped { Swaps (read_by R.BitRegister O.position) words.old words.new
        (place_of R.BITS first) (place_of R.BITS second) 1 }
{
    let bit = read_at::<R, O>(words, first);
    let other = read_at::<R, O>(words, second);
    write_at::<R, O>(words, first, other);
    write_at::<R, O>(words, second, bit);
}
