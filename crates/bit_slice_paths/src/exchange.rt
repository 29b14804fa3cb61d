//! Two stretches of one memory exchanged, by chunks of 64 bits.

ghost use Rattle.std.specs.Prelude.{◌+◌, ◌<◌, ◌≤◌};
ghost use Rattle.bit_addressing_memory.specs.Prelude.{Lies, read_by, Swaps};

use bit_addressing_memory::{BitOrder, BitRegister, Direction};
use bit_slice_chunks::any_order::{
    direction_for, read_chunk, read_touched, write_bits, write_chunk,
};

// Exchanges 64 bits with 64 behind them.
#[inline(always)]
#[tactic(auto, using(crate::proofs::ExchangeLemmas::swaps_chunks))]
fn exchange_wholes<R: BitRegister, O: BitOrder<R>>(
    direction: Direction,
    words: &mut [R],
    first: usize,
    second: usize,
)
    requires apart { first + 64 ≤ second }
    requires lies { Lies R.BITS words.old second 64 }
    ensures { Swaps (read_by R.BitRegister O.position) words.old words.new first second 64 }
{
    let front = read_chunk::<R, O>(direction, words, first);
    let back = read_chunk::<R, O>(direction, words, second);
    write_chunk::<R, O>(direction, words, first, back);
    write_chunk::<R, O>(direction, words, second, front);
}

// Exchanges up to 64 bits with as many behind them.
#[inline(never)]
#[tactic(auto, using(crate::proofs::ExchangeLemmas::swaps_chunks))]
fn exchange_rests<R: BitRegister, O: BitOrder<R>>(
    direction: Direction,
    words: &mut [R],
    first: usize,
    second: usize,
    count: usize,
)
    requires some { 0 < count }
    requires few { count ≤ 64 }
    requires apart { first + count ≤ second }
    requires lies { Lies R.BITS words.old second count }
    ensures { Swaps (read_by R.BitRegister O.position) words.old words.new first second count }
{
    let front = read_touched::<R, O>(direction, words, first, count);
    let back = read_touched::<R, O>(direction, words, second, count);
    write_bits::<R, O>(direction, words, first, count, back);
    write_bits::<R, O>(direction, words, second, count, front);
}

/// Exchanges `len` bits of a memory with as many behind them. Out of line, so that a caller that exchanges few is short.
#[inline(never)]
pub fn exchange<R: BitRegister, O: BitOrder<R>>(
    words: &mut [R],
    first: usize,
    second: usize,
    len: usize,
)
    requires apart { first + len ≤ second }
    requires lies { Lies R.BITS words.old second len }
    ensures { Swaps (read_by R.BitRegister O.position) words.old words.new first second len }
{
    let direction = direction_for::<R, O>();
    let whole = len / 64;
    let rest = len % 64;
    for k in 0..whole {
        let done = 64 * k;
        exchange_wholes::<R, O>(direction, words, first + done, second + done);
    }
    if rest > 0 {
        let done = 64 * whole;
        exchange_rests::<R, O>(direction, words, first + done, second + done, rest);
    }
}
