//! The run of a table's script, over the storage that is asked for.

ghost use Rattle.std.specs.Prelude.{◌≡◌, ◌≢◌, ◌*◌, ◌<◌, ◌≤◌, ◌↔◌, IsSome, IsTrue, length, min, take};
ghost use Rattle.bit_table_script.specs.LayoutLimits.{MAX_ROW_BITS};
ghost use Rattle.bit_table_script.specs.Lines.{IsBeginning};
ghost use Rattle.bit_table_script.specs.Scripts.{script_answer};
ghost use Rattle.bits_c.specs.Table.{BeginsIn, Fills, HasOrder, HasWord, Ran};
ghost use Rattle.bits_c.specs.declared.status.TheConstants.{OK, NO_ROOM, NO_MEMORY, BAD_STORAGE};

use crate::status::{BAD_STORAGE, NO_MEMORY, NO_ROOM, OK};
use bit_table_layout::{Order, Word};
use bit_table_script::{BitViewSized, Digits, HiLo, Input, Lsb0, Msb0, Output, WordPaths, run};
use std::alloc::Global;

/// Runs a script over words of `word_bits` bits, 8 to 128, in the order 0 (`lsb0`), 1 (`msb0`) or 2 (`hilo`), and puts
/// what it answers at the beginning of `answer`: `written` bytes.
///
/// No storage changes an answer. The whole answer is held in memory until the script has ended.
#[tactic(auto, using(crate::proofs::TableLemmas::front_begins))]
#[unsafe(no_mangle)]
pub extern "C" fn bit_table_run(
    alloc: Global,
    word_bits: u32,
    order: u32,
    script: &[u8],
    answer: &mut [u8],
    written: &mut usize,
) -> u32
    ensures status { Ran result (HasWord word_bits × HasOrder order) }
    ensures done { result ≡ OK → Fills answer.old answer.new written.new (script_answer script.now) }
    ensures no_room { result ≡ NO_ROOM → Fills answer.old answer.new written.new
        (take (length answer.old) (script_answer script.now)) }
    ensures longer { result ≡ NO_ROOM → length answer.old < length (script_answer script.now) }
    ensures no_memory { result ≡ NO_MEMORY → BeginsIn answer.old answer.new written.new (script_answer script.now) }
    ensures refused { result ≡ BAD_STORAGE → (answer.new ≡ answer.old) × (written.new ≡ written.old) }
{
    let Some(word) = word_of(word_bits) else {
        return BAD_STORAGE;
    };
    let Some(order) = order_of(order) else {
        return BAD_STORAGE;
    };
    let run = answer_over(alloc, word, order, script);
    let text = run.text.as_slice();
    *written = put(text, answer);
    if !run.whole {
        NO_MEMORY
    } else if *written < text.len() {
        NO_ROOM
    } else {
        OK
    }
}

// What a run wrote, and whether it came to the end of its script.
#[derive(Drop)]
struct Written {
    text: Vec<u8>,
    whole: bool,
}

// What a script is answered over one storage: the whole answer, or a beginning of it where memory was wanted.
#[tactic(auto, using(crate::proofs::RunLemmas::whole_answer))]
fn answer_to<A: BitViewSized, O: WordPaths<A::Store> + Digits<A::Store>>(
    alloc: Global,
    script: &[u8],
) -> Written
    requires { MAX_ROW_BITS ≤ A.COUNT * A.Store.BITS }
    ensures whole { IsTrue result.whole → result.text.items ≡ script_answer script.now }
    ensures begun { IsBeginning result.text.items (script_answer script.now) }
{
    let mut input = Input::new(script);
    let mut output = Output::new(Vec::new(alloc));
    let outcome = run::<A, O, &[u8], Vec<u8>>(alloc, &mut input, &mut output);
    Written {
        text: output.into_inner(),
        whole: outcome.is_ok(),
    }
}

// The same over a storage that is named, with a buffer of 1,024 bits.
fn answer_over(alloc: Global, word: Word, order: Order, script: &[u8]) -> Written
    ensures whole { IsTrue result.whole → result.text.items ≡ script_answer script.now }
    ensures begun { IsBeginning result.text.items (script_answer script.now) }
{
    match (word, order) {
        (Word::U8, Order::Lsb0) => answer_to::<[u8; 128], Lsb0>(alloc, script),
        (Word::U8, Order::Msb0) => answer_to::<[u8; 128], Msb0>(alloc, script),
        (Word::U8, Order::HiLo) => answer_to::<[u8; 128], HiLo>(alloc, script),
        (Word::U16, Order::Lsb0) => answer_to::<[u16; 64], Lsb0>(alloc, script),
        (Word::U16, Order::Msb0) => answer_to::<[u16; 64], Msb0>(alloc, script),
        (Word::U16, Order::HiLo) => answer_to::<[u16; 64], HiLo>(alloc, script),
        (Word::U32, Order::Lsb0) => answer_to::<[u32; 32], Lsb0>(alloc, script),
        (Word::U32, Order::Msb0) => answer_to::<[u32; 32], Msb0>(alloc, script),
        (Word::U32, Order::HiLo) => answer_to::<[u32; 32], HiLo>(alloc, script),
        (Word::U64, Order::Lsb0) => answer_to::<[u64; 16], Lsb0>(alloc, script),
        (Word::U64, Order::Msb0) => answer_to::<[u64; 16], Msb0>(alloc, script),
        (Word::U64, Order::HiLo) => answer_to::<[u64; 16], HiLo>(alloc, script),
        (Word::U128, Order::Lsb0) => answer_to::<[u128; 8], Lsb0>(alloc, script),
        (Word::U128, Order::Msb0) => answer_to::<[u128; 8], Msb0>(alloc, script),
        (Word::U128, Order::HiLo) => answer_to::<[u128; 8], HiLo>(alloc, script),
    }
}

// The word of so many bits.
fn word_of(bits: u32) -> Option<Word>
    ensures { IsSome result ↔ HasWord bits }
{
    match bits {
        8 => Some(Word::U8),
        16 => Some(Word::U16),
        32 => Some(Word::U32),
        64 => Some(Word::U64),
        128 => Some(Word::U128),
        _ => None,
    }
}

// The order of this number.
fn order_of(order: u32) -> Option<Order>
    ensures { IsSome result ↔ HasOrder order }
{
    match order {
        0 => Some(Order::Lsb0),
        1 => Some(Order::Msb0),
        2 => Some(Order::HiLo),
        _ => None,
    }
}

// Puts as many bytes of a text as have room at the beginning of other bytes, and answers how many.
fn put(text: &[u8], answer: &mut [u8]) -> usize
    ensures count { result ≡ min (length text.now) (length answer.old) }
    ensures bytes { Fills answer.old answer.new result (take (length answer.old) text.now) }
{
    let count = text.len().min(answer.len());
    answer[..count].copy_from_slice(&text[..count]);
    count
}
