//! The storage of a script: a word and an order.

ghost use Rattle.std.specs.Prelude.{◌*◌, ◌≤◌};
ghost use Rattle.bit_table_script.specs.LayoutLimits.{MAX_ROW_BITS};

use crate::order::StepsOfFive;
use crate::scripts::{run_case, stopped_case};
use crate::tables::table_case;
use crate::text::cut;
use bit_table_script::{BitViewSized, Digits, HiLo, Lsb0, Msb0, WordPaths};
use std::alloc::{AllocError, Global};

/// What a script is answered over the storage that the first two words name, by a run or by a table.
pub fn in_storage(alloc: Global, kind: &str, rest: &str) -> Result<String, AllocError> {
    let (word, rest) = cut(rest);
    match word {
        "u8" => in_words::<[u8; 128]>(alloc, kind, rest),
        "u16" => in_words::<[u16; 64]>(alloc, kind, rest),
        "u32" => in_words::<[u32; 32]>(alloc, kind, rest),
        "u64" => in_words::<[u64; 16]>(alloc, kind, rest),
        "u128" => in_words::<[u128; 8]>(alloc, kind, rest),
        _ => "no such word".to_string(alloc),
    }
}

fn in_words<A: BitViewSized>(alloc: Global, kind: &str, rest: &str) -> Result<String, AllocError>
    requires { MAX_ROW_BITS ≤ A.COUNT * A.Store.BITS }
{
    let (order, rest) = cut(rest);
    match order {
        "lsb0" => in_order::<A, Lsb0>(alloc, kind, rest),
        "msb0" => in_order::<A, Msb0>(alloc, kind, rest),
        "hilo" => in_order::<A, HiLo>(alloc, kind, rest),
        "fifth" => in_order::<A, StepsOfFive>(alloc, kind, rest),
        _ => "no such order".to_string(alloc),
    }
}

fn in_order<A: BitViewSized, O: WordPaths<A::Store> + Digits<A::Store>>(
    alloc: Global,
    kind: &str,
    rest: &str,
) -> Result<String, AllocError>
    requires { MAX_ROW_BITS ≤ A.COUNT * A.Store.BITS }
{
    match kind {
        "run" => run_case::<A, O>(alloc, rest),
        "stopped" => stopped_case::<A, O>(alloc, rest),
        _ => table_case::<A, O>(alloc, rest),
    }
}
