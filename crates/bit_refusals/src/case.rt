//! One case: its first word says what kind of call it has.

ghost use Rattle.std.specs.Prelude.{◌*◌, ◌≤◌};
ghost use Rattle.bit_table.specs.LayoutLimits.{MAX_ROW_BITS};

use crate::boxes::{box_case, into_box_case, iter_case, word_box_case};
use crate::given::Given;
use crate::grown::{append_case, finish_case, grow_by_words_case, grow_case, resize_case};
use crate::images::{image_line_case, image_read_case, image_write_case};
use crate::lines::{choose_case, command_case, copied_layout_case, layout_case};
use crate::made::{make_case, make_of_words_case, try_case, view_case};
use crate::parted::part_case;
use crate::scripts::run_case;
use crate::shown::no_such_call;
use crate::tables::{answer_line_case, table_case};
use crate::windows::window_case;
use bit_table::Digits;
use bit_table::containers::{BitStore, BitViewSized, Lsb0, Msb0, WordPaths};
use std::io;
use std::str::SplitWhitespace;

/// Makes the call of a line.
pub fn make(rt: &HostRuntime, line: &str) -> io::Result<()> {
    let (kind, rest) = cut(line);
    match kind {
        "layout" => layout_case(rt, rest),
        "copied_layout" => copied_layout_case(rt, rest),
        "command" => command_case(rt, rest),
        "choose" => choose_case(rt, rest),
        "image_line" => image_line_case(rt, rest.split_whitespace()),
        _ => in_storage(rt, kind, rest),
    }
}

// A text up to its first space, and what stands behind that.
fn cut(text: &str) -> (&str, &str) {
    text.split_once(' ').unwrap_or((text, ""))
}

// A call over the storage that the next word names.
fn in_storage(rt: &HostRuntime, kind: &str, rest: &str) -> io::Result<()> {
    let (word, rest) = cut(rest);
    match (kind, word) {
        ("table" | "answer" | "run", "u8") => of_table::<[u8; 128], Lsb0>(rt, kind, rest),
        ("table" | "answer" | "run", "u64") => of_table::<[u64; 16], Msb0>(rt, kind, rest),
        (_, "u8") => of_list::<u8, Lsb0>(rt, kind, rest.split_whitespace()),
        (_, "u64") => of_list::<u64, Msb0>(rt, kind, rest.split_whitespace()),
        _ => no_such_call(rt),
    }
}

// A call of a table.
fn of_table<A: BitViewSized, O: WordPaths<A::Store> + Digits<A::Store>>(
    rt: &HostRuntime,
    kind: &str,
    script: &str,
) -> io::Result<()>
    requires { MAX_ROW_BITS ≤ A.COUNT * A.Store.BITS }
{
    match kind {
        "table" => table_case::<A, O>(rt, script),
        "answer" => answer_line_case::<A, O>(rt, script),
        _ => run_case::<A, O>(rt, script),
    }
}

// A call of a vector, a box, a window or an image.
fn of_list<T: BitStore, O: WordPaths<T> + Digits<T>>(
    rt: &HostRuntime,
    kind: &str,
    words: SplitWhitespace<'_>,
) -> io::Result<()> {
    if kind == "image_read" {
        return image_read_case::<T, O>(rt, words);
    }
    let given = Given::<T>::read(rt.alloc(), words)?;
    match kind {
        "grow" => grow_case::<T, O>(rt, &given),
        "finish" => finish_case::<T, O>(rt, &given),
        "words" => grow_by_words_case::<T, O>(rt, &given),
        "append" => append_case::<T, O>(rt, &given),
        "resize" => resize_case::<T, O>(rt, &given),
        "part" => part_case::<T, O>(rt, &given),
        "make" => make_case::<T, O>(rt, &given),
        "of_words" => make_of_words_case::<T, O>(rt, &given),
        "try" => try_case::<T, O>(rt, &given),
        "view" => view_case::<T, O>(rt, &given),
        "box" => box_case::<T, O>(rt, &given),
        "word_box" => word_box_case::<T, O>(rt, &given),
        "into_box" => into_box_case::<T, O>(rt, &given),
        "iter" => iter_case::<T, O>(rt, &given),
        "window" => window_case::<T, O>(rt, &given),
        "image_write" => image_write_case::<T, O>(rt, &given),
        _ => no_such_call(rt),
    }
}
