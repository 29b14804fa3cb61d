//! What command lines ask for.
use bit_table_command_line::{Choice, Order, Word, choose};
use std::alloc::Global;

// Whether these words ask for a run over this storage.
fn runs(alloc: Global, words: &[&str], word: Word, order: Order) -> bool {
    match choose(alloc, words) {
        Choice::Run(chosen, by) => chosen == word && by == order,
        _ => false,
    }
}

// Whether these words are no command line, and the text says so by this part.
fn is_bad(alloc: Global, words: &[&str], part: &str) -> bool {
    match choose(alloc, words) {
        Choice::Bad(text) => text.as_str().contains(part),
        _ => false,
    }
}

#[test]
fn no_words_ask_for_the_defaults(rt: HostRuntime) {
    assert!(rt; runs(rt.alloc(), &[], Word::U64, Order::Lsb0));
}

#[test]
fn options_name_the_storage(rt: HostRuntime) {
    let alloc = rt.alloc();
    assert!(rt;
        runs(
            alloc,
            &["--word", "u8", "--order", "hilo"],
            Word::U8,
            Order::HiLo
        )
    );
    assert!(rt;
        runs(
            alloc,
            &["--order", "msb0", "--word", "u16"],
            Word::U16,
            Order::Msb0
        )
    );
    assert!(rt; runs(alloc, &["--word=u32"], Word::U32, Order::Lsb0));
    assert!(rt; runs(alloc, &["--word=u128"], Word::U128, Order::Lsb0));
    assert!(rt; runs(alloc, &["--order=lsb0"], Word::U64, Order::Lsb0));
    assert!(rt;
        runs(
            alloc,
            &["--word", "u64", "--order", "msb0"],
            Word::U64,
            Order::Msb0
        )
    );
}

#[test]
fn other_words_are_bad(rt: HostRuntime) {
    let alloc = rt.alloc();
    assert!(rt; is_bad(alloc, &["--word", "u256"], "u256"));
    assert!(rt; is_bad(alloc, &["--word", "usize"], "usize"));
    assert!(rt; is_bad(alloc, &["--word", ""], "--word"));
    assert!(rt; is_bad(alloc, &["--order", "up"], "up"));
    assert!(rt; is_bad(alloc, &["x"], "x"));
    assert!(rt; is_bad(alloc, &["--word"], "--word"));
    assert!(rt; is_bad(alloc, &["--wide", "u8"], "--wide"));
    assert!(rt; is_bad(alloc, &["--word", "U8"], "U8"));
}

// What is told says what would be right.
#[test]
fn a_bad_word_is_told_the_right_ones(rt: HostRuntime) {
    let alloc = rt.alloc();
    assert!(rt;
        is_bad(
            alloc,
            &["--word", "usize"],
            "[possible values: u8, u16, u32, u64, u128]"
        )
    );
    assert!(rt;
        is_bad(
            alloc,
            &["--order", "up"],
            "[possible values: lsb0, msb0, hilo]"
        )
    );
    assert!(rt; is_bad(alloc, &["x"], "Usage: bit-table [OPTIONS]"));
    assert!(rt; is_bad(alloc, &["--wide", "u8"], "--help"));
}

// What help says on standard output: the options, a script, and each command with its words.
const HELP: [&str; 24] = [
    "Usage: bit-table [OPTIONS]",
    "--word <WORD>",
    "[default: u64] [possible values: u8, u16, u32, u64, u128]",
    "--order <ORDER>",
    "[default: lsb0] [possible values: lsb0, msb0, hilo]",
    "low a:u3 b:i4\n",
    "insert p v..  ",
    "delete p q  ",
    "set p f v  ",
    "get p  ",
    "copy p q r  ",
    "swap p q  ",
    "rotate p q k  ",
    "dup p q  ",
    "image  ",
    "load c h  ",
    "keep  ",
    "back  ",
    "mark x f op v  ",
    "and x y  ",
    "not x  ",
    "count x  ",
    "list x  ",
    "drop x  ",
];

#[test]
fn help_shows_a_script_and_each_command(rt: HostRuntime) {
    match choose(rt.alloc(), &["--help"]) {
        Choice::Help(text) => {
            for part in HELP {
                assert!(rt; text.as_str().contains(part), "{part}");
            }
        }
        _ => assert!(rt; false),
    }
    assert!(rt; matches!(choose(rt.alloc(), &["-h"]), Choice::Help(_)));
    assert!(rt;
        matches!(
            choose(rt.alloc(), &["--word", "u8", "--help"]),
            Choice::Help(_)
        )
    );
}
