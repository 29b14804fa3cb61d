use bit_table_layout::{is_number, number_up_to};

#[test]
fn numbers_are_taken_by_value(rt: HostRuntime) {
    let rows = [
        (b"0".as_slice(), 0),
        (b"007", 7),
        (b"99", 99),
        (b"100", 100),
        (b"101", 100),
        (b"340282366920938463463374607431768211456", 100),
    ];
    for (word, number) in rows {
        assert!(rt;
            is_number(word) && number_up_to(word, 100) == number,
            "at {word:?}"
        );
    }
    for word in [b"".as_slice(), b"-1", b"+1", b"1a", b" 1", b"1_000"] {
        assert!(rt; !is_number(word), "at {word:?}");
    }
}
