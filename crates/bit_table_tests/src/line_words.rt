use bit_table_layout::{Words, is_separator};

#[test]
fn words_stand_between_separators(rt: HostRuntime) {
    let rows = [
        (b"".as_slice(), [b"".as_slice(), b""]),
        (b" \t\r ", [b"", b""]),
        (b"image", [b"image", b""]),
        (b"\r\n", [b"\n", b""]),
        (b"\tget  \r 7\t", [b"get", b"7"]),
        (b"a\nb \xfe\0", [b"a\nb", b"\xfe\0"]),
    ];
    for (line, [first, second]) in rows {
        let mut words = Words::new(line);
        let found = [words.next().unwrap_or(b""), words.next().unwrap_or(b"")];
        assert!(rt;
            found == [first, second] && words.next().is_none(),
            "{line:?}"
        );
    }
    assert!(rt;
        is_separator(b'\t') && is_separator(b'\r') && is_separator(b' ') && !is_separator(b'\n')
    );
}
