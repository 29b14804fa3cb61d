use bit_table_script::image;
use std::test::Fail;

#[test]
fn image_lines_show_rows_and_bytes(rt: HostRuntime) -> Result<(), Fail> {
    let rows = [
        (0, b"".as_slice(), "0"),
        (1, b"\x8d", "1 8d"),
        (2, b"\x7d\x0d", "2 7d0d"),
        (10, b"\xff\x00\xa5", "10 ff00a5"),
    ];
    for (count, bytes, line) in rows {
        assert!(rt; image::line(rt.alloc(), count, bytes)?.as_str() == line);
    }
    Ok(())
}
