//! The lines of replies.
use bit_table_commands::{ImageBytes, Numbers, Reply, RowNumbers};
use std::alloc::Global;
use std::test::Fail;

// Whether a reply has this answer line.
fn tells(alloc: Global, reply: Reply, line: &[u8]) -> Result<bool, Fail> {
    Ok(reply.line(alloc)?.as_slice() == line)
}

#[test]
fn writes_numbers(rt: HostRuntime) -> Result<(), Fail> {
    let alloc = rt.alloc();
    for (numbers, line) in [
        ([7, 3].as_slice(), b"7 3\n".as_slice()),
        ([5, -1].as_slice(), b"5 -1\n".as_slice()),
        ([0].as_slice(), b"0\n".as_slice()),
        (
            [18_446_744_073_709_551_615, -9_223_372_036_854_775_808, 10].as_slice(),
            b"18446744073709551615 -9223372036854775808 10\n".as_slice(),
        ),
    ] {
        let numbers = Numbers::new(Vec::from_slice(alloc, numbers)?);
        assert!(rt; tells(alloc, Reply::Numbers(numbers), line)?, "{line:?}");
    }
    for (rows, line) in [
        ([].as_slice(), b"none\n".as_slice()),
        ([0].as_slice(), b"0\n".as_slice()),
        ([1, 2].as_slice(), b"1 2\n".as_slice()),
        (
            [0, 9, 10, 2_305_843_009_213_693_950].as_slice(),
            b"0 9 10 2305843009213693950\n".as_slice(),
        ),
    ] {
        let rows = RowNumbers::new(Vec::from_slice(alloc, rows)?);
        assert!(rt; tells(alloc, Reply::Rows(rows), line)?, "{line:?}");
    }
    Ok(())
}

#[test]
fn writes_counts_and_images(rt: HostRuntime) -> Result<(), Fail> {
    let alloc = rt.alloc();
    assert!(rt; tells(alloc, Reply::Done, b"ok\n")?);
    assert!(rt; tells(alloc, Reply::Count(0), b"0\n")?);
    assert!(rt; tells(alloc, Reply::Count(10), b"10\n")?);
    let most = Reply::Count(2_305_843_009_213_693_951);
    assert!(rt; tells(alloc, most, b"2305843009213693951\n")?);
    for (rows, bytes, line) in [
        (2, b"\xbe\x8c".as_slice(), b"2 be8c\n".as_slice()),
        (0, b"".as_slice(), b"0\n".as_slice()),
    ] {
        let bytes = ImageBytes::new(Vec::from_slice(alloc, bytes)?);
        assert!(rt;
            tells(alloc, Reply::Image { rows, bytes }, line)?,
            "{line:?}"
        );
    }
    let reply = Reply::Numbers(Numbers::new(Vec::from_slice(alloc, &[5, -1])?));
    assert!(rt; format!(in alloc; "{reply:?}")?.as_str() == "Numbers([5, -1])");
    Ok(())
}
