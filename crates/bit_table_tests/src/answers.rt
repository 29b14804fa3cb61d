//! The texts of causes, faults and errors, and lists of items.
use bit_table_commands::{ImageBytes, Values};
use bit_table_layout::{Cause, Fault, LayoutError};
use bit_table_script::RunError;
use std::alloc::Global;
use std::process::Abort;
use std::test::Fail;

// The word, the text and the answer line of a cause.
fn check_cause(rt: &impl Abort, alloc: Global, cause: Cause, word: &str) -> Result<(), Fail> {
    assert!(rt; cause.word() == word);
    assert!(rt; format!(in alloc; "{cause}")?.as_str() == word);
    let line = format!(in alloc; "refused {word}\n")?;
    assert!(rt; cause.line(alloc)?.as_slice() == line.as_bytes());
    Ok(())
}

#[test]
fn names_causes(rt: HostRuntime) -> Result<(), Fail> {
    for (cause, word) in [
        (Cause::Layout, "layout"),
        (Cause::Form, "form"),
        (Cause::Field, "field"),
        (Cause::Row, "row"),
        (Cause::Value, "value"),
        (Cause::Full, "full"),
        (Cause::Image, "image"),
        (Cause::Kept, "kept"),
    ] {
        check_cause(&rt, rt.alloc(), cause, word)?;
    }
    Ok(())
}

#[test]
fn shows_faults(rt: HostRuntime) -> Result<(), Fail> {
    for (fault, text) in [
        (Fault::Refused(Cause::Form), "refused form"),
        (Fault::Memory, "no memory"),
    ] {
        assert!(rt; format!(in rt.alloc(); "{fault}")?.as_str() == text);
    }
    for (error, text) in [
        (RunError::Read, "read fault"),
        (RunError::Write, "write fault"),
        (RunError::Memory, "no memory"),
    ] {
        assert!(rt; format!(in rt.alloc(); "{error}")?.as_str() == text);
    }
    for (error, text) in [
        (LayoutError::Refused, "no layout line"),
        (LayoutError::Memory, "no memory"),
    ] {
        assert!(rt; error.to_string(rt.alloc())?.as_str() == text);
    }
    Ok(())
}

#[test]
fn shows_items(rt: HostRuntime) -> Result<(), Fail> {
    let image = ImageBytes::new(Vec::from_slice(rt.alloc(), b"\x01\xfe")?);
    assert!(rt; format!(in rt.alloc(); "{image:?}")?.as_str() == "[1, 254]");
    assert!(rt; image.into_vec().as_slice() == b"\x01\xfe".as_slice());
    let values = Values::new(Vec::from_slice(rt.alloc(), &[3, -1])?);
    let others = Values::new(Vec::from_slice(rt.alloc(), &[3, 1])?);
    assert!(rt; values.as_slice() == [3, -1].as_slice());
    assert!(rt; values == values && values != others);
    assert!(rt; format!(in rt.alloc(); "{values:?}")?.as_str() == "[3, -1]");
    Ok(())
}
