//! Runs of lines through a machine that answers each by itself.
use bit_table_samples::{Echo, echoed};
use bit_table_script::{Input, Output, RunError, drive};
use std::test::Fail;

const SCRIPT: &[u8; 12] = b"a\n\r\nbc\n\nlast";

const ANSWER: &[u8; 13] = b"a\n\r\nbc\n\nlast\n";

#[test]
fn want_of_memory_ends_it(rt: HostRuntime) -> Result<(), Fail> {
    for (lines, due) in [(0, 0), (1, 2), (3, 7), (4, 8)] {
        let mut machine = Echo {
            alloc: rt.alloc(),
            until_fault: lines,
        };
        let mut input = Input::new(SCRIPT.as_slice());
        let mut output = Output::new(Vec::new(rt.alloc()));
        let result = drive(rt.alloc(), &mut machine, &mut input, &mut output);
        let faults = (input.failed(), output.failed());
        assert!(rt; (result, faults) == (Err(RunError::Memory), (false, false)));
        assert!(rt;
            output.into_inner().as_slice() == &ANSWER[..due],
            "after {lines} lines"
        );
    }
    Ok(())
}

// The script in pieces of 1 to 16 bytes, and a line longer than any piece.
#[test]
fn is_proved_of_fakes_too(rt: HostRuntime) -> Result<(), Fail> {
    for most in 1..17 {
        let text = echoed(rt.alloc(), SCRIPT.as_slice(), most)?;
        assert!(rt; text.as_slice() == ANSWER.as_slice(), "in pieces of {most}");
    }
    let mut long = vec![in rt.alloc(); b'x'; 9000]?;
    long.extend_from_slice(b"\ny")?;
    let text = echoed(rt.alloc(), long.as_slice(), 4096)?;
    long.push(b'\n')?;
    assert!(rt; text.as_slice() == long.as_slice());
    Ok(())
}
