//! A script read and answered in pieces, and runs that a fault ends.
ghost use Rattle.std.specs.Prelude.{◌≤◌, Some};

use bit_addressing_memory::Lsb0;
use bit_table_samples::{Cut, Narrow, Stop};
use bit_table_script::{Input, Output, RunError, run};
use std::io::{self, Write};
use std::test::Fail;

// Two rows and their image. The last line has no line end.
const SCRIPT: &[u8; 47] = b"high a:u3 b:i4\ninsert 0 5 -1\ninsert 1 2 3\nimage";

const ANSWER: &[u8; 16] = b"ok\nok\nok\n2 be8c\n";

// How many bytes are read at a time.
const PIECES: [usize; 4] = [1, 3, 13, 4096];

#[test]
fn answers_however_it_is_cut(rt: HostRuntime) -> Result<(), Fail> {
    for first in 0..48 {
        for piece in PIECES {
            assert!(rt; piece > 0);
            let mut input = Input::new(Cut {
                rest: SCRIPT.as_slice(),
                first,
                piece,
                until_fault: usize::MAX,
            });
            let mut output = Output::new(Vec::new(rt.alloc()));
            let result = run::<[u64; 16], Lsb0, _, _>(rt.alloc(), &mut input, &mut output);
            let faults = (input.failed(), output.failed());
            assert!(rt; (result, faults) == (Ok(()), (false, false)));
            assert!(rt; input.into_inner().rest.is_empty());
            assert!(rt;
                output.into_inner().as_slice() == ANSWER.as_slice(),
                "cut at {first}, then each {piece}"
            );
        }
    }
    Ok(())
}

// How many bytes of the answer are due once so many bytes of the script were read.
fn due(read: usize) -> usize
    ensures { result ≤ 9 }
{
    match read {
        0..=14 => 0,
        15..=28 => 3,
        29..=41 => 6,
        _ => 9,
    }
}

#[test]
fn a_read_fault_ends_it(rt: HostRuntime) -> Result<(), Fail> {
    for read in 0..48 {
        for piece in PIECES {
            assert!(rt; piece > 0);
            let mut input = Input::new(Cut {
                rest: SCRIPT.as_slice(),
                first: 0,
                piece,
                until_fault: read,
            });
            let mut output = Output::new(Vec::new(rt.alloc()));
            let result = run::<[u64; 16], Lsb0, _, _>(rt.alloc(), &mut input, &mut output);
            let faults = (input.failed(), output.failed());
            assert!(rt; (result, faults) == (Err(RunError::Read), (true, false)));
            assert!(rt;
                output.into_inner().as_slice() == &ANSWER[..due(read)],
                "after {read} bytes, each {piece}"
            );
        }
    }
    Ok(())
}

#[test]
fn a_write_fault_ends_it(rt: HostRuntime) -> Result<(), Fail> {
    for stop in [Stop::Never, Stop::Fails, Stop::TakesNone] {
        for most in [1, 3] {
            for room in 0..18usize {
                let mut input = Input::new(SCRIPT.as_slice());
                let mut output = Output::new(Narrow {
                    taken: Vec::new(rt.alloc()),
                    most,
                    room,
                    stop,
                });
                let result = run::<[u64; 16], Lsb0, _, _>(rt.alloc(), &mut input, &mut output);
                let count = if stop == Stop::Never {
                    ANSWER.len()
                } else {
                    room.min(ANSWER.len())
                };
                let is_cut = count < ANSWER.len();
                let wanted = if is_cut { Err(RunError::Write) } else { Ok(()) };
                let faults = (input.failed(), output.failed());
                assert!(rt; (result, faults) == (wanted, (false, is_cut)));
                let Narrow {
                    taken,
                    most: _,
                    room: _,
                    stop: _,
                } = output.into_inner();
                assert!(rt;
                    taken.as_slice() == &ANSWER[..count],
                    "{stop:?} after {room}"
                );
            }
        }
    }
    Ok(())
}

// Takes all that it is given, and counts how often it is given something.
#[derive(Drop)]
struct Counting {
    taken: Vec<u8>,
    calls: usize,
}

impl Write for Counting {
    ghost contents = { λ s. Some s.taken.items };

    fn write(&mut self, buf: &[u8]) -> io::Result<usize> {
        self.calls = self.calls.saturating_add(1);
        self.taken.extend_from_slice(buf)?;
        Ok(buf.len())
    }

    fn flush(&mut self) -> io::Result<()> {
        Ok(())
    }
}

// Five thousand lines are read in eight pieces, and their answers have ten thousand bytes.
#[test]
fn many_short_lines_take_few_writes(rt: HostRuntime) -> Result<(), Fail> {
    let mut script = Vec::from_slice(rt.alloc(), b"low f:u1\n")?;
    let mut answer = Vec::from_slice(rt.alloc(), b"ok\n")?;
    for _ in 0..5000 {
        script.extend_from_slice(b"image\n")?;
        answer.extend_from_slice(b"0\n")?;
    }
    let mut input = Input::new(script.as_slice());
    let mut output = Output::new(Counting {
        taken: Vec::new(rt.alloc()),
        calls: 0,
    });
    run::<[u64; 16], Lsb0, _, _>(rt.alloc(), &mut input, &mut output)?;
    let Counting { taken, calls } = output.into_inner();
    assert!(rt; taken.as_slice() == answer.as_slice());
    assert!(rt; calls <= 20, "{calls}");
    Ok(())
}
