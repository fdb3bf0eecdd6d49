//! Scripts from memory to memory: lines at their edges, and readers that give few bytes at a time.
use crate::{RunError, run};
use room::Room;
use std::io::{self, BufReader, ErrorKind, Read, Write};
use std::test::Fail;

const STORE: &[u8] = b"store P 2147483647 50554d503031 7\n";

const OWNER: &[u8] = b"ok 50554d503031000000ff000000000007\n";

/// What is answered to a store line and the script behind it, read so many bytes at a time.
fn answers(rt: &HostRuntime, ahead: usize, script: &[u8]) -> Result<Vec<u8>, Fail> {
    let alloc = rt.alloc();
    let mut whole = Vec::new(alloc);
    whole.extend_from_slice(STORE)?;
    whole.extend_from_slice(script)?;
    let mut input = BufReader::with_capacity(alloc, ahead, whole.as_slice())?;
    let mut output = Vec::new(alloc);
    run(&mut input, &mut output, &mut Room::new(alloc)?)?;
    Ok(output)
}

/// Whether the owner capability and these lines are answered, however few bytes are read at a time.
fn is_answered(rt: &HostRuntime, script: &[u8], lines: &[u8]) -> Result<bool, Fail> {
    for ahead in [1usize, 2, 7, 256, 8192] {
        let output = answers(rt, ahead, script)?;
        if output.strip_prefix(OWNER) != Some(lines) {
            return Ok(false);
        }
    }
    Ok(true)
}

#[test]
fn only_a_line_feed_ends_a_line(rt: HostRuntime) -> Result<(), Fail> {
    assert!(rt; is_answered(&rt, b"", b"")?);
    assert!(rt;
        is_answered(&rt, b"size A0", b"no 14 S 0\n")?,
        "the last line needs none"
    );
    assert!(rt;
        is_answered(&rt, b"size A0\n", b"no 14 S 0\n")?,
        "and no line is behind it"
    );
    assert!(rt;
        is_answered(&rt, b"\n", b"no 30 L 1\n")?,
        "a line of no bytes"
    );
    assert!(rt; is_answered(&rt, b"\n\n", b"no 30 L 1\nno 30 L 1\n")?);
    assert!(rt;
        is_answered(&rt, b"size A0\r\n", b"no 30 L 0\n")?,
        "a carriage return"
    );
    assert!(rt; is_answered(&rt, b"size\0A0\n", b"no 30 L 0\n")?);
    assert!(rt; is_answered(&rt, b"size \xff\n", b"no 30 L 0\n")?);
    Ok(())
}

/// A line that files a text of this many bytes, all of them 'x'.
fn filing(rt: &HostRuntime, count: usize) -> Result<Vec<u8>, Fail> {
    let alloc = rt.alloc();
    let mut line = Vec::new(alloc);
    line.extend_from_slice(b"file A0 9 ")?;
    for _ in 0..count {
        line.push(b'x')?;
    }
    line.extend_from_slice(b" A1\nsize A1\n")?;
    Ok(line)
}

#[test]
fn lines_of_255_bytes_are_taken(rt: HostRuntime) -> Result<(), Fail> {
    let longest = filing(&rt, 242)?;
    let answer = b"ok 50554d503031000001ff000000000009\nok 242\n";
    assert!(rt; is_answered(&rt, &longest, answer)?, "255 bytes");
    for count in [243usize, 244, 245, 246, 500, 9000] {
        let longer = filing(&rt, count)?;
        assert!(rt;
            is_answered(&rt, &longer, b"no 30 L 0\nno 31 L 2\n")?,
            "{count}"
        );
    }
    Ok(())
}

#[test]
fn a_refused_first_line_ends_the_script(rt: HostRuntime) -> Result<(), Fail> {
    let alloc = rt.alloc();
    let mut room = Room::new(alloc)?;
    for (script, lines) in [
        (b"".as_slice(), b"".as_slice()),
        (b"size A0\nsize A0\n", b"no 30 L 1\n"),
        (
            b"store P 2 50554d503031 7\nstore P 101 50554d503031 7\n",
            b"no 4 F 0\n",
        ),
        (b"store P 3413 50554d503031 1\n", b"no 3 S 0\n"),
        (
            b"store P 3413 50554d503031 2\nsize A0\n",
            b"ok 50554d503031000000ff000000000002\nno 14 S 0\n",
        ),
        (
            b"store D 3631 50554d503031 4\nstore D 3631 50554d503031 4\n",
            b"ok 50554d503031000000ff000000000004\nno 30 L 1\n",
        ),
    ] {
        let mut input = BufReader::new(alloc, script)?;
        let mut output = Vec::new(alloc);
        run(&mut input, &mut output, &mut room)?;
        assert!(rt; output.as_slice() == lines);
    }
    Ok(())
}

/// A writer that counts how often it is flushed.
#[derive(Drop)]
struct Flushed {
    times: u64,
}

impl Write for Flushed {
    fn write(&mut self, buf: &[u8]) -> io::Result<usize> {
        Ok(buf.len())
    }

    fn flush(&mut self) -> io::Result<()> {
        self.times = self.times.saturating_add(1);
        Ok(())
    }
}

#[test]
fn answers_are_flushed_where_no_input_is_at_hand(rt: HostRuntime) -> Result<(), Fail> {
    let alloc = rt.alloc();
    let script = b"store P 2147483647 50554d503031 7\nsize A0\nsize A0\n".as_slice();
    for (ahead, times) in [(1usize, 4u64), (8192, 2)] {
        let mut input = BufReader::with_capacity(alloc, ahead, script)?;
        let mut output = Flushed { times: 0 };
        run(&mut input, &mut output, &mut Room::new(alloc)?)?;
        assert_eq!(rt; output.times, times);
    }
    Ok(())
}

#[test]
fn lines_behind_a_refused_first_one_are_left_in_the_reader(rt: HostRuntime) -> Result<(), Fail> {
    let alloc = rt.alloc();
    let mut room = Room::new(alloc)?;
    for ahead in [1usize, 8192] {
        let script = b"size A0\nsize A0\n".as_slice();
        let mut input = BufReader::with_capacity(alloc, ahead, script)?;
        for lines in [b"no 30 L 1\n".as_slice(), b"no 30 L 1\n", b""] {
            let mut output = Vec::new(alloc);
            run(&mut input, &mut output, &mut room)?;
            assert!(rt; output.as_slice() == lines);
        }
    }
    Ok(())
}

/// A reader that fails where others are at their end.
#[derive(Drop)]
struct Broken<'a> {
    bytes: &'a [u8],
}

impl Read for Broken<'_> {
    fn read(&mut self, buf: &mut [u8]) -> io::Result<usize> {
        if self.bytes.is_empty() {
            return Err(ErrorKind::InvalidData.into());
        }
        self.bytes.read(buf)
    }
}

#[test]
fn whole_lines_before_a_failed_read_are_answered(rt: HostRuntime) -> Result<(), Fail> {
    let alloc = rt.alloc();
    let bytes = b"store P 2147483647 50554d503031 7\nsize A0\nsize A0".as_slice();
    let mut input = BufReader::new(alloc, Broken { bytes })?;
    let mut output = Vec::new(alloc);
    let ended = run(&mut input, &mut output, &mut Room::new(alloc)?);
    assert!(rt; matches!(ended, Err(RunError::Input(_))));
    assert!(rt; output.strip_prefix(OWNER) == Some(b"no 14 S 0\n".as_slice()));
    Ok(())
}

/// A writer that has room for nothing.
#[derive(Drop)]
struct Full;

impl Write for Full {
    fn write(&mut self, _: &[u8]) -> io::Result<usize> {
        Err(ErrorKind::StorageFull.into())
    }

    fn flush(&mut self) -> io::Result<()> {
        Ok(())
    }
}

#[test]
fn a_failed_write_is_told_as_such(rt: HostRuntime) -> Result<(), Fail> {
    let alloc = rt.alloc();
    let mut input = BufReader::new(alloc, b"size A0\n".as_slice())?;
    let ended = run(&mut input, &mut Full, &mut Room::new(alloc)?);
    assert!(rt; matches!(ended, Err(RunError::Output(_))));
    Ok(())
}
