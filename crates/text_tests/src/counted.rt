//! A counted reader or writer answers each call as its own one does, and counts its failures, where no bytes move or none are known.

use boc_text::{Counted, Failed, Sink, Source};
use std::io::{self, Read, Write};

/// Answers one call after another: it moves this many bytes at most, or fails where there is no number.
#[derive(Drop)]
struct Scripted {
    answers: [Option<usize>; 3],
    calls: usize,
}

impl Scripted {
    fn new(answers: [Option<usize>; 3]) -> Scripted {
        Scripted { answers, calls: 0 }
    }

    // Returns the answer to the next call.
    fn call(&mut self) -> io::Result<usize> {
        let answer = self.answers.get(self.calls).copied();
        self.calls = self.calls.saturating_add(1);
        match answer {
            Some(Some(most)) => Ok(most),
            _ => Err(io::Error::from(io::ErrorKind::Other)),
        }
    }
}

impl Read for Scripted {
    fn read(&mut self, buf: &mut [u8]) -> io::Result<usize> {
        let most = self.call()?;
        if most > 0 {
            if let Some(byte) = buf.first_mut() {
                *byte = b'a';
            }
        }
        Ok(most.min(buf.len()))
    }
}

impl Write for Scripted {
    fn write(&mut self, buf: &[u8]) -> io::Result<usize> {
        let most = self.call()?;
        Ok(most.min(buf.len()))
    }

    fn flush(&mut self) -> io::Result<()> {
        Ok(())
    }
}

// What three calls answered, how many failures were counted, and how many calls were made.
type Answered = ([Result<usize, Failed>; 3], u64, usize);

fn read_thrice(answers: [Option<usize>; 3]) -> Answered {
    let mut buffer = [0; 4];
    let mut reader = Counted::new(Scripted::new(answers));
    let read = [
        reader.read(&mut buffer),
        reader.read(&mut buffer),
        reader.read(&mut buffer),
    ];
    (read, reader.failures, reader.inner.calls)
}

fn written_thrice(answers: [Option<usize>; 3]) -> Answered {
    let mut writer = Counted::new(Scripted::new(answers));
    let written = [
        writer.write(b"bc"),
        writer.write(b"bc"),
        writer.write(b"bc"),
    ];
    (written, writer.failures, writer.inner.calls)
}

#[test]
fn failed_call_is_counted_and_not_made_again(rt: HostRuntime) {
    let (one, no) = (Ok(1), Err(Failed));
    for (answers, wanted, failures) in [
        ([Some(1), Some(1), Some(1)], [one, one, one], 0),
        ([None, Some(1), Some(1)], [no, one, one], 1),
        ([Some(1), None, Some(1)], [one, no, one], 1),
        ([Some(1), Some(1), None], [one, one, no], 1),
        ([None, None, None], [no, no, no], 3),
    ] {
        assert_eq!(rt; read_thrice(answers), (wanted, failures, 3));
        assert_eq!(rt; written_thrice(answers), (wanted, failures, 3));
    }
}

#[test]
fn bytes_are_put_where_the_reader_puts_them(rt: HostRuntime) {
    let mut buffer = [0; 4];
    let mut reader = Counted::new(Scripted::new([Some(1), Some(0), None]));
    assert_eq!(rt; reader.read(&mut buffer), Ok(1));
    assert_eq!(rt; reader.read(&mut buffer), Ok(0));
    assert_eq!(rt; buffer.as_slice(), b"a\0\0\0".as_slice());
    assert_eq!(rt; reader.failures, 0);
}

#[test]
fn writer_that_takes_nothing_fails_where_there_is_something(rt: HostRuntime) {
    let mut writer = Counted::new(Scripted::new([Some(0), Some(0), None]));
    assert_eq!(rt; (writer.write(b""), writer.failures), (Ok(0), 0));
    assert_eq!(rt; (writer.write(b"a"), writer.failures), (Err(Failed), 1));
    assert_eq!(rt; (writer.write(b""), writer.failures), (Err(Failed), 2));
}
