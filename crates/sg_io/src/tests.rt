use super::*;
use std::io;
use std::io::{Error, ErrorKind, Read, Write};
use std::test::Fail;

#[test]
fn reads_all_in_pieces(rt: HostRuntime) -> Result<(), Fail> {
    let bytes = b"abcdefgh".to_vec(rt.alloc())?;
    let mut source = MemorySource::new(bytes, 3, Vec::new(rt.alloc()));
    let mut piece = [0; 5];
    assert_eq!(rt; source.read(&mut piece), Ok(3));
    assert_eq!(rt; piece, *b"abc\0\0");
    let rest = read_all(rt.alloc(), &mut source)?;
    assert_eq!(rt; rest.as_slice(), b"defgh".as_slice());
    assert_eq!(rt; source.read(&mut piece), Ok(0));
    Ok(())
}

#[test]
fn reads_on_after_a_fault(rt: HostRuntime) -> Result<(), Fail> {
    let bytes = b"abcdefgh".to_vec(rt.alloc())?;
    let fails = [9, 2].to_vec(rt.alloc())?;
    let mut source = MemorySource::new(bytes, 3, fails);
    let first = read_all(rt.alloc(), &mut source);
    assert_eq!(rt; first.err(), Some(ReadEnd::Fault));
    let rest = read_all(rt.alloc(), &mut source)?;
    assert_eq!(rt; rest.as_slice(), b"defgh".as_slice());
    Ok(())
}

#[test]
fn reads_up_to_the_limit(rt: HostRuntime) -> Result<(), Fail> {
    let mut source = StdSource::new(io::repeat(b'x').take(67_108_864));
    assert_eq!(rt; read_all(rt.alloc(), &mut source)?.len(), 67_108_864);
    let mut source = StdSource::new(io::repeat(b'x').take(67_108_865));
    let end = read_all(rt.alloc(), &mut source).err();
    assert_eq!(rt; end, Some(ReadEnd::TooLong));
    Ok(())
}

#[test]
fn writes_all_in_pieces(rt: HostRuntime) -> Result<(), Fail> {
    let mut sink = MemorySink::new(rt.alloc(), 3, 8, Vec::new(rt.alloc()))?;
    write_all(&mut sink, b"abcdefgh")?;
    assert_eq!(rt; sink.taken(), b"abcdefgh".as_slice());
    Ok(())
}

#[test]
fn writes_ten_bytes_before_the_second_call_fails(rt: HostRuntime) -> Result<(), Fail> {
    let fails = [2].to_vec(rt.alloc())?;
    let mut sink = MemorySink::new(rt.alloc(), 10, 100, fails)?;
    let end = write_all(&mut sink, b"abcdefghijklmnopqrstuvwxyz");
    assert_eq!(rt; end, Err(WriteEnd { sent: 10 }));
    assert_eq!(rt; sink.taken(), b"abcdefghij".as_slice());
    assert_eq!(rt; sink.write(b"k"), Ok(1));
    Ok(())
}

#[test]
fn writes_until_the_room_is_full(rt: HostRuntime) -> Result<(), Fail> {
    let mut sink = MemorySink::new(rt.alloc(), 5, 7, Vec::new(rt.alloc()))?;
    let end = write_all(&mut sink, b"abcdefghij");
    assert_eq!(rt; end, Err(WriteEnd { sent: 7 }));
    assert_eq!(rt; sink.taken(), b"abcdefg".as_slice());
    assert_eq!(rt; sink.write(b"h"), Err(Failed));
    Ok(())
}

#[test]
fn copies_between_std_streams(rt: HostRuntime) -> Result<(), Fail> {
    let mut source = StdSource::new(b"one\ntwo\n".as_slice());
    let bytes = read_all(rt.alloc(), &mut source)?;
    let mut written = Vec::new(rt.alloc());
    let mut sink = StdSink::new(&mut written);
    write_all(&mut sink, bytes.as_slice())?;
    assert_eq!(rt; written.as_slice(), b"one\ntwo\n".as_slice());
    Ok(())
}

/// A stream that gives or takes one byte, then fails, and then is at its end or takes nothing.
#[derive(Drop)]
struct Broken {
    calls: u8,
}

impl Broken {
    fn step(&mut self) -> io::Result<usize> {
        self.calls = self.calls.saturating_add(1);
        match self.calls {
            1 => Ok(1),
            2 => Err(Error::from(ErrorKind::BrokenPipe)),
            _ => Ok(0),
        }
    }
}

impl Read for Broken {
    fn read(&mut self, into: &mut [u8]) -> io::Result<usize> {
        Ok(self.step()?.min(into.len()))
    }
}

impl Write for Broken {
    fn write(&mut self, piece: &[u8]) -> io::Result<usize> {
        Ok(self.step()?.min(piece.len()))
    }

    fn flush(&mut self) -> io::Result<()> {
        Ok(())
    }
}

#[test]
fn hands_on_the_errors_of_std_streams(rt: HostRuntime) -> Result<(), Fail> {
    let mut source = StdSource::new(Broken { calls: 0 });
    let end = read_all(rt.alloc(), &mut source).err();
    assert_eq!(rt; end, Some(ReadEnd::Fault));
    assert_eq!(rt; read_all(rt.alloc(), &mut source)?.len(), 0);
    let mut sink = StdSink::new(Broken { calls: 0 });
    assert_eq!(rt; write_all(&mut sink, b"abc"), Err(WriteEnd { sent: 1 }));
    assert_eq!(rt; write_all(&mut sink, b"bc"), Err(WriteEnd { sent: 0 }));
    Ok(())
}

#[test]
fn says_why_it_ended(rt: HostRuntime) -> Result<(), Fail> {
    let end = WriteEnd { sent: 10 };
    let text = format!(in rt.alloc(); "{end}; {}; {}", ReadEnd::Fault, Failed)?;
    assert_eq!(rt;
        text.as_str(),
        "writing failed after 10 bytes; reading failed; the object failed"
    );
    let text = format!(in rt.alloc(); "{}; {}", ReadEnd::TooLong, ReadEnd::OutOfMemory)?;
    assert_eq!(rt; text.as_str(), "more than 67108864 bytes; out of memory");
    Ok(())
}
