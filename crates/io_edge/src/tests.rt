use crate::{
    IoFailed, MemorySink, MemorySource, ReadFault, RealSink, RealSource, Sink, Source, Text,
    read_all, told_in_memory, write_all,
};
use std::alloc::Allocator;
use std::fmt::Display;
use std::io;
use std::io::{BufRead, ErrorKind, Lines, Read};
use std::test::Fail;

#[test]
fn a_text_keeps_its_bytes(rt: HostRuntime) -> Result<(), Fail> {
    let text = Text::new(rt.alloc(), b"mkfs")?;
    assert_eq!(rt; text.slice(), b"mkfs".as_slice());
    let text = Text::from_vec(text.into_vec());
    assert_eq!(rt; text.slice(), b"mkfs".as_slice());
    Ok(())
}

#[test]
fn a_memory_source_gives_what_fits_and_nothing_where_it_fails(rt: HostRuntime) -> Result<(), Fail> {
    let alloc = rt.alloc();
    let mut source = MemorySource::new(b"abcde".to_vec(alloc)?, vec![in alloc; 2, 5]?);
    let cases = [
        (2, Ok(2), b"ab--"),
        (2, Err(IoFailed), b"----"),
        (4, Ok(3), b"cde-"),
        (0, Ok(0), b"----"),
        (4, Err(IoFailed), b"----"),
        (4, Ok(0), b"----"),
    ];
    for (size, answer, bytes) in cases {
        let mut piece = *b"----";
        assert_eq!(rt; source.read(&mut piece[..size]), answer);
        assert_eq!(rt; piece.as_slice(), bytes.as_slice());
    }
    assert_eq!(rt; source.calls(), 6);
    told_in_memory();
    Ok(())
}

#[test]
fn a_memory_sink_takes_what_fits(rt: HostRuntime) -> Result<(), Fail> {
    let alloc = rt.alloc();
    let mut sink = MemorySink::new(alloc, 4, vec![in alloc; 2]?)?;
    let cases = [
        (b"abc".as_slice(), Ok(3), b"abc".as_slice()),
        (b"d", Err(IoFailed), b"abc"),
        (b"def", Ok(1), b"abcd"),
        (b"ef", Err(IoFailed), b"abcd"),
        (b"", Ok(0), b"abcd"),
    ];
    for (piece, answer, written) in cases {
        assert_eq!(rt; sink.write(piece), answer);
        assert_eq!(rt; sink.written(), written);
    }
    assert_eq!(rt; sink.calls(), 5);
    Ok(())
}

#[test]
fn read_all_takes_up_to_its_limit(rt: HostRuntime) -> Result<(), Fail> {
    let alloc = rt.alloc();
    let cases = [
        (0, 0, 0, Ok(0)),
        (4, 4, 0, Ok(4)),
        (4, 3, 0, Err(ReadFault::TooLong)),
        (4, 4, 1, Err(ReadFault::Failed)),
        (4, 4, 2, Err(ReadFault::Failed)),
        (200_000, 200_000, 0, Ok(200_000)),
        (200_000, 199_999, 0, Err(ReadFault::TooLong)),
        (200_000, 199_999, 3, Err(ReadFault::Failed)),
    ];
    for (size, limit, fails_at, answer) in cases {
        let bytes = vec![in alloc; b'x'; size]?;
        let mut source = MemorySource::new(bytes, vec![in alloc; fails_at]?);
        let read = read_all(alloc, &mut source, limit).map(|text| text.slice().len());
        assert_eq!(rt; read, answer);
    }
    Ok(())
}

#[test]
fn write_all_stops_at_a_fault(rt: HostRuntime) -> Result<(), Fail> {
    let alloc = rt.alloc();
    let mut sink = MemorySink::new(alloc, 7, vec![in alloc; 3]?)?;
    assert_eq!(rt; write_all(&mut sink, b"abcd"), Ok(()));
    assert_eq!(rt; write_all(&mut sink, b"efgh"), Err(IoFailed));
    assert_eq!(rt; sink.written(), b"abcdefg".as_slice());
    Ok(())
}

#[test]
fn standard_input_ends_and_standard_output_takes_bytes(rt: HostRuntime) {
    let mut source = RealSource::new(&rt);
    let read = read_all(rt.alloc(), &mut source, 16).map(|text| text.slice().len());
    assert_eq!(rt; read, Ok(0));
    let mut sink = RealSink::new(&rt);
    assert_eq!(rt; write_all(&mut sink, b"taken\n"), Ok(()));
    assert_eq!(rt; sink.write(b""), Ok(0));
}

// An input of three bytes, or one that fails.
#[derive(Drop)]
struct OddReader {
    fails: bool,
}

impl Read for OddReader {
    fn read(&mut self, into: &mut [u8]) -> io::Result<usize> {
        if self.fails {
            return Err(io::Error::from(ErrorKind::Other));
        }
        let mut bytes = b"abc".as_slice();
        bytes.read(into)
    }
}

impl BufRead for OddReader {
    fn fill_buf(&mut self) -> io::Result<&[u8]> {
        Err(io::Error::from(ErrorKind::Other))
    }

    fn consume(&mut self, _amount: usize) {}
}

// A runtime with that input, and with an output that takes nothing.
#[derive(Drop)]
struct Odd {
    fails: bool,
}

impl Input for Odd {
    type Reader = OddReader;

    fn read_line<A: Allocator + Clone>(&self, into: &mut String<A>) -> io::Result<usize> {
        self.reader().read_line(into)
    }

    fn lines<A: Allocator>(&self, alloc: A) -> Lines<OddReader, A> {
        self.reader().lines(alloc)
    }

    fn reader(&self) -> OddReader {
        OddReader { fails: self.fails }
    }
}

impl Print for Odd {
    fn print<D: Display + Drop>(&self, _value: D) -> io::Result<()> {
        Ok(())
    }

    fn println<D: Display + Drop>(&self, _value: D) -> io::Result<()> {
        Ok(())
    }

    fn write_all(&self, _bytes: &[u8]) -> io::Result<()> {
        Ok(())
    }

    fn write_some(&self, _bytes: &[u8]) -> io::Result<usize> {
        Ok(0)
    }
}

#[test]
fn what_the_runtime_answers_is_handed_on_and_a_write_of_nothing_fails(rt: HostRuntime) {
    let mut piece = *b"----";
    let mut failing = RealSource::new(Odd { fails: true });
    assert_eq!(rt; failing.read(&mut piece), Err(IoFailed));
    let mut source = RealSource::new(Odd { fails: false });
    assert_eq!(rt; source.read(&mut piece), Ok(3));
    assert_eq!(rt; piece.as_slice(), b"abc-".as_slice());
    let mut sink = RealSink::new(Odd { fails: false });
    assert_eq!(rt; sink.write(b"x"), Err(IoFailed));
}
