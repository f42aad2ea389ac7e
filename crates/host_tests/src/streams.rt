//! Readers and writers as a source, a sink and a link.

use dap_host::{ReadLimits, StdSink, StdSource, TcpLink, WriteLimits};
use dap_outside::{Sink, Source};
use std::io::{self, ErrorKind, Read, Write};
use std::net::OpenStream;
use std::test::Fail;
use std::time::Duration;

const TEXT: &[u8] = b"station,depth:Int32\nA1,5\nB22,-7\n";

/// A stream that gives this text, one byte, then two, then three a read and so on, and takes as many bytes in all
/// as there is room, one a write. Its first call in each way is interrupted where a signal comes, and once the text
/// is given every read fails where it is reset.
#[derive(Drop)]
struct Stream<'t> {
    text: &'t [u8],
    piece: usize,
    room: usize,
    read_signal: bool,
    write_signal: bool,
    reset: bool,
}

impl<'t> Stream<'t> {
    fn of(text: &'t [u8], room: usize) -> Stream<'t> {
        Stream {
            text,
            piece: 0,
            room,
            read_signal: false,
            write_signal: false,
            reset: false,
        }
    }
}

impl Read for Stream<'_> {
    fn read(&mut self, into: &mut [u8]) -> io::Result<usize> {
        if self.read_signal {
            self.read_signal = false;
            return Err(io::Error::from(ErrorKind::Interrupted));
        }
        if self.text.is_empty() && self.reset {
            return Err(io::Error::from(ErrorKind::ConnectionReset));
        }
        self.piece = self.piece % 3 + 1;
        let count = self.piece.min(into.len()).min(self.text.len());
        let (front, rest) = self.text.split_at(count);
        into[..count].copy_from_slice(front);
        self.text = rest;
        Ok(count)
    }
}

impl Write for Stream<'_> {
    fn write(&mut self, bytes: &[u8]) -> io::Result<usize> {
        if self.write_signal {
            self.write_signal = false;
            return Err(io::Error::from(ErrorKind::Interrupted));
        }
        let count = self.room.min(bytes.len()).min(1);
        self.room -= count;
        Ok(count)
    }

    fn flush(&mut self) -> io::Result<()> {
        Ok(())
    }
}

impl OpenStream for Stream<'_> {
    fn set_read_timeout(&self, _to: Option<Duration>) -> io::Result<()> {
        Ok(())
    }

    fn set_write_timeout(&self, _to: Option<Duration>) -> io::Result<()> {
        Ok(())
    }
}

/// A reader and a writer of which every call fails.
#[derive(Drop)]
struct Broken;

impl Read for Broken {
    fn read(&mut self, _into: &mut [u8]) -> io::Result<usize> {
        Err(io::Error::from(ErrorKind::Other))
    }
}

impl Write for Broken {
    fn write(&mut self, _bytes: &[u8]) -> io::Result<usize> {
        Err(io::Error::from(ErrorKind::Other))
    }

    fn flush(&mut self) -> io::Result<()> {
        Err(io::Error::from(ErrorKind::Other))
    }
}

/// What a source gives call by call, how many bytes that are, and whether the last call was the end.
fn read_by_calls<I: Source>(source: &mut I) -> ([u8; 64], usize, bool) {
    let mut text = [0u8; 64];
    let mut at = 0;
    for _ in 0..64 {
        if at >= text.len() {
            break;
        }
        match source.take(&mut text[at..]) {
            Ok(0) => return (text, at, true),
            Ok(count) => at += count,
            Err(_) => return (text, at, false),
        }
    }
    (text, at, false)
}

#[test]
fn a_source_gives_what_short_reads_give(rt: HostRuntime) -> Result<(), Fail> {
    let mut into = [0u8; 4];
    let mut source = StdSource::new(Stream::of(TEXT, 0));
    let (text, count, ended) = read_by_calls(&mut source);
    assert!(rt; text.starts_with(TEXT));
    assert_eq!(rt; (count, ended), (TEXT.len(), true));
    assert!(rt; matches!(source.take(&mut into), Ok(0)));
    let mut broken = StdSource::new(Broken);
    assert!(rt; broken.take(&mut into).is_err());
    assert!(rt; broken.take(&mut into).is_err());
    Ok(())
}

#[test]
fn a_sink_tells_how_many_bytes_the_writer_took(rt: HostRuntime) -> Result<(), Fail> {
    let mut room = [0u8; 2];
    let mut full = StdSink::new(room.as_mut_slice());
    assert!(rt; matches!(full.put(b"abc"), Ok(2)));
    assert!(rt; full.put(b"c").is_err());
    assert_eq!(rt; &room, b"ab");
    let mut broken = StdSink::new(Broken);
    assert!(rt; broken.put(b"ab").is_err());
    Ok(())
}

/// With a signal before the first read, and reset behind the text or ended there.
#[test]
fn a_reset_is_a_fault_and_no_end(rt: HostRuntime) -> Result<(), Fail> {
    for (read_signal, reset) in [(false, false), (true, false), (false, true), (true, true)] {
        let stream = Stream {
            read_signal,
            reset,
            ..Stream::of(TEXT, 0)
        };
        let mut link = TcpLink::new(stream, &rt, ReadLimits::served(), WriteLimits::put());
        let (text, count, ended) = read_by_calls(&mut link);
        assert!(rt; text.starts_with(TEXT));
        assert_eq!(rt; (count, ended), (TEXT.len(), !reset));
        let mut into = [0u8; 4];
        assert_eq!(rt; link.take(&mut into).is_err(), reset);
    }
    Ok(())
}

#[test]
fn a_put_tells_how_many_bytes_the_stream_took(rt: HostRuntime) -> Result<(), Fail> {
    for write_signal in [false, true] {
        let stream = Stream {
            write_signal,
            ..Stream::of(b"", 2)
        };
        let mut link = TcpLink::new(stream, &rt, ReadLimits::served(), WriteLimits::put());
        assert!(rt; matches!(link.put(b"abc"), Ok(1)));
        assert!(rt; matches!(link.put(b"bc"), Ok(1)));
        assert!(rt; link.put(b"c").is_err());
    }
    Ok(())
}
