//! For how long a peer is waited for: links over a stream and a clock in memory.

use dap_host::{Budget, ReadLimits, TcpLink, WriteLimits};
use dap_outside::{Sink, Source};
use std::cell::Cell;
use std::io::{self, ErrorKind, Read, Write};
use std::net::OpenStream;
use std::test::Fail;
use std::time::{Clock, Duration};

/// A clock that streams turn on, and that can be read or not.
#[derive(Drop)]
struct MemClock {
    now: Cell<Duration>,
    fails: bool,
}

impl MemClock {
    fn new(fails: bool) -> MemClock {
        MemClock {
            now: Cell::new(Duration::ZERO),
            fails,
        }
    }

    fn pass(&self, time: Duration) {
        self.now.set(self.now.get().saturating_add(time));
    }
}

impl Clock for MemClock {
    fn monotonic(&self) -> io::Result<Duration> {
        if self.fails {
            return Err(io::Error::from(ErrorKind::Other));
        }
        Ok(self.now.get())
    }

    fn since_1970(&self) -> io::Result<Duration> {
        Err(io::Error::from(ErrorKind::Unsupported))
    }
}

/// A stream that gives and takes so many bytes behind each pause, and none where its time-out comes before.
#[derive(Drop)]
struct SlowStream<'a> {
    clock: &'a MemClock,
    pause: Duration,
    piece: usize,
    read_time_out: Cell<Duration>,
    write_time_out: Cell<Duration>,
}

impl<'a> SlowStream<'a> {
    fn new(clock: &'a MemClock, pause: u64, piece: usize) -> SlowStream<'a> {
        SlowStream {
            clock,
            pause: Duration::from_millis(pause),
            piece,
            read_time_out: Cell::new(Duration::MAX),
            write_time_out: Cell::new(Duration::MAX),
        }
    }

    /// The pause, or the time-out, which is a fault.
    fn wait(&self, time_out: Duration) -> io::Result<()> {
        self.clock.pass(self.pause.min(time_out));
        if self.pause > time_out {
            return Err(io::Error::from(ErrorKind::WouldBlock));
        }
        Ok(())
    }
}

impl Read for SlowStream<'_> {
    fn read(&mut self, into: &mut [u8]) -> io::Result<usize> {
        self.wait(self.read_time_out.get())?;
        Ok(self.piece.min(into.len()))
    }
}

impl Write for SlowStream<'_> {
    fn write(&mut self, bytes: &[u8]) -> io::Result<usize> {
        self.wait(self.write_time_out.get())?;
        Ok(self.piece.min(bytes.len()))
    }

    fn flush(&mut self) -> io::Result<()> {
        Ok(())
    }
}

fn set(time_out: &Cell<Duration>, to: Option<Duration>) -> io::Result<()> {
    time_out.set(to.unwrap_or(Duration::MAX));
    Ok(())
}

impl OpenStream for SlowStream<'_> {
    fn set_read_timeout(&self, to: Option<Duration>) -> io::Result<()> {
        set(&self.read_time_out, to)
    }

    fn set_write_timeout(&self, to: Option<Duration>) -> io::Result<()> {
        set(&self.write_time_out, to)
    }
}

/// A peer that pauses for so many milliseconds before each piece of so many bytes.
#[derive(Clone, Copy)]
struct Peer {
    pause: u64,
    piece: usize,
    clock_fails: bool,
}

impl Peer {
    fn new(pause: u64, piece: usize) -> Peer {
        Peer {
            pause,
            piece,
            clock_fails: false,
        }
    }
}

/// How many of 1,000 pieces come from it, and how many milliseconds pass until then or until the fault. Between two
/// of them a byte is put, at once, where each piece is a request.
fn come_from(peer: Peer, reading: ReadLimits, requests: bool) -> (u32, u128) {
    let clock = MemClock::new(peer.clock_fails);
    let stream = SlowStream::new(&clock, peer.pause, peer.piece);
    let mut link = TcpLink::new(stream, &clock, reading, WriteLimits::put());
    let mut into = [0u8; 16_384];
    for came in 0..1000u32 {
        if link.take(&mut into).is_err() {
            return (came, clock.now.get().as_millis());
        }
        if requests {
            let before = clock.now.get();
            let _ = link.put(b"x");
            clock.now.set(before);
        }
    }
    (1000, clock.now.get().as_millis())
}

/// How many of 1,000 pieces it takes, and how many milliseconds pass until then or until the fault.
fn go_to(peer: Peer) -> (u32, u128) {
    let clock = MemClock::new(peer.clock_fails);
    let stream = SlowStream::new(&clock, peer.pause, peer.piece);
    let mut link = TcpLink::new(stream, &clock, ReadLimits::served(), WriteLimits::put());
    let bytes = [0u8; 65_536];
    for gone in 0..1000u32 {
        if link.put(&bytes).is_err() {
            return (gone, clock.now.get().as_millis());
        }
    }
    (1000, clock.now.get().as_millis())
}

/// Silent; a byte each 1.9 seconds: 5 seconds from the first on; the same where the clock fails.
#[test]
fn a_head_is_waited_for_by_its_budget(rt: HostRuntime) -> Result<(), Fail> {
    let failing = Peer {
        clock_fails: true,
        ..Peer::new(1900, 1)
    };
    for (peer, seen) in [
        (Peer::new(3000, 1), (0, 2000)),
        (Peer::new(1900, 1), (3, 6900)),
        (failing, (1000, 1_900_000)),
    ] {
        assert_eq!(rt; come_from(peer, ReadLimits::served(), false), seen);
    }
    Ok(())
}

/// A request each 1.8 seconds: 10 seconds in all; and a thousand, one each 5 milliseconds.
#[test]
fn requests_are_waited_for_by_their_budget(rt: HostRuntime) -> Result<(), Fail> {
    for (peer, seen) in [
        (Peer::new(1800, 40), (5, 10_000)),
        (Peer::new(5, 40), (1000, 5000)),
    ] {
        assert_eq!(rt; come_from(peer, ReadLimits::served(), true), seen);
    }
    Ok(())
}

/// Silent; a byte a second: 30 seconds from the first on; 8,192 bytes a second, which bring half a second each; and
/// 16,384.
#[test]
fn a_reply_is_waited_for_by_its_budget(rt: HostRuntime) -> Result<(), Fail> {
    for (peer, seen) in [
        (Peer::new(31_000, 1), (0, 30_000)),
        (Peer::new(1000, 1), (31, 31_000)),
        (Peer::new(1000, 8192), (61, 61_000)),
        (Peer::new(1000, 16_384), (1000, 1_000_000)),
    ] {
        assert_eq!(rt; come_from(peer, ReadLimits::asked(), false), seen);
    }
    Ok(())
}

/// Takes nothing; 40,960 bytes a second; and 65,536.
#[test]
fn a_peer_that_takes_is_waited_for_by_its_budget(rt: HostRuntime) -> Result<(), Fail> {
    for (peer, seen) in [
        (Peer::new(31_000, 1), (0, 30_000)),
        (Peer::new(100, 4096), (780, 78_000)),
        (Peer::new(1000, 65_536), (1000, 1_000_000)),
    ] {
        assert_eq!(rt; go_to(peer), seen);
    }
    Ok(())
}

/// A budget at the ends of its counts.
#[test]
fn a_budget_stays_at_its_ends(rt: HostRuntime) -> Result<(), Fail> {
    let budget = Budget::new(Duration::MAX, 1).spent(Duration::from_secs(1), usize::MAX);
    let left = budget.spent(Duration::ZERO, 5).left();
    assert_eq!(rt; left.as_nanos(), Duration::MAX.as_nanos() - 1_000_000_000);
    assert!(rt; budget.spent(Duration::MAX, 0).left().is_zero());
    Ok(())
}
