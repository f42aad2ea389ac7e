//! A door over a network in memory.

use dap_host::TcpDoor;
use dap_outside::{Door, Source};
use std::cell::Cell;
use std::io::{self, ErrorKind, Read, Write};
use std::net::{Ipv4Addr, Net, OpenListener, OpenStream, SocketAddr};
use std::os::fd::{AsRawFd, RawFd};
use std::test::Fail;
use std::time::{Clock, Duration};

/// A network whose listeners give, one after the other, a stream that broke off before it was accepted, a signal, a
/// stream that broke off right behind, and a good one, and fail from then on.
#[derive(Drop)]
struct MemNet;

#[derive(Drop)]
struct Queue {
    accepted: Cell<u8>,
}

/// The stream of so many calls, which gives that number.
#[derive(Drop)]
struct Numbered {
    number: u8,
}

impl AsRawFd for Queue {
    fn as_raw_fd(&self) -> RawFd {
        -1
    }
}

impl AsRawFd for Numbered {
    fn as_raw_fd(&self) -> RawFd {
        -1
    }
}

impl OpenListener for Queue {
    type Stream = Numbered;

    fn accept(&self) -> io::Result<(Numbered, SocketAddr)> {
        let number = self.accepted.get().saturating_add(1);
        self.accepted.set(number);
        match number {
            1 => Err(io::Error::from(ErrorKind::ConnectionAborted)),
            2 => Err(io::Error::from(ErrorKind::Interrupted)),
            3 | 4 => Ok((
                Numbered { number },
                SocketAddr::from((Ipv4Addr::LOCALHOST, 1)),
            )),
            _ => Err(io::Error::from(ErrorKind::Other)),
        }
    }
}

impl OpenStream for Numbered {
    fn set_nodelay(&self, _nodelay: bool) -> io::Result<()> {
        if self.number == 3 {
            return Err(io::Error::from(ErrorKind::InvalidInput));
        }
        Ok(())
    }

    fn set_read_timeout(&self, _to: Option<Duration>) -> io::Result<()> {
        Ok(())
    }
}

impl Read for Numbered {
    fn read(&mut self, into: &mut [u8]) -> io::Result<usize> {
        let count = into.len().min(1);
        into[..count].fill(self.number);
        Ok(count)
    }
}

impl Write for Numbered {
    fn write(&mut self, _bytes: &[u8]) -> io::Result<usize> {
        Err(io::Error::from(ErrorKind::BrokenPipe))
    }

    fn flush(&mut self) -> io::Result<()> {
        Ok(())
    }
}

impl Net for MemNet {
    type Stream = Numbered;

    type Listener = Queue;

    fn bind(&self, _address: SocketAddr) -> io::Result<Queue> {
        Ok(Queue {
            accepted: Cell::new(0),
        })
    }

    fn connect(&self, _address: SocketAddr) -> io::Result<Numbered> {
        Err(io::Error::from(ErrorKind::ConnectionRefused))
    }
}

impl Clock for MemNet {
    fn monotonic(&self) -> io::Result<Duration> {
        Ok(Duration::ZERO)
    }

    fn since_1970(&self) -> io::Result<Duration> {
        Ok(Duration::ZERO)
    }
}

#[test]
fn a_stream_that_broke_off_is_passed_over(rt: HostRuntime) -> Result<(), Fail> {
    let own = Cell::new(None);
    let mut door = TcpDoor::new(&MemNet, &own);
    if door.listen(8080).is_err() {
        return Err(Fail::from("does not listen"));
    }
    let mut into = [0u8; 1];
    match door.accept() {
        Ok(mut link) => assert!(rt; matches!(link.take(&mut into), Ok(1))),
        Err(_) => return Err(Fail::from("not accepted")),
    }
    assert_eq!(rt; into, [4]);
    assert!(rt; door.accept().is_err());
    Ok(())
}
