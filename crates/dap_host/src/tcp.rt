//! Where links over TCP come in and go out.

ghost use Rattle.std.specs.Prelude.{◌≡◌, [], IfOk, None, false};

use crate::{ReadLimits, TcpLink, WriteLimits};
use arrayvec::ArrayVec;
use dap_outside::{Dial, Door, Failed};
use dap_types::limits;
use std::cell::Cell;
use std::io;
use std::io::{ErrorKind, Read};
use std::net::{
    Ipv4Addr, Net, OpenListener, OpenStream, Shutdown, SocketAddr, TcpListener, TcpStream,
    ToSocketAddrs, UdpSocket,
};
use std::time::{Clock, Duration};

/// For how many seconds each address of a host is waited for.
const CONNECT: u64 = 10;

/// For how many milliseconds, and how many times, bytes of a link that is done are waited for.
const DRAIN_READ: u64 = 200;

const DRAINS: u32 = 16;

/// Whether an address is where this process itself listens: at its own port, on an address that a socket of this
/// machine can have.
fn is_own<N: Net>(net: &N, own: Option<u16>, address: &SocketAddr) -> bool
    ensures { own ≡ None → result ≡ false }
{
    match address {
        SocketAddr::V4(at) => own == Some(at.port()) && UdpSocket::bind(net, (*at.ip(), 0)).is_ok(),
        SocketAddr::V6(_) => false,
    }
}

/// A stream to an address, which is not where this process itself listens: it would wait for itself.
fn stream_at<N: Net>(net: &N, own: Option<u16>, address: &SocketAddr) -> io::Result<N::Stream> {
    if is_own(net, own, address) {
        return Err(io::Error::from(ErrorKind::AddrInUse));
    }
    TcpStream::connect_timeout(net, address, Duration::from_secs(CONNECT))
}

/// A stream to the first of a host's addresses that answers in time.
fn stream_to<N: Net>(net: &N, own: Option<u16>, host: &str, port: u16) -> io::Result<N::Stream> {
    let mut last = io::Error::from(ErrorKind::NotFound);
    for address in (host, port).to_socket_addrs(net)? {
        match stream_at(net, own, &address) {
            Ok(stream) => return Ok(stream),
            Err(why) => last = why,
        }
    }
    Err(last)
}

/// Ends a stream. Bytes that its peer still sends are taken for a while: a stream that is closed over
/// them is reset, and what was written last is lost.
fn end<T: Read + OpenStream + Drop>(mut stream: T) {
    let mut bytes = [0u8; 4096];
    if stream.shutdown(Shutdown::Write).is_err()
        || stream
            .set_read_timeout(Some(Duration::from_millis(DRAIN_READ)))
            .is_err()
    {
        return;
    }
    for _ in 0..DRAINS {
        match stream.read(&mut bytes) {
            Ok(count) if count > 0 => {}
            _ => return,
        }
    }
}

/// A door at a port of every IPv4 address of this machine.
#[derive(Drop)]
pub struct TcpDoor<'a, N: Net> {
    net: &'a N,
    own: &'a Cell<Option<u16>>,
    listener: Option<N::Listener>,
    port: Option<u16>,
    faults: u64,
}

impl<'a, N: Net + Clock> TcpDoor<'a, N> {
    /// A door that does not listen yet, and that notes in `own` at which port it does.
    pub fn new(net: &'a N, own: &'a Cell<Option<u16>>) -> TcpDoor<'a, N>
        ensures fresh { (result.port ≡ None) × (result.faults ≡ 0) }
    {
        TcpDoor {
            net,
            own,
            listener: None,
            port: None,
            faults: 0,
        }
    }

    /// The next stream, which sends small writes at once. One that broke off before it was accepted is passed over.
    fn next_stream(&self) -> io::Result<N::Stream> {
        let Some(listener) = self.listener.as_ref() else {
            return Err(io::Error::from(ErrorKind::NotConnected));
        };
        for _ in 0..u64::MAX {
            match listener.accept() {
                Ok((stream, _)) => {
                    if stream.set_nodelay(true).is_ok() {
                        return Ok(stream);
                    }
                }
                Err(e)
                    if e.kind() == ErrorKind::Interrupted
                        || e.kind() == ErrorKind::ConnectionAborted => {}
                Err(e) => return Err(e),
            }
        }
        Err(io::Error::from(ErrorKind::Interrupted))
    }
}

impl<'a, N: Net + Clock> Door for TcpDoor<'a, N> {
    ghost use Rattle.std.specs.Prelude.{None};

    type Wire = TcpLink<N::Stream, &'a N>;

    ghost back = { λ _. None };

    ghost spare = { λ _. 1 };

    ghost listens_at = { λ d. d.port };

    ghost faults = { λ d. d.faults };

    fn listen(&mut self, port: u16) -> Result<(), Failed> {
        match TcpListener::bind(self.net, (Ipv4Addr::UNSPECIFIED, port)) {
            Ok(listener) => {
                self.listener = Some(listener);
                self.port = Some(port);
                self.own.set(Some(port));
                Ok(())
            }
            Err(_) => {
                self.faults = self.faults.saturating_add(1);
                Err(Failed)
            }
        }
    }

    fn accept(&mut self) -> Result<TcpLink<N::Stream, &'a N>, Failed> {
        match self.next_stream() {
            Ok(stream) => Ok(TcpLink::new(
                stream,
                self.net,
                ReadLimits::served(),
                WriteLimits::put(),
            )),
            Err(_) => {
                self.faults = self.faults.saturating_add(1);
                Err(Failed)
            }
        }
    }

    fn done(&mut self, link: TcpLink<N::Stream, &'a N>) {
        end(link.into_stream());
    }
}

/// The bytes of a host's name.
const HOST: usize = limits::MOST_HOST;

/// Links to hosts and ports, but for those at which this process itself listens. It keeps the last of these, and takes no
/// memory.
#[derive(Drop)]
pub struct TcpDial<'a, N: Net> {
    net: &'a N,
    own: &'a Cell<Option<u16>>,
    host: ArrayVec<u8, HOST>,
    port: u16,
    faults: u64,
}

impl<'a, N: Net + Clock> TcpDial<'a, N> {
    /// A dial that has connected nothing yet. In `own` stands at which port this process listens, if it does.
    pub fn new(net: &'a N, own: &'a Cell<Option<u16>>) -> TcpDial<'a, N>
        ensures fresh { (result.host.items ≡ []) × (result.port ≡ 0) × (result.faults ≡ 0) }
    {
        TcpDial {
            net,
            own,
            host: ArrayVec::new(),
            port: 0,
            faults: 0,
        }
    }

    /// The name of a host, and a stream to its first address that answers in time.
    fn reached(&self, host: &str, port: u16) -> io::Result<(ArrayVec<u8, HOST>, N::Stream)>
        ensures { IfOk result (λ found. found.0.items ≡ host.now) }
    {
        let mut name = ArrayVec::new();
        if name.try_extend_from_slice(host.as_bytes()).is_err() {
            return Err(io::Error::from(ErrorKind::InvalidInput));
        }
        let stream = stream_to(self.net, self.own.get(), host, port)?;
        stream.set_nodelay(true)?;
        Ok((name, stream))
    }
}

impl<'a, N: Net + Clock> Dial for TcpDial<'a, N> {
    ghost use Rattle.std.specs.Prelude.{None};

    type Wire = TcpLink<N::Stream, &'a N>;

    ghost back = { λ _. None };

    ghost last = { λ d. (d.host.items, d.port) };

    ghost spare = { λ _. 1 };

    ghost faults = { λ d. d.faults };

    /// Connects to the first address of the host that answers within 10 seconds and at which this process does not listen
    /// itself. A host of more than 255 bytes is a fault.
    fn connect(&mut self, host: &str, port: u16) -> Result<TcpLink<N::Stream, &'a N>, Failed> {
        match self.reached(host, port) {
            Ok((name, stream)) => {
                self.host = name;
                self.port = port;
                Ok(TcpLink::new(stream, self.net, ReadLimits::asked(), WriteLimits::put()))
            }
            Err(_) => {
                self.faults = self.faults.saturating_add(1);
                Err(Failed)
            }
        }
    }

    fn done(&mut self, link: TcpLink<N::Stream, &'a N>) {
        end(link.into_stream());
    }
}
