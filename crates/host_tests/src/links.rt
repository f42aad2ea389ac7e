//! Links over TCP.

use crate::ports::port_of;
use dap_host::{TcpDial, TcpDoor, TcpLink};
use dap_outside::{Dial, Door, Source, put_all};
use std::cell::Cell;
use std::net::{Ipv4Addr, Net, OpenListener, TcpListener};
use std::test::Fail;
use std::time::Clock;

/// A peer at this address that is connected to the door, and the door's link to it.
fn joined<'a, N: Net + Clock>(
    dial: &mut TcpDial<'a, N>,
    door: &mut TcpDoor<'a, N>,
    host: &str,
) -> Result<(TcpLink<N::Stream, &'a N>, TcpLink<N::Stream, &'a N>), Fail> {
    let Some(port) = port_of(door) else {
        return Err(Fail::from("no port"));
    };
    let Ok(peer) = dial.connect(host, port) else {
        return Err(Fail::from("not connected"));
    };
    let Ok(link) = door.accept() else {
        return Err(Fail::from("not accepted"));
    };
    Ok((peer, link))
}

// A stream that is closed over bytes that came is reset; then the peer reads no end behind the reply.
#[test]
fn a_link_that_is_done_ends_behind_what_was_put(rt: HostRuntime) -> Result<(), Fail> {
    for host in ["127.0.0.1", "127.0.0.2", "localhost"] {
        let (here, there) = (Cell::new(None), Cell::new(None));
        let mut door = TcpDoor::new(&rt, &here);
        let mut dial = TcpDial::new(&rt, &there);
        let (mut peer, mut link) = joined(&mut dial, &mut door, host)?;
        if put_all(&mut peer, b"asked").is_err() || put_all(&mut link, b"reply").is_err() {
            return Err(Fail::from("not sent"));
        }
        door.done(link);
        let mut reply = [0u8; 8];
        assert!(rt; matches!(peer.take(&mut reply), Ok(5)));
        assert_eq!(rt; &reply[..5], b"reply".as_slice());
        assert!(rt; matches!(peer.take(&mut reply), Ok(0)));
        dial.done(peer);
    }
    Ok(())
}

/// A peer listens at one address alone. A name of 256 bytes is that of no host.
#[test]
fn a_dial_goes_to_the_host_that_it_is_given(rt: HostRuntime) -> Result<(), Fail> {
    let name = [b'h'; 256];
    let (Ok(long), Ok(longer)) = (str::from_utf8(&name[..255]), str::from_utf8(&name)) else {
        return Err(Fail::from("no text"));
    };
    let listener = TcpListener::bind(&rt, (Ipv4Addr::new(127, 0, 0, 2), 0))?;
    let port = listener.local_addr()?.port();
    let own = Cell::new(None);
    let mut dial = TcpDial::new(&rt, &own);
    for (host, is_there) in [
        ("127.0.0.1", false),
        ("127.0.0.2", true),
        ("127.0.0.3", false),
        ("localhost", false),
        ("no host", false),
        (long, false),
        (longer, false),
    ] {
        match dial.connect(host, port) {
            Ok(peer) => {
                assert!(rt; is_there, "{host}");
                dial.done(peer);
            }
            Err(_) => assert!(rt; !is_there, "{host}"),
        }
    }
    Ok(())
}

#[test]
fn a_port_that_is_taken_is_a_fault(rt: HostRuntime) -> Result<(), Fail> {
    let own = Cell::new(None);
    let mut door = TcpDoor::new(&rt, &own);
    let Some(port) = port_of(&mut door) else {
        return Err(Fail::from("no port"));
    };
    let mut second = TcpDoor::new(&rt, &own);
    assert!(rt; second.listen(port).is_err());
    Ok(())
}

/// A dial goes to no address of this machine at the port at which its own process listens, and to another port there.
#[test]
fn a_dial_does_not_go_to_its_own_door(rt: HostRuntime) -> Result<(), Fail> {
    let (own, other) = (Cell::new(None), Cell::new(None));
    let mut door = TcpDoor::new(&rt, &own);
    let mut next = TcpDoor::new(&rt, &other);
    let (Some(port), Some(next_port)) = (port_of(&mut door), port_of(&mut next)) else {
        return Err(Fail::from("no port"));
    };
    let mut dial = TcpDial::new(&rt, &own);
    for host in ["127.0.0.1", "127.0.0.2", "0.0.0.0", "localhost"] {
        assert!(rt; dial.connect(host, port).is_err(), "{host}");
        match dial.connect(host, next_port) {
            Ok(peer) => dial.done(peer),
            Err(_) => return Err(Fail::from("not connected")),
        }
    }
    Ok(())
}
