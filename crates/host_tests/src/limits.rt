//! Short budgets over real sockets.

use dap_host::{Budget, ReadLimits, TcpLink, WriteLimits};
use dap_outside::{Sink, Source};
use std::io::Write;
use std::net::{Ipv4Addr, Net, OpenListener, TcpListener, TcpStream};
use std::test::Fail;
use std::time::{Clock, Duration, Instant};

fn millis(count: u64) -> Duration {
    Duration::from_millis(count)
}

/// A link of these limits, and the peer at its other end.
fn linked<N: Net + Clock>(
    net: &N,
    reading: ReadLimits,
    writing: WriteLimits,
) -> Result<(TcpLink<N::Stream, &N>, N::Stream), Fail> {
    let listener = TcpListener::bind(net, (Ipv4Addr::LOCALHOST, 0))?;
    let peer = TcpStream::connect(net, listener.local_addr()?)?;
    let (stream, _) = listener.accept()?;
    Ok((TcpLink::new(stream, net, reading, writing), peer))
}

/// Whether a take is a fault, behind at least this time and not seconds later.
fn fails_after<C: Clock, I: Source>(
    clock: &C,
    source: &mut I,
    time: Duration,
) -> Result<bool, Fail> {
    let begin = Instant::now(clock)?;
    let failed = source.take(&mut [0u8; 8]).is_err();
    let took = begin.elapsed(clock)?;
    Ok(failed && took >= time && took.saturating_sub(time) < Duration::from_secs(5))
}

#[test]
fn requests_over_a_socket(rt: HostRuntime) -> Result<(), Fail> {
    let reading = ReadLimits::new(
        millis(300),
        Some(Budget::new(millis(500), 0)),
        Budget::new(Duration::from_secs(9), 0),
    );
    let (mut link, _peer) = linked(&rt, reading, WriteLimits::put())?;
    for time in [300, 150, 0] {
        assert!(rt; fails_after(&rt, &mut link, millis(time))?, "{time}");
    }
    Ok(())
}

/// The second head has its own budget.
#[test]
fn heads_over_a_socket(rt: HostRuntime) -> Result<(), Fail> {
    let reading = ReadLimits::new(
        Duration::from_secs(9),
        Some(Budget::new(Duration::from_secs(9), 0)),
        Budget::new(millis(300), 0),
    );
    let (mut link, mut peer) = linked(&rt, reading, WriteLimits::put())?;
    for _ in 0..2 {
        assert_eq!(rt; peer.write(b"G")?, 1);
        assert!(rt; matches!(link.take(&mut [0u8; 8]), Ok(1)));
        assert!(rt; fails_after(&rt, &mut link, millis(300))?);
        assert!(rt; matches!(link.put(b"x"), Ok(1)));
    }
    Ok(())
}

/// Four bytes bring a second.
#[test]
fn a_reply_over_a_socket(rt: HostRuntime) -> Result<(), Fail> {
    let reading = ReadLimits::new(Duration::from_secs(9), None, Budget::new(millis(300), 4));
    let (mut link, mut peer) = linked(&rt, reading, WriteLimits::put())?;
    assert_eq!(rt; peer.write(b"HTTP")?, 4);
    assert!(rt; matches!(link.take(&mut [0u8; 8]), Ok(4)));
    assert!(rt; fails_after(&rt, &mut link, millis(1300))?);
    Ok(())
}

/// The peer takes nothing: what the system holds for it is put, and then nothing more.
#[test]
fn puts_over_a_socket(rt: HostRuntime) -> Result<(), Fail> {
    let writing = WriteLimits::new(Duration::from_secs(9), Budget::new(millis(300), 0));
    let (mut link, _peer) = linked(&rt, ReadLimits::served(), writing)?;
    let bytes = [0u8; 65_536];
    let begin = Instant::now(&rt)?;
    let failed = (0..1000u32).any(|_| link.put(&bytes).is_err());
    let took = begin.elapsed(&rt)?;
    assert!(rt; failed && took >= millis(300) && took < Duration::from_secs(8));
    Ok(())
}
