//! Bodies at the limits of what is kept and of what is read.

use crate::relaying::{Peer, are_replies, relayed, relayed_to};
use crate::texts::{GET_V, HEAD};
use dap_gateway::Relayed;
use dap_types::Memory;
use std::alloc::Global;
use std::test::Fail;

/// A reply with a data response of so many bytes, eight times `eights`, in one array; the line of its declaration and
/// the name of its dataset are these.
fn reply(alloc: Global, line: &[u8], name: &[u8], eights: u32) -> Result<Vec<u8>, Memory> {
    let mut reply = Vec::new(alloc);
    reply.extend_from_slice(b"HTTP/1.1 200 OK\r\n\r\nDataset {\n    ")?;
    reply.extend_from_slice(line)?;
    reply.extend_from_slice(b"\n} ")?;
    reply.extend_from_slice(name)?;
    reply.extend_from_slice(b";\nData:\n")?;
    let count = eights.saturating_mul(8).to_be_bytes();
    reply.extend_from_slice(&count)?;
    reply.extend_from_slice(&count)?;
    for _ in 0..eights {
        reply.extend_from_slice(b"12345678")?;
    }
    Ok(reply)
}

/// The DDS and the line behind it have 45 bytes and the name of the dataset, the two counts 8, and the values 1,048,520:
/// a name of three bytes makes 1,048,576; one of four makes one byte more, and the body is asked for again.
#[test]
fn a_body_is_kept_up_to_its_limit(rt: HostRuntime) -> Result<(), Fail> {
    let client: Peer = (GET_V, &[], &[]);
    for (name, kept) in [(b"vwx".as_slice(), true), (b"vwxy".as_slice(), false)] {
        let reply = reply(rt.alloc(), b"Byte b[n = 1048520];", name, 131_065)?;
        let server: Peer = (reply.as_slice(), &[], &[]);
        let done = relayed(
            rt.alloc(),
            &[server, server],
            &[],
            &[client, client],
            1,
            65_536,
        )?;
        assert!(rt; are_replies(done.ends.as_slice(), &[(200, false), (200, kept)]));
    }
    Ok(())
}

/// The DDS and the line behind it have 43 bytes and the name of the dataset, the two counts 8, and the values 65,480: a
/// name of four bytes makes 65,535, which goes out in one put with its head; one of five makes a whole chunk, which
/// goes out with the head, and behind it the last chunk; one of six makes one byte more, which goes out with that.
#[test]
fn a_body_is_one_put_below_a_chunk(rt: HostRuntime) -> Result<(), Fail> {
    for (name, framed, puts) in [
        (b"vwxy".as_slice(), 65_548, 1u64),
        (b"vwxyz".as_slice(), 65_550, 2),
        (b"vwxyza".as_slice(), 65_556, 2),
    ] {
        let reply = reply(rt.alloc(), b"Byte b[n = 65480];", name, 8_185)?;
        let server: Peer = (reply.as_slice(), &[], &[]);
        let clients: [Peer; 2] = [
            (GET_V, &[], &[puts.saturating_add(1)]),
            (GET_V, &[], &[puts]),
        ];
        let done = relayed(rt.alloc(), &[server], &[], &clients, 1, 131_072)?;
        let replied = Relayed::Replied {
            status: 200,
            hit: false,
        };
        assert_eq!(rt;
            done.ends.as_slice(),
            [replied, Relayed::WriteFault].as_slice()
        );
        match done.written.items() {
            [whole, front] => {
                assert_eq!(rt; whole.bytes().len(), HEAD.len().saturating_add(framed));
                assert!(rt; whole.bytes().starts_with(front.bytes()));
                assert_eq!(rt; front.bytes().is_empty(), puts == 1);
            }
            _ => return Err(Fail::from("two replies")),
        }
    }
    Ok(())
}

const TOO_LARGE: &[u8] =
    b"Error {\n    code = 24;\n    message = \"upstream reply too large\";\n};\n";

/// The DDS and the line behind it have 46 bytes and the name of the dataset, the two counts 8, and the values 67,108,808:
/// a name of two bytes makes 67,108,864; one of three makes one byte more.
#[test]
fn a_body_is_read_up_to_its_limit(rt: HostRuntime) -> Result<(), Fail> {
    let client: Peer = (GET_V, &[], &[]);
    for (name, status) in [(b"vw".as_slice(), 200), (b"vwx".as_slice(), 502)] {
        let reply = reply(rt.alloc(), b"Byte b[n = 67108808];", name, 8_388_601)?;
        let server: Peer = (reply.as_slice(), &[], &[]);
        let done = relayed_to(rt.alloc(), &[server], &[], &[client], 1, 65_536, 67_200_000)?;
        assert!(rt; are_replies(done.ends.as_slice(), &[(status, false)]));
        for written in done.written.items() {
            assert_eq!(rt; written.bytes().len() > 67_108_864, status == 200);
            assert_eq!(rt; written.bytes().ends_with(TOO_LARGE), status == 502);
        }
    }
    Ok(())
}
