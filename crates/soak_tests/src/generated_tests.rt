//! The generated file, its request, its reply and what is read of it, by `soak`'s own calls.

use soak::{soak, soak_file, soak_reply, soak_request};
use std::test::Fail;

/// One record from seed 1: the header, and the first and the last values of `s` and `i`.
#[test]
fn a_file_of_one_record(rt: HostRuntime) -> Result<(), Fail> {
    let file = soak_file(rt.alloc(), 1, 1)?;
    let bytes = file.bytes();
    assert_eq!(rt; bytes.len(), 6300);
    assert!(rt;
        bytes.starts_with(
            b"CDF\x01\0\0\0\x01\0\0\0\x0a\0\0\0\x03\0\0\0\x01t\0\0\0\0\0\0\0\0\0\0\x01y\0\0\0\0\0\0\x20"
        )
    );
    let shorts = bytes.get(152..162);
    assert_eq!(rt;
        shorts,
        Some(b"\0\0\x08\x9c\x6c\x57\x82\x68\xa5\xfa".as_slice())
    );
    let ints = bytes.get(2204..2216);
    assert_eq!(rt;
        ints,
        Some(b"\xe8\x42\x5d\x2f\x9a\xd4\x84\x4e\xef\x3c\xbe\xa6".as_slice())
    );
    assert!(rt; bytes.ends_with(b"\x67\x99\xd1\x9b"));
    Ok(())
}

/// The request for three records.
#[test]
fn a_part_of_each_variable_is_asked(rt: HostRuntime) -> Result<(), Fail> {
    let request = soak_request(rt.alloc(), 3)?;
    assert_eq!(rt;
        request.bytes(),
        b"GET /soak.nc.dods?s%5B0:2:2%5D%5B0:31%5D%5B1:3:31%5D,i%5B0:2%5D%5B31:31%5D%5B0:31%5D HTTP/1.1\r\nHost: localhost:80\r\nUser-Agent: dap2/1.0\r\nAccept-Encoding: identity\r\nConnection: close\r\n\r\n".as_slice()
    );
    Ok(())
}

/// The reply: the head, a chunk of 3,314 bytes and the last one.
#[test]
fn three_records_are_served(rt: HostRuntime) -> Result<(), Fail> {
    let reply = soak_reply(&rt, rt.alloc(), 1, 3)?;
    let bytes = reply.bytes();
    let head =
        b"HTTP/1.1 200 OK\r\nXDODS-Server: dap2/1.0\r\nXDAP: 2.0\r\nContent-Description: dods_data\r\nContent-Type: application/octet-stream\r\nTransfer-Encoding: chunked\r\nConnection: close\r\n\r\ncf2\r\nDataset {\n    Int16 s[t = 2][y = 32][x = 11];\n    Int32 i[t = 3][y = 1][x = 32];\n} soak.nc;\nData:\n\0\0\x02\xc0\0\0\x02\xc0\xff\xff\x82\x68\xff\xff\xcb\xa2".as_slice();
    assert!(rt; bytes.starts_with(head));
    assert!(rt; bytes.ends_with(b"\x66\xf8\x0a\x3a\xe6\x0d\xf2\xb4\r\n0\r\n\r\n"));
    assert_eq!(rt; bytes.len(), 173 + 5 + 3314 + 7);
    Ok(())
}

/// What is said of one and of three records.
#[test]
fn what_is_read_is_said(rt: HostRuntime) -> Result<(), Fail> {
    let one = soak(&rt, rt.alloc(), 1, 1)?.lines(rt.alloc())?;
    assert_eq!(rt;
        one.bytes(),
        b"elements 384\nbytes 1650\nshown 7922\nsum 498281\n".as_slice()
    );
    let three = soak(&rt, rt.alloc(), 1, 3)?.lines(rt.alloc())?;
    assert_eq!(rt;
        three.bytes(),
        b"elements 800\nbytes 3314\nshown 16518\nsum 1036990\n".as_slice()
    );
    Ok(())
}
