//! A folder as a shelf. The name of each file and folder that is made here begins with `tried_`.

use crate::narrow::Narrow;
use dap_host::FolderShelf;
use dap_outside::Shelf;
use std::fs::{self, Files, OpenFile};
use std::io::{self, Seek, SeekFrom, Write};
use std::os::unix::fs as unix;
use std::os::unix::net::UnixListener;
use std::process::Abort;
use std::test::Fail;

const BUOYS: &[u8] = b"station,depth:Int32\nA1,5\nB22,-7\n";

/// A file of the shelf has this size, and these bytes from a place on.
fn expect_read<R: Abort, S: Shelf>(
    rt: &R,
    shelf: &mut S,
    name: &str,
    size: u64,
    at: u64,
    bytes: &[u8; 4],
) -> Result<(), Fail> {
    let Ok(Some(mut file)) = shelf.find(name) else {
        return Err(Fail::from("not found"));
    };
    let found = shelf.size(&file);
    assert_eq!(rt; found, size, "{name}");
    let mut into = [0u8; 4];
    if found < 4 || at > found - 4 {
        return Err(Fail::from("not its size"));
    }
    assert!(rt; shelf.read_at(&mut file, at, &mut into).is_ok());
    assert_eq!(rt; &into, bytes, "{name} at {at}");
    Ok(())
}

/// An empty folder of this name.
fn fresh<R: Files + Alloc>(rt: &R, name: &str) -> io::Result<()> {
    let _ = fs::remove_dir_all(rt, name);
    fs::create_dir(rt, name)
}

/// Names of one to four segments, and of 200 and of 255 bytes.
#[test]
fn a_folder_lends_its_regular_files(rt: HostRuntime) -> Result<(), Fail> {
    let mut name = [b'n'; 255];
    name[..6].copy_from_slice(b"tried_");
    let (Ok(long), Ok(longest)) = (str::from_utf8(&name[..200]), str::from_utf8(&name)) else {
        return Err(Fail::from("no text"));
    };
    fresh(&rt, "tried_one")?;
    fs::create_dir(&rt, "tried_one/two.d")?;
    fs::create_dir(&rt, "tried_one/two.d/three")?;
    for name in [
        "tried_one.csv",
        "tried_one/b.csv",
        "tried_one/two.d/b.csv",
        "tried_one/two.d/three/b.csv",
        long,
        longest,
    ] {
        fs::write(&rt, name, BUOYS)?;
        let mut shelf = FolderShelf::new(&rt);
        for (at, bytes) in [(20, b"A1,5"), (28, b",-7\n"), (0, b"stat")] {
            expect_read(&rt, &mut shelf, name, 32, at, bytes)?;
        }
        fs::remove_file(&rt, name)?;
    }
    fs::remove_dir_all(&rt, "tried_one")?;
    Ok(())
}

/// What is no regular file in this folder is not there, and is not opened: a folder, links, a socket.
#[test]
fn what_is_no_regular_file_is_not_opened(rt: HostRuntime) -> Result<(), Fail> {
    fresh(&rt, "tried_own")?;
    fs::write(&rt, "tried_own/buoys.csv", BUOYS)?;
    fs::create_dir(&rt, "tried_own/deep")?;
    unix::symlink(&rt, "buoys.csv", "tried_own/link.csv")?;
    unix::symlink(&rt, "../tried_own", "tried_own/linked")?;
    unix::symlink(&rt, "../../tried_own", "tried_own/deep/linked")?;
    let _socket = UnixListener::bind(&rt, "tried_own/socket.csv")?;
    let files = Narrow::new(&rt);
    let mut shelf = FolderShelf::new(&files);
    for name in [
        "none.csv",
        "none/buoys.csv",
        "tried_own",
        "tried_own/link.csv",
        "tried_own/socket.csv",
        "tried_own/linked/buoys.csv",
        "tried_own/deep/linked/buoys.csv",
        "tried_own/buoys.csv/x",
        "/etc/passwd",
        "../buoys.csv",
        "./tried_own/buoys.csv",
        "tried_own//buoys.csv",
        "tried_own/../tried_own/buoys.csv",
        "tried_own/buoys.csv/",
        "",
    ] {
        assert!(rt; matches!(shelf.find(name), Ok(None)), "{name}");
    }
    assert_eq!(rt; files.opened(), 0);
    expect_read(&rt, &mut shelf, "tried_own/buoys.csv", 32, 20, b"A1,5")?;
    assert_eq!(rt; files.opened(), 1);
    fs::remove_dir_all(&rt, "tried_own")?;
    Ok(())
}

// The system takes no name of more than 4,096 bytes.
#[test]
fn a_look_up_that_fails_is_a_fault(rt: HostRuntime) -> Result<(), Fail> {
    let name = [b'a'; 5000];
    let Ok(name) = str::from_utf8(&name) else {
        return Err(Fail::from("no text"));
    };
    let mut shelf = FolderShelf::new(&rt);
    assert!(rt; shelf.find(name).is_err());
    Ok(())
}

#[test]
fn a_file_that_got_shorter_is_a_fault(rt: HostRuntime) -> Result<(), Fail> {
    fs::write(&rt, "tried_shorter.csv", BUOYS)?;
    let mut shelf = FolderShelf::new(&rt);
    let Ok(Some(mut file)) = shelf.find("tried_shorter.csv") else {
        return Err(Fail::from("not found"));
    };
    fs::write(&rt, "tried_shorter.csv", b"short")?;
    let mut into = [0u8; 4];
    if shelf.size(&file) != 32 {
        return Err(Fail::from("not its size"));
    }
    assert!(rt; shelf.read_at(&mut file, 20, &mut into).is_err());
    assert!(rt; shelf.read_at(&mut file, 3, &mut into).is_err());
    assert!(rt; shelf.read_at(&mut file, 1, &mut into).is_ok());
    assert_eq!(rt; &into, b"hort");
    fs::remove_file(&rt, "tried_shorter.csv")?;
    Ok(())
}

/// Writes four bytes at a place of a new file of this size.
fn sparse<R: Files>(files: &R, name: &str, size: u64, at: u64) -> Result<(), Fail> {
    let mut file = fs::create(files, name)?;
    file.set_len(size)?;
    file.seek(SeekFrom::Start(at))?;
    file.write_all(b"here")?;
    Ok(())
}

/// Of 5 GiB, almost all of it a hole.
#[test]
fn a_file_of_more_than_4_gib(rt: HostRuntime) -> Result<(), Fail> {
    const GIB: u64 = 1 << 30;
    sparse(&rt, "tried_long.nc", 5 * GIB, 4 * GIB + 1000)?;
    let mut shelf = FolderShelf::new(&rt);
    for (at, bytes) in [
        (4 * GIB + 1000, b"here"),
        (1000, b"\0\0\0\0"),
        (5 * GIB - 4, b"\0\0\0\0"),
    ] {
        expect_read(&rt, &mut shelf, "tried_long.nc", 5 * GIB, at, bytes)?;
    }
    fs::remove_file(&rt, "tried_long.nc")?;
    Ok(())
}
