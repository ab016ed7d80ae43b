// That files are read and streams are written, and how faults of the system are told apart.
use bt_core::items::Items;
use bt_core::memory::Memory;
use bt_io::parts::{Cutter, Peek};
use bt_io::real::{FileShelf, StdSink, TRIES};
use bt_io::shelf::{Shelf, ShelfError};
use bt_io::sink::{Sink, SinkFailed};
use std::alloc::Global;
use std::cell::Cell;
use std::fmt::Display;
use std::io::{ErrorKind, Print};
use std::test::Fail;
use std::thread::Threads;
use std::{fs, io, process};

/// What a read of a file gives: its bytes, or its fault.
type Read = Result<&'static [u8], ShelfError>;

/// Whether a shelf gives this of a file.
fn gives(
    shelf: &mut FileShelf<HostRuntime>,
    alloc: Global,
    name: &str,
    limit: u64,
    want: &Read,
) -> bool {
    match (shelf.read(alloc, name, limit), want) {
        (Ok(bytes), Ok(want)) => bytes.as_slice() == *want,
        (Err(fault), Err(want)) => fault == *want,
        _ => false,
    }
}

/// Reads of files that every system has.
const READS: [(&str, u64, Read); 3] = [
    ("/dev/zero", 4, Err(ShelfError::TooLong)),
    ("/dev/null", 0, Ok(b"")),
    ("/tmp", 5, Err(ShelfError::Failed)),
];

#[test]
fn files_of_the_system_are_read(rt: HostRuntime) {
    let alloc = rt.alloc();
    let mut shelf = FileShelf::new(rt, alloc);
    for (name, limit, want) in &READS {
        assert!(rt; gives(&mut shelf, alloc, name, *limit, want), "at {name}");
    }
}

/// Reads of a file of five bytes that was written, or of one below it that is not there.
const OWN_READS: [(bool, u64, Read); 4] = [
    (true, 5, Ok(b"five\n")),
    (true, u64::MAX, Ok(b"five\n")),
    (true, 4, Err(ShelfError::TooLong)),
    (false, 5, Err(ShelfError::Failed)),
];

/// The first of these reads that gives another answer.
fn first_other(rt: HostRuntime, alloc: Global, path: &str, missing: &str) -> Option<usize> {
    let mut shelf = FileShelf::new(rt, alloc);
    for place in 0..OWN_READS.len() {
        let (is_there, limit, want) = &OWN_READS[place];
        let name = if *is_there { path } else { missing };
        if !gives(&mut shelf, alloc, name, *limit, want) {
            return Some(place);
        }
    }
    None
}

/// A path of this process, with this behind it.
fn own_path(rt: &HostRuntime, alloc: Global, behind: &str) -> Result<String, Fail> {
    let id = process::id(rt.process());
    Ok(format!(in alloc; "/tmp/base_tests_{id}{behind}")?)
}

#[test]
fn written_files_are_read(rt: HostRuntime) -> Result<(), Fail> {
    let alloc = rt.alloc();
    let path = own_path(&rt, alloc, "")?;
    let missing = own_path(&rt, alloc, "/missing")?;
    fs::write(&rt, path.as_str(), b"five\n".as_slice())?;
    let other = first_other(rt, alloc, path.as_str(), missing.as_str());
    fs::remove_file(&rt, path.as_str())?;
    assert_eq!(rt; other, None);
    Ok(())
}

/// Cuts a file where its first four bytes say, which are looked at twice, and where its last two do.
#[derive(Drop)]
struct ByItsEnds {
    bytes: u64,
}

impl Cutter for ByItsEnds {
    fn cuts<P: Peek>(&self, alloc: Global, file: &mut P) -> Result<Vec<u64>, Memory> {
        let mut cuts = Vec::new(alloc);
        if let Some(first) = file.u32_at(0) {
            cuts.push(u64::from(first))?;
        }
        if let Some(both) = file.u64_at(0) {
            cuts.push(both % (1 << 32))?;
        }
        if let Some(last) = file.u16_at(self.bytes.saturating_sub(2)) {
            cuts.push(u64::from(last))?;
        }
        if let Some(byte) = file.u8_at(self.bytes) {
            cuts.push(u64::from(byte))?;
        }
        Ok(cuts)
    }
}

/// So many bytes, the first four and the last two of which are these numbers.
fn bytes_with_ends(alloc: Global, count: usize, first: u32, last: u16) -> Result<Vec<u8>, Fail> {
    let mut bytes = Vec::from_slice(alloc, &first.to_le_bytes())?;
    for place in 6..count {
        bytes.push((place % 251) as u8)?;
    }
    bytes.extend_from_slice(&last.to_le_bytes())?;
    Ok(bytes)
}

/// Whether parts are these bytes, one after another.
fn are_of(parts: &[Items<u8>], bytes: &[u8]) -> bool {
    let mut from = 0usize;
    for part in parts {
        let left = &bytes[from.min(bytes.len())..];
        if !left.starts_with(part.as_slice()) {
            return false;
        }
        from = from.saturating_add(part.len());
    }
    from == bytes.len()
}

/// Of so many bytes with these numbers at their ends, under a limit: in how many parts they are read, or the fault.
struct PartedRead {
    bytes: usize,
    first: u32,
    last: u16,
    limit: u64,
    want: Result<usize, ShelfError>,
}

/// A cut that is not behind the one before it, or not within the file, is passed over; and a file of less than a megabyte has one part.
const PARTED_READS: [PartedRead; 6] = [
    PartedRead {
        bytes: 1_100_000,
        first: 50_000,
        last: 60_000,
        limit: 1_100_000,
        want: Ok(3),
    },
    PartedRead {
        bytes: 1_100_000,
        first: 500_000,
        last: 60_000,
        limit: 1_100_000,
        want: Ok(2),
    },
    PartedRead {
        bytes: 1_100_000,
        first: 0,
        last: 0,
        limit: u64::MAX,
        want: Ok(1),
    },
    PartedRead {
        bytes: 1_100_000,
        first: 1_100_000,
        last: 7,
        limit: u64::MAX,
        want: Ok(2),
    },
    PartedRead {
        bytes: 1_100_000,
        first: 50_000,
        last: 60_000,
        limit: 1_099_999,
        want: Err(ShelfError::TooLong),
    },
    PartedRead {
        bytes: 60_000,
        first: 5,
        last: 50_000,
        limit: 60_000,
        want: Ok(1),
    },
];

/// Whether a file that holds the bytes of a row is read in parts by a shelf as the row says.
fn is_read_in_parts<T: Threads + Sync>(
    threads: &T,
    shelf: &mut FileShelf<HostRuntime>,
    alloc: Global,
    path: &str,
    row: &PartedRead,
    bytes: &[u8],
) -> bool {
    let cutter = ByItsEnds {
        bytes: bytes.len() as u64,
    };
    let read = shelf.read_in_parts(threads, alloc, path, row.limit, &cutter);
    match (read, row.want) {
        (Ok(parts), Ok(count)) => parts.len() == count && are_of(parts.as_slice(), bytes),
        (Err(fault), Err(want)) => fault == want,
        _ => false,
    }
}

#[test]
fn large_files_are_read_in_parts(rt: HostRuntime) -> Result<(), Fail> {
    let path = own_path(&rt, rt.alloc(), ".large")?;
    let mut shelf = FileShelf::new(rt, rt.alloc());
    for row in &PARTED_READS {
        let bytes = bytes_with_ends(rt.alloc(), row.bytes, row.first, row.last)?;
        fs::write(&rt, path.as_str(), bytes.as_slice())?;
        let name = path.as_str();
        let is_read = is_read_in_parts(&rt, &mut shelf, rt.alloc(), name, row, bytes.as_slice());
        fs::remove_file(&rt, path.as_str())?;
        assert!(rt;
            is_read,
            "{} bytes cut at {} and {}",
            row.bytes, row.first, row.last
        );
    }
    Ok(())
}

#[test]
fn real_streams_are_written(rt: HostRuntime) {
    assert_eq!(rt; StdSink::out(rt).write(b"out\n"), Ok(4));
    assert_eq!(rt; StdSink::err(rt).write(b"err\n"), Ok(4));
}

// A stream that a signal interrupts a number of times.
#[derive(Drop)]
struct Stream {
    interruptions: Cell<usize>,
    takes: usize,
}

impl Print for Stream {
    fn print<D: Display + Drop>(&self, _value: D) -> io::Result<()> {
        Ok(())
    }

    fn println<D: Display + Drop>(&self, _value: D) -> io::Result<()> {
        Ok(())
    }

    fn write_all(&self, _bytes: &[u8]) -> io::Result<()> {
        Ok(())
    }

    fn write_some(&self, bytes: &[u8]) -> io::Result<usize> {
        let left = self.interruptions.get();
        if left > 0 {
            self.interruptions.set(left - 1);
            return Err(io::Error::from(ErrorKind::Interrupted));
        }
        Ok(bytes.len().min(self.takes))
    }
}

#[test]
fn an_interrupted_write_is_begun_again_and_one_that_takes_nothing_is_a_fault(
    rt: HostRuntime,
) -> Result<(), Fail> {
    for (interruptions, takes, want) in [
        (0, 3, Ok(3)),
        (TRIES - 1, 9, Ok(5)),
        (TRIES, 9, Err(SinkFailed)),
        (0, 0, Err(SinkFailed)),
    ] {
        let mut sink = StdSink::over(Stream {
            interruptions: Cell::new(interruptions),
            takes,
        });
        assert_eq!(rt; sink.write(b"piece"), want, "{interruptions}, {takes}");
    }
    Ok(())
}
