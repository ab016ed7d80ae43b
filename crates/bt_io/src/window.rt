// Looking at a file through a window on its bytes.
ghost use Rattle.std.specs.Prelude.{◌+◌, ◌≤◌, IfSome, vec_len};

use crate::parts::Peek;
use bt_core::memory::Memory;
use byteorder::{ByteOrder, LittleEndian};
use std::alloc::Global;
use std::fs::File;
use std::os::unix::fs::FileExt;

/// How many bytes are read at once.
const WINDOW_BYTES: usize = 32_768;

/// A file of the system, of which so many bytes from a place on are held.
#[derive(Drop)]
pub(crate) struct FileWindow<'f> {
    file: &'f File,
    bytes: Vec<u8>,
    from: u64,
    held: usize,
}

impl<'f> FileWindow<'f> {
    /// A window on a file of which nothing is held yet.
    pub fn on(alloc: Global, file: &'f File) -> Result<FileWindow<'f>, Memory> {
        let mut bytes = Vec::new(alloc);
        bytes.resize(WINDOW_BYTES, 0)?;
        Ok(FileWindow {
            file,
            bytes,
            from: 0,
            held: 0,
        })
    }

    /// Where so many bytes at a place of the file are held, or `None` where they are not.
    fn held_at(&self, at: u64, count: usize) -> Option<usize>
        ensures { IfSome result (λ start. start + count ≤ vec_len self.now.bytes) }
    {
        if at < self.from {
            return None;
        }
        let Ok(start) = usize::try_from(at - self.from) else {
            return None;
        };
        let held = self.held.min(self.bytes.len());
        if start <= held && count <= held - start {
            Some(start)
        } else {
            None
        }
    }

    /// The same, where what is not held is read.
    fn place_of(&mut self, at: u64, count: usize) -> Option<usize>
        ensures { IfSome result (λ start. start + count ≤ vec_len self.new.bytes) }
    {
        if let Some(start) = self.held_at(at, count) {
            return Some(start);
        }
        self.from = at;
        self.held = match self.file.read_at(self.bytes.as_mut_slice(), at) {
            Ok(held) => held,
            Err(_) => 0,
        };
        self.held_at(at, count)
    }
}

impl Peek for FileWindow<'_> {
    fn u8_at(&mut self, at: u64) -> Option<u8> {
        match self.place_of(at, 1) {
            Some(start) => Some(self.bytes[start]),
            None => None,
        }
    }

    fn u16_at(&mut self, at: u64) -> Option<u16> {
        match self.place_of(at, 2) {
            Some(start) => Some(LittleEndian::read_u16(&self.bytes[start..])),
            None => None,
        }
    }

    fn u32_at(&mut self, at: u64) -> Option<u32> {
        match self.place_of(at, 4) {
            Some(start) => Some(LittleEndian::read_u32(&self.bytes[start..])),
            None => None,
        }
    }

    fn u64_at(&mut self, at: u64) -> Option<u64> {
        match self.place_of(at, 8) {
            Some(start) => Some(LittleEndian::read_u64(&self.bytes[start..])),
            None => None,
        }
    }
}
