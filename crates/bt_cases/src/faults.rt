// What fails of the shelf and the sinks of a case.
use anyhow::{Context, Result};
use bt_core::memory::Memory;
use mem_io::mem_shelf::MemShelf;
use mem_io::mem_sink::MemSink;
use serde_json::Value;
use std::alloc::Global;

/// How many bytes a sink takes where a case does not say it.
const ROOM: u64 = 1 << 24;

/// How many bytes the output takes in all and in one call, and the numbers of the reads, of the calls of the output and of those of `err` that
/// fail, counted from 1.
pub(crate) struct Faults {
    room: usize,
    most: usize,
    reads: Vec<u32>,
    out: Vec<u32>,
    err: Vec<u32>,
}

// Written out, so that it is one call wherever such a value is let go.
impl Drop for Faults {
    fn drop(self) {
        let Self {
            room: _,
            most: _,
            reads: _,
            out: _,
            err: _,
        } = self;
    }
}

/// The numbers in a list of an object, which may be left out.
fn numbers_of(alloc: Global, value: &Value, name: &str) -> Result<Vec<u32>> {
    let mut numbers = Vec::new(alloc);
    let Some(list) = value.get(name) else {
        return Ok(numbers);
    };
    for number in list.as_array().context(format_args!("no list {name}"))? {
        let number = number.as_u64().context("no number")?;
        numbers.push(u32::try_from(number).ok().context("no small number")?)?;
    }
    Ok(numbers)
}

/// A number of bytes of an object, which may be left out.
fn bytes_of(value: &Value, name: &str) -> usize {
    value.get(name).and_then(Value::as_u64).unwrap_or(ROOM) as usize
}

impl Faults {
    /// What an object says: of the output by `out_room` and `out_most`, and of what fails by the lists `reads_fail`, `out_fails` and
    /// `err_fails`. What it does not say does not fail.
    pub fn of(alloc: Global, value: &Value) -> Result<Faults> {
        Ok(Faults {
            room: bytes_of(value, "out_room"),
            most: bytes_of(value, "out_most").max(1),
            reads: numbers_of(alloc, value, "reads_fail")?,
            out: numbers_of(alloc, value, "out_fails")?,
            err: numbers_of(alloc, value, "err_fails")?,
        })
    }

    /// Whether nothing fails.
    pub fn are_none(&self) -> bool {
        self.reads.is_empty()
            && self.out.is_empty()
            && self.err.is_empty()
            && self.room as u64 >= ROOM
            && self.most as u64 >= ROOM
    }

    /// A shelf of these files.
    pub fn shelf(&self, alloc: Global, files: Vec<(String, Vec<u8>)>) -> Result<MemShelf, Memory> {
        let failing = Vec::from_slice(alloc, self.reads.as_slice())?;
        Ok(MemShelf::new(alloc, files, failing))
    }

    /// The output.
    pub fn output(&self, alloc: Global) -> Result<MemSink, Memory> {
        let failing = Vec::from_slice(alloc, self.out.as_slice())?;
        MemSink::new(alloc, self.room, self.most.max(1), failing)
    }

    /// What refusals are told to.
    pub fn errors(&self, alloc: Global) -> Result<MemSink, Memory> {
        let failing = Vec::from_slice(alloc, self.err.as_slice())?;
        MemSink::new(alloc, ROOM as usize, ROOM as usize, failing)
    }
}
