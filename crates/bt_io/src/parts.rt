// The parts of a file, and where it is cut into them, so that they can be read side by side.
ghost use Rattle.std.specs.Prelude.{◌≡◌, IfOk};
ghost use Rattle.bt_io.specs.Parts.{joined};

use bt_core::items::Items;
use bt_core::memory::Memory;
use std::alloc::Global;

/// The numbers of a file at its places, which are looked at before the file is read. A place is the number of bytes before it.
pub trait Peek {
    /// The byte at a place, or `None` where the file ends before it.
    fn u8_at(&mut self, at: u64) -> Option<u8>;

    /// The number of 16 bits at a place, the lower byte first, or `None` where the file does not hold it whole.
    fn u16_at(&mut self, at: u64) -> Option<u16>;

    /// The number of 32 bits at a place, the lowest byte first, or `None` where the file does not hold it whole.
    fn u32_at(&mut self, at: u64) -> Option<u32>;

    /// The number of 64 bits at a place, the lowest byte first, or `None` where the file does not hold it whole.
    fn u64_at(&mut self, at: u64) -> Option<u64>;
}

/// Where a file is cut.
pub trait Cutter {
    /// The places at which parts begin, but for the first part. They only say how the file is read, and not what is read: any will do.
    fn cuts<P: Peek>(&self, alloc: Global, file: &mut P) -> Result<Vec<u64>, Memory>;
}

/// A file in one part.
pub fn one_part(alloc: Global, bytes: Vec<u8>) -> Result<Vec<Items<u8>>, Memory>
    ensures { IfOk result (λ parts. joined parts.items ≡ bytes.items) }
{
    let mut parts = Vec::new(alloc);
    parts.push(Items::of(bytes))?;
    Ok(parts)
}

/// The bytes of all parts, one after another. Those of one part alone are not copied.
pub fn into_one(alloc: Global, mut parts: Vec<Items<u8>>) -> Result<Vec<u8>, Memory>
    ensures { IfOk result (λ bytes. bytes.items ≡ joined parts.items) }
{
    if parts.len() != 1 {
        return copied(alloc, parts.as_slice());
    }
    match parts.pop() {
        Some(part) => Ok(part.into_vec()),
        None => Ok(Vec::new(alloc)),
    }
}

// The bytes of all parts, copied.
fn copied(alloc: Global, parts: &[Items<u8>]) -> Result<Vec<u8>, Memory>
    ensures { IfOk result (λ bytes. bytes.items ≡ joined parts.now) }
{
    let mut bytes = Vec::new(alloc);
    for part in parts {
        bytes.extend_from_slice(part.as_slice())?;
    }
    Ok(bytes)
}
