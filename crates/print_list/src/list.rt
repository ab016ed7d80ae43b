// The list of printed items.
ghost use Rattle.std.specs.Prelude.{◌≡◌, ◌++◌, ◌∷◌, [], length, slice_get, IfOk, OnOk, OnErr};
ghost use Rattle.bt_core.specs.declared.item.Item.TheVariants.{Printf};
ghost use Rattle.print_list.specs.Prints.{print_in};

use crate::reading::{cut, values_in};
use crate::writing::push_values;
use bt_core::item::Item;
use bt_core::items::Items;
use bt_core::memory::Memory;
use bt_core::value::Value;
use std::alloc::Global;
use std::marker::Model;

/// Where the values of a `printf` call lie in the bytes of its list, how many they are, and the number of its format.
#[derive(Clone, Copy)]
pub(crate) struct Print {
    start: u32,
    end: u32,
    format: u32,
    count: u32,
}

/// What `printf` calls print, in the order in which it was pushed. A call takes 16 bytes, nine for each number and for each string
/// one more than it has.
///
/// Contracts see the list of the items.
#[derive(Drop)]
pub struct PrintList {
    bytes: Vec<u8>,
    prints: Vec<Print>,
}

impl Model for PrintList {
    ghost use Rattle.std.specs.Prelude.{List};
    ghost use Rattle.bt_core.specs.declared.item.Item.{Item};
    ghost use Rattle.print_list.specs.Prints.{prints_in, AreWithin};

    ghost Value = { List Item };

    ghost view = { λ s. prints_in s.bytes.items s.prints.items };

    ghost invariant = { λ s. AreWithin s.bytes.items s.prints.items };
}

impl PrintList {
    /// The empty list. It takes no memory.
    pub fn new(alloc: Global) -> PrintList
        ensures { result ≡ [] }
    {
        PrintList {
            bytes: Vec::new(alloc),
            prints: Vec::new(alloc),
        }
    }

    /// How many items it has.
    pub fn len(&self) -> usize
        ensures { result ≡ length self.now }
    {
        self.prints.len()
    }

    /// Adds what a `printf` call with the format of this number prints. After [`Memory`] the list is as before; that comes too where
    /// all values would have 4,294,967,296 bytes or more.
    pub fn push(&mut self, format: u32, values: &[Value]) -> Result<(), Memory>
        ensures ok { OnOk result (self.new ≡ self.old ++ Printf format values.now ∷ []) }
        ensures err { OnErr result (self.new ≡ self.old) }
    {
        let start = self.bytes.len();
        push_values(&mut self.bytes, values)?;
        let print = print_of(start, self.bytes.len(), format, values.len())?;
        self.prints.push(print)?;
        Ok(())
    }

    /// A copy of the item at a place, counted from 0, or `None` where there are no more than so many. [`Memory`] where there is no room
    /// for the copy.
    pub fn get(&self, alloc: Global, place: usize) -> Result<Option<Item>, Memory>
        ensures { IfOk result (λ item. item ≡ slice_get self.now place) }
    {
        match self.prints.get(place) {
            None => Ok(None),
            Some(print) => Ok(Some(item_at(alloc, self.bytes.as_slice(), *print)?)),
        }
    }
}

/// What lies from the one byte to the other. [`Memory`] where a number does not fit.
fn print_of(start: usize, end: usize, format: u32, count: usize) -> Result<Print, Memory>
    ensures { IfOk result (λ print. print ≡ record { start = start; end = end; format = format; count = count }) }
{
    Ok(Print {
        start: u32::try_from(start)?,
        end: u32::try_from(end)?,
        format,
        count: u32::try_from(count)?,
    })
}

/// The item that lies in bytes.
fn item_at(alloc: Global, bytes: &[u8], print: Print) -> Result<Item, Memory>
    ensures { IfOk result (λ item. item ≡ print_in bytes.now print) }
{
    let (_, behind) = cut(bytes, print.start as usize);
    let (lies, _) = cut(behind, print.end.saturating_sub(print.start) as usize);
    let values = values_in(alloc, lies, print.count)?;
    Ok(Item::Printf {
        format: print.format,
        values: Items::of(values),
    })
}
