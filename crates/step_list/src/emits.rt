// Items that the steps of a list emitted.
ghost use Rattle.std.specs.Prelude.{◌≡◌, ◌==◌, ◌&&◌, ◌++◌, [], List, get_or, length, map, IsTrue, IfOk, OnOk};
ghost use Rattle.std.specs.List.{cons_option, filter_map};
ghost use Rattle.std.specs.Option.{option_map};
ghost use Rattle.bt_core.specs.declared.value.Value.{Value as Part};
ghost use Rattle.step_list.specs.Deeds.{deed_of, no_item};
ghost use Rattle.step_list.specs.Places.{expanded, is_all_within, step_by_deed};
ghost use Rattle.step_list.specs.Emits.{told, emit_of, object_told};
ghost use Rattle.step_list.specs.Lists.{steps_in};

use crate::deed::{Deed, Mark};
use crate::list::{Place, StepList};
use crate::marking::print_at;
use bt_core::item::Item;
use bt_core::memory::Memory;
use bt_core::step::{ObjectId, Op};
use print_list::list::PrintList;
use std::alloc::Global;

/// An item that a step emitted, in 32 bytes: the step's stamp, and where the item lies.
#[derive(Clone, Copy)]
pub struct Emitted<'a> {
    pub stamp: u64,
    pub item: EmittedItem<'a>,
}

/// An item that a step emitted, where it lies: as it is, with the step's object, or by its number in a list of items that were
/// printed at the output, counted from 0.
#[derive(Clone, Copy)]
pub enum EmittedItem<'a> {
    Whole(ObjectId, &'a Item),
    Printed(u32, &'a PrintList),
}

/// The object of the step that emitted an item.
pub fn object_of_emit(item: &EmittedItem<'_>) -> ObjectId
    ensures { result ≡ object_told item.now }
{
    match item {
        EmittedItem::Whole(object, _) => *object,
        EmittedItem::Printed(..) => ObjectId::Out,
    }
}

/// A copy of the item of a number in a list of printed items, or a cut of line 0 where the list has none of that number. [`Memory`] where there
/// is no room for it.
pub fn printed(alloc: Global, print: u32, prints: &PrintList) -> Result<Item, Memory>
    ensures { IfOk result (λ item. item ≡ get_or prints.now print no_item) }
{
    print_at(alloc, prints, print)
}

/// What a place tells that was emitted.
pub(crate) fn emit_at<'a>(
    whole: &'a [Deed],
    prints: &'a PrintList,
    place: &Place,
) -> Option<Emitted<'a>>
    ensures { (keys : List (List Part)) →
        option_map told result ≡ emit_of (step_by_deed place.now.stamp (deed_of keys whole.now prints.now place.now.mark)) }
{
    match place.mark {
        Mark::Whole(number) => match whole.get(number as usize) {
            Some(deed) => match &deed.op {
                Op::Emit(item) => Some(Emitted {
                    stamp: place.stamp,
                    item: EmittedItem::Whole(deed.object, item),
                }),
                _ => None,
            },
            None => None,
        },
        Mark::Print { print, .. } => Some(Emitted {
            stamp: place.stamp,
            item: EmittedItem::Printed(print, prints),
        }),
        Mark::GetInt { .. }
        | Mark::SetInt { .. }
        | Mark::Delete { .. }
        | Mark::Add { .. }
        | Mark::Check { .. } => None,
    }
}

/// Puts what a place tells behind what was found.
fn add<'a>(found: &mut Vec<Emitted<'a>>, emitted: Option<Emitted<'a>>) -> Result<(), Memory>
    ensures { OnOk result (map told found.new.items ≡ map told found.old.items ++ cons_option (option_map told emitted.entry) []) }
{
    match emitted {
        Some(emitted) => {
            found.push(emitted)?;
            Ok(())
        }
        None => Ok(()),
    }
}

/// Puts what places tell that was emitted behind what was found, in their order.
pub(crate) fn emits_of<'a>(
    whole: &'a [Deed],
    prints: &'a PrintList,
    places: &[Place],
    found: &mut Vec<Emitted<'a>>,
) -> Result<(), Memory>
    ensures { OnOk result ((keys : List (List Part)) →
        map told found.new.items ≡ map told found.old.items ++ filter_map emit_of (expanded keys whole.now prints.now places.now)) }
{
    for place in places {
        let emitted = emit_at(whole, prints, place);
        add(found, emitted)?;
    }
    Ok(())
}

/// Whether nothing is kept that a place could tell as emitted, as in a run that prints nothing before its end.
fn are_none_kept(whole: &[Deed], prints: &PrintList, places: &[Place]) -> bool
    ensures exact { result ≡ ((length whole.now == 0) && (length prints.now == 0)) }
    ensures none { IsTrue result → (keys : List (List Part)) →
        IsTrue (is_all_within (length keys) (length whole.now) (length prints.now) places.now) →
        filter_map emit_of (expanded keys whole.now prints.now places.now) ≡ [] }
{
    whole.is_empty() && prints.len() == 0
}

impl StepList {
    /// Puts what its steps emitted behind what was found, in the order of the steps. After [`Memory`] a part of it may stand there.
    pub fn emitted<'a>(&'a self, found: &mut Vec<Emitted<'a>>) -> Result<(), Memory>
        ensures { OnOk result (map told found.new.items ≡ map told found.old.items ++ filter_map emit_of (steps_in self.now)) }
    {
        if are_none_kept(self.whole(), self.prints(), self.places()) {
            return Ok(());
        }
        emits_of(self.whole(), self.prints(), self.places(), found)
    }
}
