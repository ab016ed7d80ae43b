// The helpers: which arguments are in range, which bytes have to lie inside a region, and then the steps.
ghost use Rattle.std.specs.Prelude.{◌≡◌, ◌≢◌, ◌<◌, ◌≤◌, ◌^◌, Err, List, None, false};
ghost use Rattle.bt_core.specs.declared.step.Step.{Step};
ghost use Rattle.bt_core.specs.Want.{out_of_memory};
ghost use Rattle.std.specs.Option.{option_copied};
ghost use Rattle.bpf_interp.specs.Running.{Called};
ghost use Rattle.bpf_interp.specs.declared.helper_calls.HelperFault.TheVariants.{Helper as BadArgument, Memory as NoMemory};
ghost use Rattle.typed_tree.specs.Scope.{is_agg, is_summed_kind};
ghost use Rattle.helper_abi.specs.Helpers.{numbered, table_map, value_map, summed_map, are_shown, get, set, delete, aggregate, read_agg, print, sweep_map, printf, exit, cut, read_str};
ghost use Rattle.helper_abi.specs.Served.{ServesMaps};

use crate::arguments::arguments_at;
use crate::printing::{print_map, sweep_all};
use crate::reading::{TEXT_BYTES, key_at, payload_text, put, shape_bytes, shape_of_kind, value_at};
use crate::steps::{get_into, sum_into, tell};
use bpf_interp::helper_calls::HelperFault;
use bpf_interp::regions::Regions;
use bt_core::item::Item;
use bt_core::items::Items;
use bt_core::map::{MapDecl, MapId, MapKind};
use bt_core::port::Port;
use bt_core::step::{ObjectId, Op};
use bt_core::value::Value;
use fmt_text::piece::Piece;
use map_ops::access::part;
use map_ops::sweep::Sweep;
use std::alloc::Global;
use typed_tree::kind::is_summed_kind;

// What has a number of 32 bits in a list.
fn numbered<T>(list: &[T], number: u64) -> Option<&T>
    ensures { option_copied result ≡ numbered list.now number }
{
    if number < 0x1_0000_0000 {
        list.get(number as usize)
    } else {
        None
    }
}

fn is_agg(kind: MapKind) -> bool
    ensures { result ≡ is_agg kind }
{
    match kind {
        MapKind::Aggs(_) => true,
        MapKind::Ints => false,
        MapKind::Strs => false,
    }
}

// A map of whole numbers or strings by its number.
fn value_map(maps: &[MapDecl], number: u64) -> Option<&MapDecl>
    ensures { option_copied result ≡ value_map maps.now number }
{
    let decl = numbered(maps, number)?;
    if is_agg(decl.kind) { None } else { Some(decl) }
}

// An aggregation by its number.
fn table_map(maps: &[MapDecl], number: u64) -> Option<&MapDecl>
    ensures { option_copied result ≡ table_map maps.now number }
{
    let decl = numbered(maps, number)?;
    if is_agg(decl.kind) { Some(decl) } else { None }
}

// An aggregation that is no histogram by its number.
fn summed_map(maps: &[MapDecl], number: u64) -> Option<&MapDecl>
    ensures { option_copied result ≡ summed_map maps.now number }
{
    let decl = numbered(maps, number)?;
    if is_summed_kind(decl.kind) {
        Some(decl)
    } else {
        None
    }
}

// Whether so many rows are kept, and the values divided by this.
fn are_shown(top: u64, div: u64) -> bool
    ensures { result ≡ are_shown top div }
{
    0 <= top.cast_signed() && 1 <= div.cast_signed()
}

/// The value of a map under the key at an address is written at another.
pub fn get<P: Port>(
    alloc: Global,
    port: &mut P,
    maps: &[MapDecl],
    map: u64,
    key: u64,
    to: u64,
    memory: &mut Regions,
) -> Result<u64, HelperFault>
    requires { ServesMaps maps.now (P.fixed port.old).setting }
    ensures called { Called (get maps.now map key to memory.old) (P.steps port.old) (P.steps port.new) result memory.new.frame }
    ensures argument { value_map maps.now map ≡ None → result ≡ Err BadArgument }
    ensures kept { P.fixed port.new ≡ P.fixed port.old }
    ensures context { memory.new.context ≡ memory.old.context }
    ensures payload { memory.new.payload ≡ memory.old.payload }
{
    let Some(decl) = value_map(maps, map) else {
        return Err(HelperFault::Helper);
    };
    if !memory.in_frame(to, shape_bytes(shape_of_kind(decl.kind))) {
        return Err(HelperFault::Address);
    }
    let map = MapId(map as u32);
    match key_at(alloc, memory, decl.key_shape.as_slice(), key) {
        Ok(key) => get_into(alloc, port, map, key, to, memory),
        Err(fault) => Err(fault),
    }
}

/// The value at an address is set under the key at another.
pub fn set<P: Port>(
    alloc: Global,
    port: &mut P,
    maps: &[MapDecl],
    map: u64,
    key: u64,
    value: u64,
    memory: &Regions,
) -> Result<u64, HelperFault>
    requires { ServesMaps maps.now (P.fixed port.old).setting }
    ensures called { Called (set maps.now map key value memory.now) (P.steps port.old) (P.steps port.new) result memory.now.frame }
    ensures argument { value_map maps.now map ≡ None → result ≡ Err BadArgument }
    ensures kept { P.fixed port.new ≡ P.fixed port.old }
{
    let Some(decl) = value_map(maps, map) else {
        return Err(HelperFault::Helper);
    };
    let Some(value) = value_at(memory, shape_of_kind(decl.kind), value) else {
        return Err(HelperFault::Address);
    };
    let key = match key_at(alloc, memory, decl.key_shape.as_slice(), key) {
        Ok(key) => key,
        Err(fault) => return Err(fault),
    };
    let object = part(MapId(map as u32), &key);
    let mut op = Op::Set(key, value);
    tell(alloc, port, object, &mut op, memory)
}

/// The key at an address is taken away.
pub fn delete<P: Port>(
    alloc: Global,
    port: &mut P,
    maps: &[MapDecl],
    map: u64,
    key: u64,
    memory: &Regions,
) -> Result<u64, HelperFault>
    requires { ServesMaps maps.now (P.fixed port.old).setting }
    ensures called { Called (delete maps.now map key memory.now) (P.steps port.old) (P.steps port.new) result memory.now.frame }
    ensures argument { value_map maps.now map ≡ None → result ≡ Err BadArgument }
    ensures kept { P.fixed port.new ≡ P.fixed port.old }
{
    let Some(decl) = value_map(maps, map) else {
        return Err(HelperFault::Helper);
    };
    let key = match key_at(alloc, memory, decl.key_shape.as_slice(), key) {
        Ok(key) => key,
        Err(fault) => return Err(fault),
    };
    let object = part(MapId(map as u32), &key);
    let mut op = Op::Delete(key);
    tell(alloc, port, object, &mut op, memory)
}

/// A number goes under the key at an address into the table of the actor.
pub fn aggregate<P: Port>(
    alloc: Global,
    port: &mut P,
    maps: &[MapDecl],
    actor: u32,
    map: u64,
    key: u64,
    number: u64,
    memory: &Regions,
) -> Result<u64, HelperFault>
    requires served { ServesMaps maps.now (P.fixed port.old).setting }
    requires actor { actor < (P.fixed port.old).setting.actors }
    ensures called { Called (aggregate maps.now actor map key number memory.now) (P.steps port.old) (P.steps port.new) result memory.now.frame }
    ensures argument { table_map maps.now map ≡ None → result ≡ Err BadArgument }
    ensures kept { P.fixed port.new ≡ P.fixed port.old }
{
    let Some(decl) = table_map(maps, map) else {
        return Err(HelperFault::Helper);
    };
    let key = match key_at(alloc, memory, decl.key_shape.as_slice(), key) {
        Ok(key) => key,
        Err(fault) => return Err(fault),
    };
    let mut op = Op::Add(MapId(map as u32), key, number.cast_signed());
    tell(alloc, port, ObjectId::Cpu(actor), &mut op, memory)
}

/// The number of an aggregation under the key at an address, over the tables of all actors, is written at another.
pub fn read_agg<P: Port>(
    alloc: Global,
    port: &mut P,
    maps: &[MapDecl],
    actors: u32,
    map: u64,
    key: u64,
    to: u64,
    memory: &mut Regions,
) -> Result<u64, HelperFault>
    requires served { ServesMaps maps.now (P.fixed port.old).setting }
    requires actors { (P.fixed port.old).setting.actors ≡ actors }
    ensures called { Called (read_agg maps.now actors map key to memory.old) (P.steps port.old) (P.steps port.new) result memory.new.frame }
    ensures argument { summed_map maps.now map ≡ None → result ≡ Err BadArgument }
    ensures kept { P.fixed port.new ≡ P.fixed port.old }
    ensures context { memory.new.context ≡ memory.old.context }
    ensures payload { memory.new.payload ≡ memory.old.payload }
{
    let Some(decl) = summed_map(maps, map) else {
        return Err(HelperFault::Helper);
    };
    if !memory.in_frame(to, 8) {
        return Err(HelperFault::Address);
    }
    let key = match key_at(alloc, memory, decl.key_shape.as_slice(), key) {
        Ok(key) => key,
        Err(fault) => return Err(fault),
    };
    let map = MapId(map as u32);
    let answer = sum_into(alloc, port, decl.kind, map, &key, to, actors, memory);
    drop(key);
    answer
}

/// The merged rows of a map are emitted.
pub fn print<P: Port>(
    alloc: Global,
    port: &mut P,
    maps: &[MapDecl],
    actors: u32,
    map: u64,
    top: u64,
    div: u64,
    memory: &Regions,
) -> Result<u64, HelperFault>
    requires served { ServesMaps maps.now (P.fixed port.old).setting }
    requires actors { (P.fixed port.old).setting.actors ≡ actors }
    ensures called { Called (print maps.now actors map top div memory.now) (P.steps port.old) (P.steps port.new) result memory.now.frame }
    ensures argument { numbered maps.now map ≡ None → result ≡ Err BadArgument }
    ensures shown { are_shown top div ≡ false → result ≡ Err BadArgument }
    ensures kept { P.fixed port.new ≡ P.fixed port.old }
{
    let Some(decl) = numbered(maps, map) else {
        return Err(HelperFault::Helper);
    };
    if !are_shown(top, div) {
        return Err(HelperFault::Helper);
    }
    let map = MapId(map as u32);
    print_map(
        alloc,
        port,
        decl.kind,
        map,
        top,
        div.cast_signed(),
        actors,
        memory,
    )
}

/// All that holds a map is cleared, or its values are made 0 or empty.
pub fn sweep_map<P: Port>(
    alloc: Global,
    port: &mut P,
    maps: &[MapDecl],
    actors: u32,
    sweep: Sweep,
    map: u64,
    memory: &Regions,
) -> Result<u64, HelperFault>
    requires served { ServesMaps maps.now (P.fixed port.old).setting }
    requires actors { (P.fixed port.old).setting.actors ≡ actors }
    ensures called { Called (sweep_map maps.now actors sweep map memory.now) (P.steps port.old) (P.steps port.new) result memory.now.frame }
    ensures argument { numbered maps.now map ≡ None → result ≡ Err BadArgument }
    ensures kept { P.fixed port.new ≡ P.fixed port.old }
{
    let Some(decl) = numbered(maps, map) else {
        return Err(HelperFault::Helper);
    };
    sweep_all(
        alloc,
        port,
        sweep,
        decl.kind,
        MapId(map as u32),
        actors,
        memory,
    )
}

/// The arguments at an address are emitted with the format of a number.
pub fn printf<P: Port>(
    alloc: Global,
    port: &mut P,
    formats: &[Items<Piece>],
    format: u64,
    address: u64,
    memory: &Regions,
) -> Result<u64, HelperFault>
    ensures called { Called (printf formats.now format address memory.now) (P.steps port.old) (P.steps port.new) result memory.now.frame }
    ensures argument { numbered formats.now format ≡ None → result ≡ Err BadArgument }
    ensures kept { P.fixed port.new ≡ P.fixed port.old }
{
    let Some(pieces) = numbered(formats, format) else {
        return Err(HelperFault::Helper);
    };
    let values = match arguments_at(alloc, memory, pieces.as_slice(), address) {
        Ok(values) => values,
        Err(fault) => return Err(fault),
    };
    let format = format as u32;
    let mut op = Op::Emit(Item::Printf { format, values });
    tell(alloc, port, ObjectId::Out, &mut op, memory)
}

/// The run is stopped.
pub fn exit<P: Port>(alloc: Global, port: &mut P, memory: &Regions) -> Result<u64, HelperFault>
    ensures called { Called (exit memory.now) (P.steps port.old) (P.steps port.new) result memory.now.frame }
    ensures kept { P.fixed port.new ≡ P.fixed port.old }
{
    let mut op = Op::Stop;
    tell(alloc, port, ObjectId::Clock, &mut op, memory)
}

/// The warning that the loop of a line was cut is emitted.
pub fn cut<P: Port>(
    alloc: Global,
    port: &mut P,
    line: u64,
    memory: &Regions,
) -> Result<u64, HelperFault>
    ensures called { Called (cut line memory.now) (P.steps port.old) (P.steps port.new) result memory.now.frame }
    ensures argument { 2 ^ 32 ≤ line → result ≡ Err BadArgument }
    ensures kept { P.fixed port.new ≡ P.fixed port.old }
{
    if line >= 0x1_0000_0000 {
        return Err(HelperFault::Helper);
    }
    let mut op = Op::Emit(Item::Cut { line: line as u32 });
    tell(alloc, port, ObjectId::Out, &mut op, memory)
}

/// A string of the payload is written at an address. No step is made.
pub fn read_str(to: u64, place: u64, count: u64, memory: &mut Regions) -> Result<u64, HelperFault>
    ensures called { (steps : List Step) → Called (read_str to place count memory.old) steps steps result memory.new.frame }
    ensures not_memory { result ≢ Err (NoMemory out_of_memory) }
    ensures context { memory.new.context ≡ memory.old.context }
    ensures payload { memory.new.payload ≡ memory.old.payload }
{
    if !memory.in_frame(to, TEXT_BYTES as u64) {
        return Err(HelperFault::Address);
    }
    let text = payload_text(place, count, memory.payload());
    put(memory, to, &Value::Str(text));
    Ok(0)
}
