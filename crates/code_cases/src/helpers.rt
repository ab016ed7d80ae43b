// What helpers answer and which steps they make, over a port that keeps what it is asked.
ghost use Rattle.std.specs.Prelude.{◌≡◌, ◌<◌, ◌++◌, ◌∷◌, [], IfOk, IsTrue, OnOk, OnErr, length};
ghost use Rattle.typed_tree.specs.Scope.{is_fine_decl, is_fine_kind};
ghost use Rattle.code_cases.specs.Quiet.{reply_of, shared_reply, table_reply, clock_reply, value_of_map};
ghost use Rattle.std.specs.Option.{option_copied};

use crate::steps::tell_steps;
use anyhow::{Context, Result};
use bpf_interp::helper_calls::{HelperCalls, HelperFault};
use bpf_interp::regions::Regions;
use bt_core::item::Item;
use bt_core::items::Items;
use bt_core::key::Key;
use bt_core::map::{AggKind, MapDecl, MapId, MapKind, Shape};
use bt_core::memory::{Memory, TryCopy};
use bt_core::port::Port;
use bt_core::step::{ObjectId, Op, Reply, Step};
use bt_core::text::Str64;
use bt_core::value::Value;
use fmt_text::piece::Piece;
use helper_abi::helper_port::HelperPort;
use std::alloc::Global;
use std::mem;
use typed_tree::script::Typed;

fn value_of_map(decl: Option<&MapDecl>) -> Value
    ensures { result ≡ value_of_map (option_copied decl.entry) }
{
    match decl {
        None => Value::Int(7),
        Some(decl) => match decl.kind {
            MapKind::Strs => Value::Str(Str64::of(b"ab")),
            MapKind::Ints => Value::Int(7),
            MapKind::Aggs(_) => Value::Int(7),
        },
    }
}

fn shared_reply(alloc: Global, decl: Option<&MapDecl>, op: &Op) -> Reply
    ensures { result ≡ shared_reply (option_copied decl.entry) op.now }
{
    match op {
        Op::Get(_) => Reply::Value(value_of_map(decl)),
        Op::ReadAll => Reply::Pairs(Items::new(alloc)),
        _ => Reply::Done,
    }
}

fn table_reply(alloc: Global, op: &Op) -> Reply
    ensures { result ≡ table_reply op.now }
{
    match op {
        Op::Read(_) => Reply::Aggs(Items::new(alloc)),
        _ => Reply::Done,
    }
}

fn clock_reply(op: &Op) -> Reply
    ensures { result ≡ clock_reply op.now }
{
    match op {
        Op::Cross(_) => Reply::Last(false),
        Op::Check => Reply::Stopped(false),
        _ => Reply::Done,
    }
}

fn reply_of(alloc: Global, maps: &[MapDecl], object: ObjectId, op: &Op) -> Reply
    ensures { result ≡ reply_of maps.now object op.now }
{
    match object {
        ObjectId::Shared { map, .. } => shared_reply(alloc, maps.get(map.0 as usize), op),
        ObjectId::Cpu(_) => table_reply(alloc, op),
        ObjectId::Clock => clock_reply(op),
        ObjectId::Out => Reply::Done,
    }
}

// Adds a step of an actor at the end. Its operation is taken out; where there is no memory for the step, the operation and the list are
// as before.
fn keep_step(
    steps: &mut Items<Step>,
    actor: u32,
    object: ObjectId,
    op: &mut Op,
    reply: Reply,
) -> Result<(), Memory>
    ensures ok { OnOk result (steps.new ≡ steps.old ++ record { actor = actor; object = object; stamp = 0; op = op.old; reply = reply } ∷ []) }
    ensures err { OnErr result (steps.new ≡ steps.old) }
    ensures whole { OnErr result (op.new ≡ op.old) }
{
    let place = steps.len();
    let room = Step {
        actor,
        object,
        stamp: 0,
        op: Op::Stop,
        reply: Reply::Done,
    };
    steps.push(room)?;
    let step = Step {
        actor,
        object,
        stamp: 0,
        op: mem::replace(op, Op::Stop),
        reply,
    };
    steps.set(place, step);
    Ok(())
}

/// A port that keeps its steps, and whose objects hold nothing but what they answer to a `Get`.
#[derive(Drop)]
struct Quiet {
    maps: Items<MapDecl>,
    steps: Items<Step>,
}

impl Port for Quiet {
    type Home = ();

    ghost steps = { λ s. s.steps };

    ghost fixed = { λ s. record { setting = record { actor = 1; actors = 2; ticks = 0; maps = s.maps }; home = tt } };

    fn step(&mut self, alloc: Global, object: ObjectId, op: &mut Op) -> Result<(), Memory> {
        let reply = reply_of(alloc, self.maps.as_slice(), object, op);
        keep_step(&mut self.steps, 1, object, op, reply)
    }

    fn last(&self) -> &Reply {
        let steps = self.steps.as_slice();
        let place = steps.len() - 1;
        &steps[place].reply
    }
}

fn decl(alloc: Global, kind: MapKind, shape: Shape) -> Result<MapDecl, Memory>
    requires { IsTrue (is_fine_kind kind) }
    ensures { IfOk result (λ decl. IsTrue (is_fine_decl decl)) }
{
    let mut key_shape = Items::new(alloc);
    key_shape.push(shape)?;
    Ok(MapDecl {
        name: Items::new(alloc),
        kind,
        key_shape,
    })
}

/// The format `%d`, alone.
fn formats(alloc: Global) -> Result<Items<Items<Piece>>, Memory> {
    let mut pieces = Items::new(alloc);
    pieces.push(Piece::Conversion {
        left: false,
        zero: false,
        width: 0,
        letter: b'd',
    })?;
    let mut formats = Items::new(alloc);
    formats.push(pieces)?;
    Ok(formats)
}

// A script with a map of numbers, one of strings, one of counts and one of histograms, and the format `%d`.
fn script(alloc: Global) -> Result<Typed, Memory> {
    let mut maps = Items::new(alloc);
    maps.push(decl(alloc, MapKind::Ints, Shape::Int)?)?;
    maps.push(decl(alloc, MapKind::Strs, Shape::Str)?)?;
    maps.push(decl(alloc, MapKind::Aggs(AggKind::Count), Shape::Int)?)?;
    maps.push(decl(alloc, MapKind::Aggs(AggKind::Hist), Shape::Int)?)?;
    let formats = formats(alloc)?;
    Ok(Typed {
        maps,
        formats,
        bodies: Items::new(alloc),
        uses_exit: true,
    })
}

/// What a call gave: its answer, its steps, and the eight bytes of the frame from byte 16 on.
#[derive(Drop)]
struct Asked {
    answer: Result<u64, HelperFault>,
    steps: Items<Step>,
    word: u64,
}

const KEY: u64 = 0x3_0000_0000;

const VALUE: u64 = 0x3_0000_0008;

/// Where a call of the lines writes, if anywhere.
const TO: u64 = 0x3_0000_0010;

const TEXT: u64 = 0x3_0000_0040;

// Calls a helper over a frame with the key 5, the value 9, the number 6 and the string `cd`, for actor 1 of 2.
fn called(alloc: Global, number: u32, args: [u64; 3]) -> Result<Asked, Memory> {
    let typed = script(alloc)?;
    let mut port = Quiet {
        maps: typed.maps.try_copy(alloc)?,
        steps: Items::new(alloc),
    };
    let context = [0; 128];
    let mut memory = Regions::new(&context, &[7, 97, 98, 0, 99]);
    memory.store(KEY, &5u64.to_le_bytes());
    memory.store(VALUE, &9u64.to_le_bytes());
    memory.store(TO, &6u64.to_le_bytes());
    memory.store(TEXT, &[99, 100]);
    let mut helpers = HelperPort::new(&mut port, &typed, 1, 2);
    let args = [args[0], args[1], args[2], 0, 0];
    let answer = helpers.call(alloc, number, args, &mut memory);
    let mut word = [0; 8];
    if let Some(bytes) = memory.bytes(TO, 8) {
        word.copy_from_slice(bytes);
    }
    let Quiet { maps: _, steps } = port;
    Ok(Asked {
        answer,
        steps,
        word: u64::from_le_bytes(word),
    })
}

/// The numbers of a call: that of the helper, and its three arguments.
fn numbers_of(words: &str) -> Result<[u64; 4]> {
    let mut numbers = [0; 4];
    for (number, word) in numbers.iter_mut().zip(words.split(' ')) {
        *number = word.parse::<u64>()?;
    }
    Ok(numbers)
}

/// Tells what comes of a line `NAME = NUMBER A B C`, the number and the arguments of a call in decimals: its answer, the
/// eight bytes that it may have written, and its steps.
pub(crate) fn tell_helper<R: Print + AllocGlobal>(rt: &R, line: &str) -> Result<()> {
    let (name, words) = line.split_once(" = ").context("no call")?;
    let [number, a, b, c] = numbers_of(words)?;
    let asked = called(rt.alloc(), u32::try_from(number)?, [a, b, c])?;
    let (answer, word) = (&asked.answer, asked.word);
    println!(rt; "{name}: {answer:?}, {word:x}")?;
    tell_steps(rt, asked.steps.as_slice())
}
