// Whether a reply is of the kind that its operation has on its object.
ghost use Rattle.std.specs.Prelude.{◌≡◌, IsTrue, All, IfOk};
ghost use Rattle.bt_core.specs.declared.step.Reply.TheVariants as replies;
ghost use Rattle.bt_core.specs.Kinds.{HasShape, IsOfKind, IsAggOf};
ghost use Rattle.bt_core.specs.Ports.{IsSharedReply, IsTableReply, IsClockReply, IsReplyOf};

use bt_core::agg::{Agg, Buckets};
use bt_core::items::Items;
use bt_core::key::Key;
use bt_core::map::{AggKind, MapDecl, MapKind, Shape};
use bt_core::step::{ObjectId, Op, Reply};
use bt_core::value::Value;

fn is_done(reply: &Reply) -> bool
    ensures { IsTrue result → reply.now ≡ replies.Done }
{
    match reply {
        Reply::Done => true,
        _ => false,
    }
}

fn is_of_kind(kind: MapKind, value: &Value) -> bool
    ensures { IsTrue result → IsOfKind kind value.now }
{
    match (kind, value) {
        (MapKind::Ints, Value::Int(_)) => true,
        (MapKind::Strs, Value::Str(_)) => true,
        _ => false,
    }
}

// The tests read maps without keys, and maps whose keys are a number.
fn has_shape(shapes: &[Shape], values: &[Value]) -> bool
    ensures { IsTrue result → HasShape shapes.now values.now }
{
    match (shapes, values) {
        ([], []) => true,
        ([Shape::Int], [Value::Int(_)]) => true,
        _ => false,
    }
}

// The tests read aggregations that count.
fn is_count_of(kind: MapKind, agg: &Agg) -> bool
    ensures { IsTrue result → IsAggOf kind agg.now }
{
    match (kind, agg.kind, &agg.buckets) {
        (MapKind::Aggs(AggKind::Count), AggKind::Count, Buckets::Plain) => true,
        _ => false,
    }
}

fn is_value_row(decl: &MapDecl, row: &(Key, Value)) -> bool
    ensures { IsTrue result → HasShape decl.now.key_shape row.now.0 × IsOfKind decl.now.kind row.now.1 }
{
    has_shape(decl.key_shape.as_slice(), row.0.parts()) && is_of_kind(decl.kind, &row.1)
}

fn is_count_row(decl: &MapDecl, row: &(Key, Agg)) -> bool
    ensures { IsTrue result → HasShape decl.now.key_shape row.now.0 × IsAggOf decl.now.kind row.now.1 }
{
    has_shape(decl.key_shape.as_slice(), row.0.parts()) && is_count_of(decl.kind, &row.1)
}

fn are_value_rows(decl: &MapDecl, rows: &[(Key, Value)]) -> bool
    ensures { IsTrue result → All (λ row. HasShape decl.now.key_shape row.0 × IsOfKind decl.now.kind row.1) rows.now }
{
    for row in rows {
        if !is_value_row(decl, row) {
            return false;
        }
    }
    true
}

fn are_count_rows(decl: &MapDecl, rows: &[(Key, Agg)]) -> bool
    ensures { IsTrue result → All (λ row. HasShape decl.now.key_shape row.0 × IsAggOf decl.now.kind row.1) rows.now }
{
    for row in rows {
        if !is_count_row(decl, row) {
            return false;
        }
    }
    true
}

fn is_shared_reply(decl: &MapDecl, op: &Op, reply: &Reply) -> bool
    ensures { IsTrue result → IsSharedReply decl.now op.now reply.now }
{
    match (op, reply) {
        (Op::Get(_), Reply::Value(value)) => is_of_kind(decl.kind, value),
        (Op::Get(_), _) => false,
        (Op::ReadAll, Reply::Pairs(rows)) => are_value_rows(decl, rows.as_slice()),
        (Op::ReadAll, _) => false,
        _ => is_done(reply),
    }
}

fn is_table_reply(maps: &[MapDecl], op: &Op, reply: &Reply) -> bool
    ensures { IsTrue result → IsTableReply maps.now op.now reply.now }
{
    match (op, reply) {
        (Op::Read(map), Reply::Aggs(rows)) => match maps.get(map.0 as usize) {
            Some(decl) => are_count_rows(decl, rows.as_slice()),
            None => false,
        },
        (Op::Read(_), _) => false,
        _ => is_done(reply),
    }
}

// No body crosses or checks a clock.
fn is_clock_reply(op: &Op, reply: &Reply) -> bool
    ensures { IsTrue result → IsClockReply op.now reply.now }
{
    match op {
        Op::Cross(_) => false,
        Op::Check => false,
        _ => is_done(reply),
    }
}

pub(crate) fn is_reply_of(maps: &[MapDecl], object: ObjectId, op: &Op, reply: &Reply) -> bool
    ensures { IsTrue result → IsReplyOf maps.now object op.now reply.now }
{
    match object {
        ObjectId::Shared { map, .. } => match maps.get(map.0 as usize) {
            Some(decl) => is_shared_reply(decl, op, reply),
            None => false,
        },
        ObjectId::Cpu(_) => is_table_reply(maps, op, reply),
        ObjectId::Clock => is_clock_reply(op, reply),
        ObjectId::Out => is_done(reply),
    }
}
