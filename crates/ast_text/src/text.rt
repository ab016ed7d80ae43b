// The texts of probes and scripts.
ghost use Rattle.std.specs.Prelude.{◌≡◌, ◌++◌, OnOk, IfOk, codes, decimal};
ghost use Rattle.ast_text.specs.Words.{token, unit_word};
ghost use Rattle.ast_text.specs.Scripts.{point_text, points_text, predicate_text, probe_text, script_text};

use crate::words::{unit_word, write_token};
use crate::write_expr::write_expr;
use crate::write_stmt::write_block;
use bt_ast::expr::Expr;
use bt_ast::probe::{Point, Probe, Script, Unit};
use bt_core::memory::Memory;
use itoa::Buffer;
use std::alloc::Global;

/// Writes the two parts behind the word of a point, with a colon between them.
fn write_parts(out: &mut Vec<u8>, first: &[u8], second: &[u8]) -> Result<(), Memory>
    ensures { OnOk result (out.new.items ≡ out.old.items ++ token (first.now ++ (codes ":" ++ second.now))) }
{
    out.extend_from_slice(first)?;
    out.push(b':')?;
    write_token(out, second)
}

fn write_tracepoint(out: &mut Vec<u8>, system: &[u8], name: &[u8]) -> Result<(), Memory>
    ensures { OnOk result (out.new.items ≡ out.old.items ++ token (codes "tracepoint:" ++ (system.now ++ (codes ":" ++ name.now)))) }
{
    out.extend_from_slice(b"tracepoint:")?;
    write_parts(out, system, name)
}

fn write_interval(out: &mut Vec<u8>, unit: Unit, number: u64) -> Result<(), Memory>
    ensures { OnOk result (out.new.items ≡ out.old.items ++ token (codes "interval:" ++ (unit_word unit ++ (codes ":" ++ decimal number)))) }
{
    let mut buffer = Buffer::new();
    out.extend_from_slice(b"interval:")?;
    write_parts(out, unit_word(unit), buffer.format(number).as_bytes())
}

fn write_point(out: &mut Vec<u8>, point: &Point) -> Result<(), Memory>
    ensures { OnOk result (out.new.items ≡ out.old.items ++ point_text point.now) }
{
    match point {
        Point::Begin { .. } => write_token(out, b"BEGIN"),
        Point::End { .. } => write_token(out, b"END"),
        Point::Tracepoint { system, name, .. } => {
            write_tracepoint(out, system.as_slice(), name.as_slice())
        }
        Point::Interval { unit, number, .. } => write_interval(out, *unit, *number),
    }
}

/// Writes points with a comma between them.
fn write_points(out: &mut Vec<u8>, points: &[Point]) -> Result<(), Memory>
    ensures { OnOk result (out.new.items ≡ out.old.items ++ points_text points.now) }
{
    let mut mark: &[u8] = b"";
    for point in points {
        out.extend_from_slice(mark)?;
        write_point(out, point)?;
        mark = b", ";
    }
    Ok(())
}

/// Writes a condition between slashes, where there is one.
fn write_predicate(out: &mut Vec<u8>, predicate: &Option<Expr>) -> Result<(), Memory>
    ensures { OnOk result (out.new.items ≡ out.old.items ++ predicate_text predicate.now) }
{
    match predicate {
        None => Ok(()),
        Some(condition) => {
            write_token(out, b"/")?;
            write_expr(out, condition)?;
            write_token(out, b"/")
        }
    }
}

fn write_probe(out: &mut Vec<u8>, probe: &Probe) -> Result<(), Memory>
    ensures { OnOk result (out.new.items ≡ out.old.items ++ probe_text probe.now) }
{
    write_points(out, probe.points.as_slice())?;
    write_predicate(out, &probe.predicate)?;
    write_block(out, &probe.block)
}

/// A text of the script, which has the same tree but for the places: a blank after each token, and a
/// new line after each brace and each semicolon. Names and numbers stand as the tree has them, and
/// what has a short form, as `t:` for `tracepoint:`, stands in the long one.
pub fn to_text(alloc: Global, script: &Script) -> Result<Vec<u8>, Memory>
    ensures text { IfOk result (λ text. text.items ≡ script_text script.now) }
{
    let mut out = Vec::new(alloc);
    for probe in script.probes.as_slice() {
        write_probe(&mut out, probe)?;
    }
    Ok(out)
}
