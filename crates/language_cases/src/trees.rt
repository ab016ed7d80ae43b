// What is told of trees.
use anyhow::Result;
use ast_text::text::to_text;
use bt_ast::expr::{Expr, ExprKind};
use bt_ast::gathering::Gathering;
use bt_ast::probe::{Probe, Script};
use bt_ast::stmt::{AggCall, Stmt, StmtKind};
use bt_core::place::Place;
use bt_lexer::token::Token;
use bt_parser::parse::parse;

/// Tells the text of a tree.
fn tell_text<R: Print + AllocGlobal>(rt: &R, script: &Script) -> Result<()> {
    let text = to_text(rt.alloc(), script)?;
    print!(rt;
        "\n{}",
        str::from_utf8(text.as_slice()).unwrap_or("no text")
    )?;
    Ok(())
}

/// Tells the text of a tree, or why tokens have none.
pub(crate) fn tell_tree<R: Print + AllocGlobal>(rt: &R, tokens: &[Token]) -> Result<()> {
    let tokens = &tokens[..tokens.len().min(4096)];
    match parse(rt.alloc(), tokens) {
        Ok(script) => tell_text(rt, &script),
        Err(fault) => Ok(println!(rt; " {fault:?}")?),
    }
}

/// The one probe of a tree, and the one statement of that probe.
fn only(script: &Script) -> Option<(&Probe, &Stmt)> {
    match script.probes.as_slice() {
        [probe] => match probe.block.stmts.as_slice() {
            [stmt] => Some((probe, stmt)),
            _ => None,
        },
        _ => None,
    }
}

/// Whether an expression of three numbers is the first one joined with the other two, and not the first two with the third one.
fn groups_right(value: &Expr) -> bool {
    match &value.kind {
        ExprKind::Binary { left, .. }
        | ExprKind::AndThen { left, .. }
        | ExprKind::OrElse { left, .. } => matches!(left.get().kind, ExprKind::Number(_)),
        _ => false,
    }
}

/// Which two of the three numbers that a script assigns come together first.
fn grouping(script: &Script) -> &'static str {
    let Some((_, stmt)) = only(script) else {
        return "no assignment";
    };
    match &stmt.kind {
        StmtKind::Assign { value, .. } if groups_right(value) => "the last two",
        StmtKind::Assign { .. } => "the first two",
        _ => "no assignment",
    }
}

/// Tells which two of the three numbers that a script assigns come together first.
pub(crate) fn tell_grouping<R: Print + AllocGlobal>(rt: &R, tokens: &[Token]) -> Result<()> {
    let script = parse(rt.alloc(), &tokens[..tokens.len().min(4096)])?;
    println!(rt; " {}", grouping(&script))?;
    Ok(())
}

/// Tells the place of a node.
fn at<R: Print>(rt: &R, node: &str, place: Place) -> Result<()> {
    print!(rt; " {node} {}:{}", place.line, place.column)?;
    Ok(())
}

/// The word of a histogram.
fn word(function: Gathering) -> &'static str {
    match function {
        Gathering::Hist => "hist",
        _ => "another",
    }
}

/// Tells the places of a probe and of its predicate, its block and its statement.
fn tell_probe<R: Print>(rt: &R, probe: &Probe, stmt: &Stmt) -> Result<()> {
    at(rt, "probe", probe.place)?;
    if let Some(predicate) = &probe.predicate {
        at(rt, "predicate", predicate.place)?;
    }
    at(rt, "block", probe.block.place)?;
    at(rt, "statement", stmt.place)
}

/// Tells the places of the nodes of a statement that gathers a number.
fn tell_gathering<R: Print>(rt: &R, stmt: &Stmt) -> Result<()> {
    if let StmtKind::SetAgg {
        map,
        agg: AggCall::Gather { function, number },
        agg_place,
    } = &stmt.kind
    {
        at(rt, "map", map.place)?;
        at(rt, word(*function), *agg_place)?;
        at(rt, "number", number.place)?;
    }
    Ok(())
}

/// Tells the places of the nodes of a script that gathers a number under a condition.
pub(crate) fn tell_places<R: Print + AllocGlobal>(rt: &R, tokens: &[Token]) -> Result<()> {
    let script = parse(rt.alloc(), &tokens[..tokens.len().min(4096)])?;
    if let Some((probe, stmt)) = only(&script) {
        tell_probe(rt, probe, stmt)?;
        tell_gathering(rt, stmt)?;
    }
    println!(rt; "")?;
    Ok(())
}
