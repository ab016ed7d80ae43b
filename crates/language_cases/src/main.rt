//! Tells the tokens, the trees and the places of the texts in `data/texts.jsonl`. What it has to tell stands in `stdout`, worked out by
//! hand.
#![tactic(auto)]

mod asked;
mod tokens;
mod trees;

use anyhow::{Context, Result};
use asked::Asked;
use bt_lexer::lexer::lex;
use std::fs;
use tokens::{tell_place, tell_tokens};
use trees::{tell_grouping, tell_places, tell_tree};

/// Tells what is asked of a text: its tokens or their first fault, its tree or why there is none, how three numbers are grouped, the
/// places of nodes, or the line and the column of an offset.
fn tell<R: Print + AllocGlobal>(rt: &R, asked: &Asked) -> Result<()> {
    let alloc = rt.alloc();
    let text = &asked.text[..asked.text.len().min(4096)];
    let tokens = match lex(alloc, text) {
        Ok(tokens) => tokens,
        Err(fault) => return Ok(println!(rt; " {fault:?}")?),
    };
    let tokens = &tokens.as_slice()[..tokens.len().min(4096)];
    match asked.what.as_str() {
        "tokens" => tell_tokens(rt, text, tokens),
        "tree" => tell_tree(rt, tokens),
        "grouping" => tell_grouping(rt, tokens),
        "places" => tell_places(rt, tokens),
        _ => tell_place(rt, text, asked.offset),
    }
}

/// Tells what each line of the data asks for, behind the line's number.
fn main(rt: HostRuntime) -> Result<()> {
    let data = fs::read_to_string(&rt, "texts.jsonl").context("reading texts.jsonl")?;
    let mut number = 0u64;
    for line in data.as_str().lines() {
        number = number.saturating_add(1);
        print!(rt; "{number}:")?;
        tell(&rt, &Asked::of(rt.alloc(), line)?)?;
    }
    Ok(())
}
