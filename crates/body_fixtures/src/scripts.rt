// Scripts and formats, and scripts with their types.
ghost use Rattle.std.specs.Prelude.{◌<◌, ◌^◌, length, IfOk};

use bt_ast::attached::Attached;
use bt_ast::probe::Script;
use bt_attach::attach::attach;
use bt_attach::error::AttachError;
use bt_core::items::Items;
use bt_lexer::lexer::lex;
use bt_parser::parse::parse;
use bt_types::script::check;
use event_layout::format::Format;
use expr_types::fault::TypeError;
use std::alloc::Global;
use std::test::Fail;
use tracefs_format::reading::read_layout;
use typed_tree::script::Typed;

/// The formats of the recording, by their systems.
const FORMATS: [(&[u8], &[u8]); 6] = [
    (
        b"t",
        b"name: e\nID: 7\nformat:\nfield:long v;offset:8;size:8;signed:1;\n",
    ),
    (b"t", b"name: enter\nID: 8\nformat:\n"),
    (b"t", b"name: exit\nID: 9\nformat:\n"),
    (
        b"block",
        b"name: block_rq_issue\nID: 10\nformat:\n\
field:dev_t dev;offset:8;size:4;signed:0;\n\
field:sector_t sector;offset:16;size:8;signed:0;\n",
    ),
    (
        b"block",
        b"name: block_rq_complete\nID: 11\nformat:\n\
field:dev_t dev;offset:8;size:4;signed:0;\n\
field:sector_t sector;offset:16;size:8;signed:0;\n",
    ),
    (
        b"raw_syscalls",
        b"name: sys_enter\nID: 12\nformat:\nfield:long id;offset:8;size:8;signed:1;\n",
    ),
];

fn format_of(alloc: Global, system: &[u8], text: &[u8]) -> Result<Format, Fail> {
    let layout = read_layout(alloc, &text[..text.len().min(4096)])?;
    let system = Items::from_slice(alloc, system)?;
    let text = Items::from_slice(alloc, text)?;
    Ok(Format {
        system,
        text,
        layout,
    })
}

fn formats_of(alloc: Global, texts: &[(&[u8], &[u8])]) -> Result<Vec<Format>, Fail> {
    let mut formats = Vec::new(alloc);
    for (system, text) in texts {
        formats.push(format_of(alloc, *system, *text)?)?;
    }
    Ok(formats)
}

fn script_of(alloc: Global, text: &[u8]) -> Result<Script, Fail>
    ensures { IfOk result (λ script. length script.probes < 2 ^ 32) }
{
    let tokens = lex(alloc, &text[..text.len().min(65_536)])?;
    let script = parse(alloc, &tokens.as_slice()[..tokens.len().min(65_536)])?;
    if script.probes.len() > 64 {
        return Err(Fail::from("more than 64 probes"));
    }
    Ok(script)
}

/// What the script of a text is attached to over formats and the time from a start to an end, or its first fault.
///
/// # Errors
///
/// The first fault of the text, or more than 64 probes, or want of memory.
pub fn attached_to(
    alloc: Global,
    text: &[u8],
    formats: &[Format],
    start: u64,
    end: u64,
) -> Result<Result<Attached, AttachError>, Fail> {
    let script = script_of(alloc, text)?;
    let formats = &formats[..formats.len().min(4096)];
    Ok(attach(alloc, &script, formats, start, end))
}

/// The same over the formats of these texts, each with its system.
///
/// # Errors
///
/// Those of [`attached_to`], and of the formats' texts.
pub fn attached_over(
    alloc: Global,
    text: &[u8],
    formats: &[(&[u8], &[u8])],
    start: u64,
    end: u64,
) -> Result<Result<Attached, AttachError>, Fail> {
    let formats = formats_of(alloc, formats)?;
    attached_to(alloc, text, formats.as_slice(), start, end)
}

fn checked(
    alloc: Global,
    text: &[u8],
    formats: &[Format],
    end: u64,
) -> Result<Result<Typed, TypeError>, Fail> {
    let script = script_of(alloc, text)?;
    let formats = &formats[..formats.len().min(64)];
    let attached = attach(alloc, &script, formats, 0, end)?;
    Ok(check(alloc, &script, &attached, formats))
}

/// The first fault of the types of a script, if it has one, over the formats of these texts, each with its system.
///
/// # Errors
///
/// The first fault of the text, of the formats' texts or of what it is attached to, or want of memory.
pub fn type_fault(
    alloc: Global,
    text: &[u8],
    formats: &[(&[u8], &[u8])],
) -> Result<Option<TypeError>, Fail> {
    let formats = formats_of(alloc, formats)?;
    Ok(checked(alloc, text, formats.as_slice(), 0)?.err())
}

/// The script of a text with its types, in a recording of two seconds with the formats `t:e`, which has the number `v`, `t:enter` and
/// `t:exit`, `block_rq_issue` and `block_rq_complete` of `block`, and `raw_syscalls:sys_enter`.
///
/// # Errors
///
/// The first fault of the text, of what it is attached to, or of its types, or want of memory.
pub fn typed_of(alloc: Global, text: &[u8]) -> Result<Typed, Fail> {
    let formats = formats_of(alloc, &FORMATS[..])?;
    Ok(checked(alloc, text, formats.as_slice(), 2_000_000_000)??)
}
