// A script with one body, over the events of two CPUs.
ghost use Rattle.std.specs.Prelude.{◌<◌, ◌^◌, length, IfOk};
ghost use Rattle.bt_meaning.specs.Jobs.{IsJob};

use bt_ast::attached::Attached;
use bt_ast::probe::Script;
use bt_attach::attach::attach;
use bt_core::memory::Memory;
use bt_lexer::lexer::lex;
use bt_parser::parse::parse;
use bt_types::script::check;
use rec_format::reading::read_recording;
use recordings::recording::Recording;
use std::alloc::Global;
use std::test::Fail;
use typed_tree::script::Typed;

/// A script with one body, which sets a shared map to 7, counts in an aggregation, and prints the number of the CPU.
const BODY: &[u8] = b"tracepoint:t:e { @x = 7; @ = count(); printf(\"%d\\n\", cpu); }";

/// What stands in front of the CPUs: that there are two, the time from 0 to two seconds, and one format, of an event `e` with one field.
const HEAD: &[u8] = b"BTRACE01\x02\0\0\0\x01\0\0\0\0\0\0\0\0\0\0\0\0\x94\x35\x77\0\0\0\0\
\x01\0t\x41\0\0\0name: e\n\
ID: 7\n\
format:\n\
\tfield:long v;\toffset:8;\tsize:8;\tsigned:1;\n";

/// What stands in front of the two entries of the first CPU, whose number is 0.
const FIRST: &[u8] = b"\0\0\0\0\x02\0\0\0";

/// What stands in front of the two entries of the second CPU, whose number is 1.
const SECOND: &[u8] = b"\x01\0\0\0\x02\0\0\0";

/// The time 0.
const AT_0: &[u8] = b"\0\0\0\0\0\0\0\0";

/// The time 1.
const AT_1: &[u8] = b"\x01\0\0\0\0\0\0\0";

/// What stands behind the time of an event `e`.
const EVENT: &[u8] = b"\x01\0\0\0\x01\0\0\0\0\0\0\0\0\0\0\0bash\0\0\0\0\0\0\0\0\0\0\0\0\
\x10\0\0\0\x07\0\0\0\0\0\0\0\x2a\0\0\0\0\0\0\0";

/// A recording of two CPUs with two events each.
const TWO_EACH: [&[u8]; 11] = [
    HEAD, FIRST, AT_0, EVENT, AT_1, EVENT, SECOND, AT_0, EVENT, AT_1, EVENT,
];

/// Parts as one.
fn joined(alloc: Global, parts: &[&[u8]]) -> Result<Vec<u8>, Memory> {
    let mut bytes = Vec::new(alloc);
    for part in parts {
        bytes.extend_from_slice(part)?;
    }
    Ok(bytes)
}

/// The tree of a script with few probes.
fn tree_of(alloc: Global, text: &[u8]) -> Result<Script, Fail>
    requires { length text.now < 2 ^ 32 }
    ensures { IfOk result (λ tree. length tree.probes < 2 ^ 32) }
{
    let tokens = lex(alloc, text)?;
    if tokens.len() > 0xffff_ffff {
        return Err(Fail::new("too many tokens"));
    }
    let tree = parse(alloc, tokens.as_slice())?;
    if tree.probes.len() > 0xffff_ffff {
        return Err(Fail::new("too many probes"));
    }
    Ok(tree)
}

/// A script with its types, and what it is attached to in a recording.
pub struct Scripted {
    pub recording: Recording,
    pub attached: Attached,
    pub typed: Typed,
}

// Written out, so that it is one call wherever such a value is let go.
impl Drop for Scripted {
    fn drop(self) {
        let Self {
            recording: _,
            attached: _,
            typed: _,
        } = self;
    }
}

/// The script, over the recording of two CPUs with two events each.
pub fn new_scripted(alloc: Global) -> Result<Scripted, Fail>
    ensures { IfOk result (λ s. IsJob s.typed s.attached s.recording) }
{
    bt_attach::laws::bodies_are_there();
    job_laws::laws::accepted_scripts_are_jobs();
    let recording = read_recording(alloc, joined(alloc, &TWO_EACH)?)?;
    let formats = recording.formats.as_slice();
    let tree = tree_of(alloc, BODY)?;
    let attached = attach(alloc, &tree, formats, recording.start, recording.end)?;
    let typed = check(alloc, &tree, &attached, formats)?;
    Ok(Scripted {
        recording,
        attached,
        typed,
    })
}
