// What a script and a recording ask for.
ghost use Rattle.std.specs.Prelude.{◌≡◌, ◌≤◌, length, IfOk, IfErr};
ghost use Rattle.bt_io.specs.Parts.{joined};
ghost use Rattle.bt_core.specs.declared.limits.TheConstants.{SCRIPT_BYTES};
ghost use Rattle.bt_meaning.specs.Jobs.{IsJob};
ghost use Rattle.recordings.specs.Places.{AreBytes};
ghost use Rattle.recordings.specs.Recordings.{IsValidRecording};
ghost use Rattle.top_jobs.specs.Doing.{IsExact, IsFaultRefusal, IsScriptRefusal, refusal_in};
ghost use Rattle.top_jobs.specs.Jobs.{AsksFor, IsJobOf};

use crate::laws::scripts_have_one_size;
use crate::reader::Reader;
use crate::script::{attach_refusal, tree_of, type_refusal};
use crate::sizes::programs_for;
use bt_attach::attach::attach;
use bt_core::items::Items;
use bt_types::script::check;
use recordings::recording::Recording;
use run_output::job::Job;
use std::alloc::Global;
use top_refusals::refusal::{Refusal, recording_refusal};

/// What a script asks for over a recording, whose probes may all be attached to it and whose bodies have types and are not too large.
pub fn script_job(alloc: Global, script: &[u8], recording: Recording) -> Result<Job, Refusal>
    requires short { length script.now ≤ SCRIPT_BYTES }
    requires valid { IsValidRecording recording }
    ensures same { IfOk result (λ job. job.recording ≡ recording) }
    ensures asks { IfOk result (AsksFor script.now) }
    ensures fault { IfErr result (IsScriptRefusal script.now recording) }
{
    bt_grammar::laws::few_probes();
    bt_attach::laws::bodies_are_there();
    let tree = match tree_of(alloc, script) {
        Ok(tree) => tree,
        Err(refusal) => return Err(refusal),
    };
    let formats = recording.formats.as_slice();
    let attached = match attach(alloc, &tree, formats, recording.start, recording.end) {
        Ok(attached) => attached,
        Err(error) => return Err(attach_refusal(error)),
    };
    let typed = match check(alloc, &tree, &attached, formats) {
        Ok(typed) => typed,
        Err(error) => return Err(type_refusal(error)),
    };
    match programs_for(alloc, &tree, &attached, &typed) {
        Ok(programs) => Ok(Job {
            recording,
            attached,
            typed,
            programs,
        }),
        Err(refusal) => Err(refusal),
    }
}

/// What a script and a recording in parts ask for, of which nothing is refused. The recording is refused before the script is.
fn accept<W: Reader>(
    alloc: Global,
    reader: &W,
    script: &[u8],
    recording: Vec<Items<u8>>,
) -> Result<Job, Refusal>
    requires can { W.can_read reader.now }
    requires short { length script.now ≤ SCRIPT_BYTES }
    ensures job { IfOk result (IsJobOf script.now (joined recording.items)) }
    ensures refused { IfErr result (IsFaultRefusal script.now (joined recording.items)) }
{
    match reader.read(alloc, recording) {
        Ok(recording) => script_job(alloc, script, recording),
        Err(error) => Err(recording_refusal(error)),
    }
}

/// Bytes are below 256, as their type says. Nothing is read.
fn are_bytes(bytes: &[u8])
    ensures { AreBytes bytes.now }
{}

/// Those of all parts are. The parts alone are gone over.
fn parts_are_bytes(parts: &[Items<u8>])
    ensures { AreBytes (joined parts.now) }
{
    for part in parts {
        are_bytes(part.as_slice());
    }
}

/// The same. Of what is due to them there is only one thing, so that comes unless memory runs out; and what they ask for can be run.
pub(crate) fn judge<W: Reader>(
    alloc: Global,
    reader: &W,
    script: &[u8],
    recording: Vec<Items<u8>>,
) -> Result<Job, Refusal>
    requires can { W.can_read reader.now }
    requires short { length script.now ≤ SCRIPT_BYTES }
    ensures job { IfOk result (IsJobOf script.now (joined recording.items)) }
    ensures can_run { IfOk result (λ job. IsJob job.typed job.attached job.recording) }
    ensures refused { IfErr result (IsFaultRefusal script.now (joined recording.items)) }
    ensures exact { IsExact script.now (joined recording.items) (refusal_in result) }
{
    parts_are_bytes(recording.as_slice());
    rec_format::laws::one_recording();
    rec_format::laws::one_fault();
    bt_lexer::laws::one_answer();
    bt_grammar::laws::one_answer();
    scripts_have_one_size();
    job_laws::laws::accepted_scripts_are_jobs();
    accept(alloc, reader, script, recording)
}
