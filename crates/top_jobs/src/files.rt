// The files that orders name.
ghost use Rattle.std.specs.Prelude.{◌≡◌, ◌≢◌, ◌≤◌, ◌⊎◌, [], ◌∷◌, ◌++◌, ℕ, List, IfOk, IfErr};
ghost use Rattle.bt_io.specs.Parts.{joined};
ghost use Rattle.bt_meaning.specs.Jobs.{IsJob};
ghost use Rattle.top_refusals.specs.declared.refusal.Refusal.TheVariants as refusal;
ghost use Rattle.top_jobs.specs.Doing.{ComesOfFiles, IsAccountJob, IsRead, IsUnread, refusal_in};
ghost use Rattle.top_jobs.specs.FailedNames.{FailsNamed};
ghost use Rattle.top_jobs.specs.Jobs.{IsJobFor};
ghost use Rattle.top_refusals.specs.Orders.{file_of, limit_of, on_account, on_script};
ghost use Rattle.top_jobs.specs.Reads.{shelf_use};

use crate::judge::judge;
use crate::reader::{ManyThreads, OneThread, Reader};
use bt_core::items::Items;
use bt_core::limits::{RECORDING_BYTES, SCRIPT_BYTES};
use bt_io::shelf::Shelf;
use run_output::job::Job;
use std::alloc::Global;
use std::thread::Threads;
use top_refusals::limits::ACCOUNT_BYTES;
use top_refusals::refusal::{Operand, Refusal, read_refusal};

/// How many bytes a file may have.
fn limit_of(operand: Operand) -> u64
    ensures { result ≡ limit_of operand }
{
    match operand {
        Operand::Script => SCRIPT_BYTES,
        Operand::Recording => RECORDING_BYTES,
        Operand::Account => ACCOUNT_BYTES,
    }
}

/// Reads the file of an operand.
fn read_file<S: Shelf>(
    alloc: Global,
    operand: Operand,
    name: &str,
    shelf: &mut S,
) -> Result<Vec<u8>, Refusal>
    ensures read { IfOk result (λ bytes. IsRead (S.held shelf.old) (file_of operand name.now) bytes.items) }
    ensures unread { IfErr result (IsUnread (file_of operand name.now) (shelf_use S.held S.faults S.asked shelf.old shelf.new)) }
    ensures named { IfOk result (λ bytes. S.asked shelf.new ≡ S.asked shelf.old ++ name.now ∷ []) }
    ensures named_unless { IfErr result (λ error. error ≢ refusal.Memory → S.asked shelf.new ≡ S.asked shelf.old ++ name.now ∷ []) }
    ensures named_or_not { (S.asked shelf.new ≡ S.asked shelf.old ++ name.now ∷ []) ⊎ (S.asked shelf.new ≡ S.asked shelf.old) }
    ensures kept { (other : List ℕ) → S.held shelf.new other ≡ S.held shelf.old other }
    ensures later { S.faults shelf.old ≤ S.faults shelf.new }
    ensures fault_named { FailsNamed (file_of operand name.now ∷ []) (refusal_in result) (S.failed shelf.old) (S.failed shelf.new) }
{
    match shelf.read(alloc, name, limit_of(operand)) {
        Ok(bytes) => Ok(bytes),
        Err(error) => Err(read_refusal(operand, error)),
    }
}

/// Reads the file of a recording in parts, by a reader.
fn read_parts<S: Shelf, W: Reader>(
    alloc: Global,
    reader: &W,
    name: &str,
    shelf: &mut S,
) -> Result<Vec<Items<u8>>, Refusal>
    requires { W.can_read reader.now }
    ensures read { IfOk result (λ parts. IsRead (S.held shelf.old) (file_of Operand.Recording name.now) (joined parts.items)) }
    ensures unread { IfErr result (IsUnread (file_of Operand.Recording name.now) (shelf_use S.held S.faults S.asked shelf.old shelf.new)) }
    ensures named { IfOk result (λ parts. S.asked shelf.new ≡ S.asked shelf.old ++ name.now ∷ []) }
    ensures named_unless { IfErr result (λ error. error ≢ refusal.Memory → S.asked shelf.new ≡ S.asked shelf.old ++ name.now ∷ []) }
    ensures named_or_not { (S.asked shelf.new ≡ S.asked shelf.old ++ name.now ∷ []) ⊎ (S.asked shelf.new ≡ S.asked shelf.old) }
    ensures kept { (other : List ℕ) → S.held shelf.new other ≡ S.held shelf.old other }
    ensures later { S.faults shelf.old ≤ S.faults shelf.new }
    ensures fault_named { FailsNamed (file_of Operand.Recording name.now ∷ []) (refusal_in result) (S.failed shelf.old) (S.failed shelf.new) }
{
    match reader.parts(alloc, name, RECORDING_BYTES, shelf) {
        Ok(parts) => Ok(parts),
        Err(error) => Err(read_refusal(Operand::Recording, error)),
    }
}

/// Reads the script and the recording of these names, the latter by a reader, and answers what they ask for.
fn read_job_by<S: Shelf, W: Reader>(
    alloc: Global,
    reader: &W,
    script: &str,
    recording: &str,
    shelf: &mut S,
) -> Result<Job, Refusal>
    requires { W.can_read reader.now }
    ensures can_run { IfOk result (λ job. IsJob job.typed job.attached job.recording) }
    ensures performs { ComesOfFiles (on_script script.now recording.now) (IsJobFor (on_script script.now recording.now))
        (shelf_use S.held S.faults S.asked shelf.old shelf.new) result }
    ensures fault_named { FailsNamed (on_script script.now recording.now) (refusal_in result) (S.failed shelf.old) (S.failed shelf.new) }
{
    let text = match read_file(alloc, Operand::Script, script, shelf) {
        Ok(text) => text,
        Err(refusal) => return Err(refusal),
    };
    let parts = match read_parts(alloc, reader, recording, shelf) {
        Ok(parts) => parts,
        Err(refusal) => return Err(refusal),
    };
    judge(alloc, reader, text.as_slice(), parts)
}

/// Reads the script and the recording of these names, and answers what they ask for.
pub fn read_job<S: Shelf>(
    alloc: Global,
    script: &str,
    recording: &str,
    shelf: &mut S,
) -> Result<Job, Refusal>
    ensures can_run { IfOk result (λ job. IsJob job.typed job.attached job.recording) }
    ensures performs { ComesOfFiles (on_script script.now recording.now) (IsJobFor (on_script script.now recording.now))
        (shelf_use S.held S.faults S.asked shelf.old shelf.new) result }
    ensures fault_named { FailsNamed (on_script script.now recording.now) (refusal_in result) (S.failed shelf.old) (S.failed shelf.new) }
{
    read_job_by(alloc, &OneThread, script, recording, shelf)
}

/// The same, where the parts of the recording, and then the entries of each CPU, are read on a thread of their own, if threads can be started
/// and the recording is large.
pub fn read_job_on_threads<S: Shelf, R: Threads + Sync>(
    rt: &R,
    alloc: Global,
    script: &str,
    recording: &str,
    shelf: &mut S,
) -> Result<Job, Refusal>
    ensures can_run { IfOk result (λ job. IsJob job.typed job.attached job.recording) }
    ensures performs { ComesOfFiles (on_script script.now recording.now) (IsJobFor (on_script script.now recording.now))
        (shelf_use S.held S.faults S.asked shelf.old shelf.new) result }
    ensures fault_named { FailsNamed (on_script script.now recording.now) (refusal_in result) (S.failed shelf.old) (S.failed shelf.new) }
{
    let reader = ManyThreads { rt };
    read_job_by(alloc, &reader, script, recording, shelf)
}

/// What a script and a recording ask for, and the bytes of an account.
pub struct AccountJob {
    pub job: Job,
    pub account: Vec<u8>,
}

// Written out, so that it is one call wherever such a value is let go.
impl Drop for AccountJob {
    fn drop(self) {
        let Self { job: _, account: _ } = self;
    }
}

/// Reads the script, the recording and the account of these names, and answers what the first two ask for, with the bytes of the third. All
/// three are read before any is judged.
pub fn read_account_job<S: Shelf>(
    alloc: Global,
    script: &str,
    recording: &str,
    account: &str,
    shelf: &mut S,
) -> Result<AccountJob, Refusal>
    ensures can_run { IfOk result (λ both. IsJob both.job.typed both.job.attached both.job.recording) }
    ensures performs { let files = on_account script.now recording.now account.now in
        ComesOfFiles files (IsAccountJob files) (shelf_use S.held S.faults S.asked shelf.old shelf.new) result }
    ensures fault_named { FailsNamed (on_account script.now recording.now account.now) (refusal_in result) (S.failed shelf.old) (S.failed shelf.new) }
{
    let text = match read_file(alloc, Operand::Script, script, shelf) {
        Ok(text) => text,
        Err(refusal) => return Err(refusal),
    };
    let parts = match read_parts(alloc, &OneThread, recording, shelf) {
        Ok(parts) => parts,
        Err(refusal) => return Err(refusal),
    };
    let account = match read_file(alloc, Operand::Account, account, shelf) {
        Ok(account) => account,
        Err(refusal) => return Err(refusal),
    };
    match judge(alloc, &OneThread, text.as_slice(), parts) {
        Ok(job) => Ok(AccountJob { job, account }),
        Err(refusal) => Err(refusal),
    }
}
