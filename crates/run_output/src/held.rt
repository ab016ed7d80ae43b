// What the types of values say of a job.
ghost use Rattle.std.specs.List.{AllByRecursion};
ghost use Rattle.code_runs.specs.Kept.{AreHeld};
ghost use Rattle.run_output.specs.Held.{IsHeldTick, IsHeldTrack};

use crate::job::Job;
use bt_ast::attached::Tick;
use bt_core::items::Items;
use recordings::recording::CpuTrack;

/// What all entries have of bytes are bytes, as their types say. Nothing is read.
fn tracks_are_held(tracks: &Items<CpuTrack>)
    ensures { AllByRecursion IsHeldTrack tracks.now }
{}

/// The times of all ticks have 64 bits, as their types say. Nothing is read.
fn ticks_are_held(ticks: &Items<Tick>)
    ensures { AllByRecursion IsHeldTick ticks.now }
{}

/// The bytes and the times of a job are as a program holds them. Nothing is read, and nothing changes.
pub fn job_is_held(job: &Job)
    ensures { AreHeld job.now.attached job.now.recording }
{
    tracks_are_held(&job.recording.cpus);
    ticks_are_held(&job.attached.ticks);
}
