// What the probes of a script are attached to.
ghost use Rattle.std.specs.Prelude.{◌≡◌, ◌≢◌, ◌+◌, ◌-◌, ◌≤◌, ◌<◌, ◌^◌, [], length, None, Some, IfOk, IfErr};
ghost use Rattle.bt_attach.specs.Attaching.{IsAttachedTo, attach_fault};

use crate::bodies::{Runs, add_bodies};
use crate::error::AttachError;
use crate::probe::check_points;
use crate::ticks::{add_points, in_order};
use bt_ast::attached::{Attached, BodyId, Tick};
use bt_ast::probe::{Probe, Script};
use bt_core::items::Items;
use event_layout::format::Format;
use std::alloc::Global;

/// The bodies of probes, and their ticks in the order of their points.
#[derive(Drop)]
pub(crate) struct Found {
    pub bodies: Items<BodyId>,
    pub ticks: Vec<Tick>,
}

impl Found {
    ghost use Rattle.std.specs.Prelude.{◌≡◌, ◌≤◌, ◌<◌, ◌+◌, ◌^◌, [], length};
    ghost use Rattle.bt_core.specs.declared.limits.TheConstants.{TICKS as MOST_TICKS, BODIES as MOST_BODIES};
    ghost use Rattle.bt_attach.specs.Attaching.{points_fault, probes_fault};
    ghost use Rattle.bt_attach.specs.Steps.{AddsProbe, IsFound, Answers};

    /// Adds a probe, where none of its points breaks a rule.
    fn add_probe(
        &mut self,
        alloc: Global,
        place: u32,
        probe: &Probe,
        formats: &[Format],
        start: u64,
        span: u64,
    ) -> Result<(), AttachError>
        requires formats { length formats.now < 2 ^ 32 }
        requires end { start + span < 2 ^ 64 }
        requires few_bodies { length self.old.bodies ≤ MOST_BODIES }
        requires few_ticks { length self.old.ticks.items ≤ MOST_TICKS }
        ensures { let fault = points_fault formats.now span (length self.old.ticks.items) (length self.old.bodies) [] probe.now.points in
            Answers fault (λ _. AddsProbe formats.now start span place probe.now.points self.old self.new) result }
    {
        let points = probe.points.as_slice();
        let seen = check_points(
            alloc,
            points,
            formats,
            span,
            self.ticks.len() as u64,
            self.bodies.len() as u64,
        )?;
        let body = self.bodies.len() as u32 + u32::from(seen.begin) + u32::from(seen.end);
        add_points(&mut self.ticks, start, span, body, points)?;
        add_bodies(&mut self.bodies, place, &seen)?;
        Ok(())
    }

    /// All that the probes of a script add.
    fn of(
        alloc: Global,
        probes: &[Probe],
        formats: &[Format],
        start: u64,
        span: u64,
    ) -> Result<Found, AttachError>
        requires probes { length probes.now < 2 ^ 32 }
        requires formats { length formats.now < 2 ^ 32 }
        requires end { start + span < 2 ^ 64 }
        ensures { Answers (probes_fault formats.now span 0 0 probes.now) (IsFound formats.now start span probes.now) result }
    {
        let mut found = Found {
            bodies: Items::new(alloc),
            ticks: Vec::new(alloc),
        };
        for (i, probe) in probes.iter().enumerate() {
            found.add_probe(alloc, i as u32, probe, formats, start, span)?;
        }
        Ok(found)
    }
}

/// What the probes of a script are attached to over the formats of a recording and the time from its
/// start to its end: the bodies of each probe, the bodies that each format's events run, and the ticks.
///
/// # Errors
///
/// The first point in the order of the script that breaks a rule, with the first rule that it breaks, in
/// the order of [`AttachError`]. [`AttachError::Memory`] may come at any script.
pub fn attach(
    alloc: Global,
    script: &Script,
    formats: &[Format],
    start: u64,
    end: u64,
) -> Result<Attached, AttachError>
    requires formats { length formats.now < 2 ^ 32 }
    requires probes { length script.now.probes < 2 ^ 32 }
    ensures found { IfOk result (λ attached. IsAttachedTo script.now formats.now start end attached) }
    ensures allowed { IfOk result (λ _. attach_fault script.now formats.now start end ≡ None) }
    ensures fault { IfErr result (λ e. e ≢ AttachError.Memory → attach_fault script.now formats.now start end ≡ Some e) }
{
    let probes = script.probes.as_slice();
    let Found { bodies, ticks } = Found::of(
        alloc,
        probes,
        formats,
        start,
        end.saturating_sub(start),
    )?;
    let ticks = in_order(ticks)?;
    let Runs {
        by_format,
        begin,
        end,
    } = Runs::of(alloc, bodies.as_slice(), formats.len() as u32)?;
    Ok(Attached {
        bodies,
        by_format,
        ticks,
        begin,
        end,
    })
}
