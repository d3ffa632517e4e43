//! What `run` writes of a manifest: a run of its plan on its first surface, by a crew.

ghost use Rattle.std.specs.Prelude.{◌≡◌, ◌^◌, ◌≤◌, List, All, None, IfOk, unwrap_or};
ghost use Rattle.surf_kinds.specs.declared.site.SpeciesId.{SpeciesId};
ghost use Rattle.surf_kinds.specs.Keys.{origin};
ghost use Rattle.lattice.specs.Surface.{first_surface};
ghost use Rattle.plan.specs.Products.{LeavesWithin};
ghost use Rattle.manifest_read.specs.Sound.{IsSound};
ghost use Rattle.surface_top.specs.Answer.{run_answer, scene_of};
ghost use Rattle.surface_top.specs.Crewed.{IsCrewFor, first_of, network_of};
ghost use Rattle.surface_top.specs.Ending.{Answered, HasBounds, run_ending};
ghost use Rattle.surface_top.specs.Kept.{IsCrewOf, left_by, RunLeaves};

use crate::ending::Ending;
use crew::{Crew, CrewSettings};
use manifest_read::Manifest;
use plan::Plan;
use regions::Cut;
use run_writer::{Span, Stop, Task, write_run};
use std::alloc::Global;
use std::thread::Threads;
use surf_kinds::NoMemory;
use surf_outside::{Gate, Sink};
use surface_state::Surface;
use watching::Nobody;

/// The options of a run.
#[derive(Clone, Copy)]
pub(crate) struct RunOptions {
    /// The most regions, from 1 to 64, each of which takes its turns on a worker of its own.
    pub(crate) workers: u64,
    /// The most entries that a region adds in a turn, from 1 to 65,536.
    pub(crate) quota: u64,
    /// How many messages the ring between two regions holds, from 1 to 65,536.
    pub(crate) slots: u64,
    /// In place of the manifest's seed.
    pub(crate) seed: Option<u64>,
    /// In ticks, in place of the manifest's duration.
    pub(crate) until: Option<u64>,
    pub(crate) samples: u64,
    pub(crate) limit: u64,
}

/// A crew for a run of a plan on a first surface up to a tick.
fn crew_of(
    alloc: Global,
    plan: Plan,
    surface: &Surface,
    until: u64,
    options: RunOptions,
) -> Result<Crew, NoMemory>
    requires lattice { surface.now.lattice ≡ plan.lattice }
    requires species { All (LeavesWithin surface.now.species_count) plan.rules }
    requires first { (cells : List SpeciesId) × (surface.now.sites ≡ first_surface cells) }
    requires duration { until ≤ 10 ^ 15 }
    requires bounds { HasBounds options }
    ensures crew { IfOk result (IsCrewFor plan until surface.now options) }
    ensures horizon { IfOk result (λ c. c.horizon ≡ origin) }
{
    let settings = CrewSettings {
        until,
        quota: options.quota as u32,
        slots: options.slots as u32,
    };
    let cut = Cut::bands(plan.lattice(), options.workers as u32);
    Crew::new(alloc, plan, surface, cut, settings)
}

/// How the call ends after a run.
pub(crate) fn ending_of(run: Result<(), Stop>, limit: u64) -> Ending
    ensures { result ≡ run_ending limit run }
{
    match run {
        Ok(()) => Ending::Done,
        Err(Stop::Limit) => Ending::EventLimit(limit),
        Err(Stop::Write) => Ending::WriteFault,
        Err(Stop::Memory) => Ending::Memory,
    }
}

/// The crew of a run that went to its end or met the limit.
pub(crate) fn left_by(ending: Ending, crew: Crew) -> Option<Crew>
    ensures { result ≡ left_by ending crew }
{
    match ending {
        Ending::Done | Ending::EventLimit(_) => Some(crew),
        _ => None,
    }
}

/// The plan of a manifest, with a seed.
fn plan_of(alloc: Global, manifest: &Manifest, seed: u64) -> Result<Plan, NoMemory>
    requires { IsSound manifest.now }
    ensures { IfOk result (λ p. p ≡ network_of seed manifest.now) }
{
    Plan::new(alloc, manifest.rules.as_slice(), manifest.lattice, seed)
}

/// The first surface of a manifest.
fn surface_of(alloc: Global, manifest: &Manifest) -> Result<Surface, NoMemory>
    requires { IsSound manifest.now }
    ensures { IfOk result (λ s. s ≡ first_of manifest.now) }
{
    let cells = manifest.cells.as_slice();
    Surface::new(alloc, manifest.lattice, cells, manifest.names.count())
}

/// A crew for a run of a manifest with a seed.
fn crew_for(
    alloc: Global,
    manifest: &Manifest,
    seed: u64,
    surface: &Surface,
    until: u64,
    options: RunOptions,
) -> Result<Crew, NoMemory>
    requires sound { IsSound manifest.now }
    requires surface { surface.now ≡ first_of manifest.now }
    requires duration { until ≤ 10 ^ 15 }
    requires bounds { HasBounds options }
    ensures crew { IfOk result (IsCrewFor (network_of seed manifest.now) until (first_of manifest.now) options) }
    ensures horizon { IfOk result (λ c. c.horizon ≡ origin) }
{
    let plan = plan_of(alloc, manifest, seed)?;
    crew_of(alloc, plan, surface, until, options)
}

/// How long a run of a manifest is, and what is shown of it. A duration that the options have stands in place of its own.
pub(crate) fn span_of(manifest: &Manifest, options: RunOptions) -> Span
    ensures { result ≡ record { until = unwrap_or options.until manifest.now.until; samples = options.samples; limit = options.limit } }
{
    Span {
        until: options.until.unwrap_or(manifest.until),
        samples: options.samples,
        limit: options.limit,
    }
}

/// A run of a manifest at its start: its plan, its first surface, and its crew. A seed and a duration that the options have
/// stand in place of its own.
pub(crate) fn started(
    alloc: Global,
    manifest: &Manifest,
    options: RunOptions,
) -> Result<(Plan, Surface, Crew), NoMemory>
    requires sound { IsSound manifest.now }
    requires bounds { HasBounds options }
    ensures plan { IfOk result (λ run. run.0 ≡ network_of (unwrap_or options.seed manifest.now.seed) manifest.now) }
    ensures surface { IfOk result (λ run. run.1 ≡ first_of manifest.now) }
    ensures crew { IfOk result (λ run. IsCrewOf (record { manifest = manifest.now; options = options }) run.2) }
    ensures horizon { IfOk result (λ run. run.2.horizon ≡ origin) }
{
    let seed = options.seed.unwrap_or(manifest.seed);
    let until = options.until.unwrap_or(manifest.until);
    let plan = plan_of(alloc, manifest, seed)?;
    let surface = surface_of(alloc, manifest)?;
    let crew = crew_for(alloc, manifest, seed, &surface, until, options)?;
    Ok((plan, surface, crew))
}

/// Runs a manifest and writes its run text. A seed and a duration that the words give stand in place of its own. The crew
/// of a run that went to its end or met the limit is left in `kept`.
pub(crate) fn run_manifest<R: Threads + Sync, O: Sink, G: Gate>(
    rt: &R,
    gate: &G,
    alloc: Global,
    manifest: &Manifest,
    options: RunOptions,
    kept: &mut Option<Crew>,
    out: &mut O,
) -> Ending
    requires sound { IsSound manifest.now }
    requires bounds { HasBounds options }
    requires none { kept.old ≡ None }
    ensures kept { RunLeaves result (record { manifest = manifest.now; options = options }) kept.new }
    ensures answered { Answered (run_answer (scene_of options.seed options.until options.samples options.limit manifest.now) manifest.now) result (O.written out.old) (O.written out.new) (O.faults out.old) (O.faults out.new) }
{
    let (plan, surface, mut crew) = match started(alloc, manifest, options) {
        Ok(parts) => parts,
        Err(NoMemory) => return Ending::Memory,
    };
    let task = Task {
        names: &manifest.names,
        plan: &plan,
        span: span_of(manifest, options),
    };
    let run = write_run(rt, gate, alloc, &task, &mut crew, surface, out, &mut Nobody);
    let ending = ending_of(run, options.limit);
    *kept = left_by(ending, crew);
    ending
}
