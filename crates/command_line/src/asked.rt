//! What the words of a command ask for.
ghost use Rattle.std.specs.Prelude.{◌≡◌, ◌≢◌, ◌≤◌, IfErr, IfOk, None, Some, codes, if◌then◌else◌, true, unwrap_or};
ghost use Rattle.command_line.specs.Asked.{care_said, has_picks, IsAsked, IsAsking, IsDrawing, IsExploration, IsInspection, IsLoneTask, IsPicked, IsPickedAfter, IsRecording, IsRun, IsRuns, IsSubject, IsTally, IsTrace, IsView, IsWork, names_in};
ghost use Rattle.command_line.specs.Rings.{ring_in};
ghost use Rattle.command_line.specs.Said.{word_of, words_of};
ghost use Rattle.command_line.specs.Workers.{workers_in};
ghost use Rattle.command_line.specs.declared.asked.AskingFault.TheVariants.{StrictAlone};
ghost use Rattle.command_line.specs.declared.names.CommandName.TheVariants.{Backup};
ghost use Rattle.command_line.specs.declared.request.IfThere.TheVariants.{Formatted, Refused};
ghost use Rattle.command_line.specs.declared.workers.TheConstants.{MOST_WORKERS};
ghost use Rattle.command_line.specs.declared.request.Task.TheVariants.{Check, Warn};

use crate::apart::{ApartFault, stand_apart, stands_alone};
use crate::names::{CommandName, LINES, USUAL_RING, USUAL_WORKERS};
use crate::picking::{PickingFault, numbers_in, picking_named};
use crate::request::{
    Asking, Care, Drawing, Exploration, IfThere, ImageTask, Inspection, LoneTask, Picking,
    Recording, Request, Runs, Seeds, Subject, Tally, Task, Trace, View, Work,
};
use crate::ring::{RingLength, ring_named};
use crate::runs::shape_named;
use crate::said::Said;
use crate::seeds::{SeedsFault, name_no_seeds, seeds_asked};
use crate::summary::{SummaryFault, print_nothing};
use crate::watching::watches_asked;
use crate::weights::{WeightsFault, weights_asked};
use crate::workers::{WorkerCount, workers_named};
use std::alloc::{AllocError, Global};

/// Why the words of a command ask for nothing that the program does.
#[derive(Clone, Copy, Debug, PartialEq, Eq)]
pub(crate) enum AskingFault<'a> {
    /// A path is missing.
    NoPath,
    /// The words do not say how the choices of a run are picked.
    Picking(PickingFault<'a>),
    /// A run that is counted is to be printed, too.
    Summary(SummaryFault<'a>),
    /// The words do not name the seeds of several runs.
    Seeds(SeedsFault<'a>),
    /// The words give no weights.
    Weights(WeightsFault<'a>),
    /// The picks of a drawing, or those behind which a plant is run by hand, are to be strict, and there are none.
    StrictAlone,
    /// An outline is asked for, and picks are given.
    OutlineOfState,
    /// Both machines and an outline are asked for.
    OutlineOfMachines,
    /// The word is no length of a ring.
    NoRing(&'a str),
    /// The word is no number of workers.
    NoWorkers(&'a str),
    /// A run by workers is to be strict.
    StrictShared,
    /// The files of the request do not stand apart.
    Apart(ApartFault),
    /// Memory ran out.
    Memory,
}

impl<'a> From<PickingFault<'a>> for AskingFault<'a> {
    ghost use Rattle.command_line.specs.declared.asked.AskingFault.TheVariants.{Picking};

    ghost from_gives = { λ fault why. why ≡ Picking fault };

    fn from(fault: PickingFault<'a>) -> Self {
        AskingFault::Picking(fault)
    }
}

impl<'a> From<SummaryFault<'a>> for AskingFault<'a> {
    ghost use Rattle.command_line.specs.declared.asked.AskingFault.TheVariants.{Summary};

    ghost from_gives = { λ fault why. why ≡ Summary fault };

    fn from(fault: SummaryFault<'a>) -> Self {
        AskingFault::Summary(fault)
    }
}

impl<'a> From<SeedsFault<'a>> for AskingFault<'a> {
    ghost use Rattle.command_line.specs.declared.asked.AskingFault.TheVariants.{Seeds};

    ghost from_gives = { λ fault why. why ≡ Seeds fault };

    fn from(fault: SeedsFault<'a>) -> Self {
        AskingFault::Seeds(fault)
    }
}

impl<'a> From<WeightsFault<'a>> for AskingFault<'a> {
    ghost use Rattle.command_line.specs.declared.asked.AskingFault.TheVariants.{Weights};

    ghost from_gives = { λ fault why. why ≡ Weights fault };

    fn from(fault: WeightsFault<'a>) -> Self {
        AskingFault::Weights(fault)
    }
}

impl<'a> From<ApartFault> for AskingFault<'a> {
    ghost use Rattle.command_line.specs.declared.asked.AskingFault.TheVariants.{Apart};

    ghost from_gives = { λ fault why. why ≡ Apart fault };

    fn from(fault: ApartFault) -> Self {
        AskingFault::Apart(fault)
    }
}

impl<'a> From<AllocError> for AskingFault<'a> {
    ghost use Rattle.command_line.specs.declared.asked.AskingFault.TheVariants.{Memory};

    ghost from_gives = { λ _ fault. fault ≡ Memory };

    fn from(_: AllocError) -> Self {
        AskingFault::Memory
    }
}

/// What the words of a command ask for.
pub(crate) fn request_asked<'a>(
    alloc: Global,
    said: &Said<'_, 'a>,
) -> Result<Request<'a>, AskingFault<'a>>
    ensures { IfOk result (λ request. IsAsked request said.now) }
{
    Ok(Request {
        subject: subject_asked(alloc, said)?,
        explain: said.explain,
        all: said.all,
    })
}

/// What is to be worked on, and what is to be done with it.
fn subject_asked<'a>(alloc: Global, said: &Said<'_, 'a>) -> Result<Subject<'a>, AskingFault<'a>>
    ensures { IfOk result (λ subject. IsSubject subject said.now) }
{
    match (said.command, said.plant) {
        (CommandName::Inspect, None) => alone(said, LoneTask::Inspect(inspection_asked(said))),
        (CommandName::Backup, _) => alone(said, LoneTask::Backup(path_in(said.copy)?)),
        (_, plant) => {
            let plant = path_in(plant)?;
            let work = work_asked(alloc, said)?;
            stand_apart(plant, &work)?;
            Ok(Subject::Plant(plant, work))
        }
    }
}

/// The image alone, and what is to be done with it.
fn alone<'a>(said: &Said<'_, 'a>, task: LoneTask<'a>) -> Result<Subject<'a>, AskingFault<'a>>
    requires { IsLoneTask said.now.command task said.now }
    ensures { IfOk result (λ subject. IsSubject subject said.now) }
{
    let image = path_in(said.image)?;
    stands_alone(image, task)?;
    Ok(Subject::Image(image, task))
}

/// What is to be done with the plant.
fn work_asked<'a>(alloc: Global, said: &Said<'_, 'a>) -> Result<Work<'a>, AskingFault<'a>>
    requires { said.now.command ≢ Backup }
    ensures { IfOk result (λ work. IsWork work said.now) }
{
    match said.command {
        CommandName::Check => Ok(Work::OfPlant(check_asked(said.warn))),
        CommandName::Choices => {
            let picking = picking_asked(alloc, said)?;
            Ok(Work::OfPlant(Task::Choices(picking)))
        }
        CommandName::Why => {
            let picking = picking_asked(alloc, said)?;
            Ok(Work::OfPlant(Task::Why(picking)))
        }
        CommandName::Trace => {
            let task = run_asked(alloc, said)?;
            Ok(Work::OfPlant(task))
        }
        CommandName::Step => Ok(Work::ByHand(recording_asked(said)?)),
        CommandName::Draw => {
            let drawing = drawing_asked(alloc, said)?;
            Ok(Work::OfPlant(Task::Draw(drawing)))
        }
        CommandName::Format => {
            let ring = ring_asked(said.ring)?;
            let task = ImageTask::Format(ring, if_there(said.only_new));
            Ok(Work::OnImage(path_in(said.image)?, task))
        }
        CommandName::Run => {
            let script = path_in(said.script)?;
            let asking = asking_asked(said)?;
            let task = ImageTask::Run(script, asking, care_asked(said));
            Ok(Work::OnImage(path_in(said.image)?, task))
        }
        CommandName::Serve => {
            let task = ImageTask::Serve(care_asked(said));
            Ok(Work::OnImage(path_in(said.image)?, task))
        }
        CommandName::Recover => {
            let task = ImageTask::Recover(care_asked(said));
            Ok(Work::OnImage(path_in(said.image)?, task))
        }
        CommandName::Inspect => {
            let task = ImageTask::Inspect(inspection_asked(said));
            Ok(Work::OnImage(path_in(said.image)?, task))
        }
        CommandName::Backup => unreachable!(),
        CommandName::Restate => Ok(Work::OnImage(path_in(said.image)?, ImageTask::Restate)),
        CommandName::Migrate => {
            let made = path_in(said.new_image)?;
            let ring = ring_asked(said.ring)?;
            let old = path_in(said.old_image)?;
            Ok(Work::OnImage(old, ImageTask::Migrate(made, ring)))
        }
        CommandName::Explore => Ok(Work::Explored(exploration_asked(said)?)),
    }
}

/// What becomes of a file that stands where an image is to be made.
fn if_there(only_new: bool) -> IfThere
    ensures { result ≡ (if only_new then Refused else Formatted) }
{
    if only_new {
        IfThere::Refused
    } else {
        IfThere::Formatted
    }
}

/// How the events of a script are to be asked.
fn asking_asked<'a>(said: &Said<'_, 'a>) -> Result<Asking, AskingFault<'a>>
    ensures { IfOk result (λ asking. IsAsking asking said.now) }
{
    match (workers_asked(said.workers)?, said.strict) {
        (0, false) => Ok(Asking::InTurn),
        (0, true) => Ok(Asking::Strict),
        (workers, false) => Ok(Asking::Shared(WorkerCount { workers })),
        (_, true) => Err(AskingFault::StrictShared),
    }
}

/// With which care a plant is to be started from its image.
fn care_asked(said: &Said<'_, '_>) -> Care
    ensures { result ≡ care_said said.now }
{
    if said.careful {
        Care::Careful
    } else {
        Care::Usual
    }
}

/// What is to be printed of an image.
fn inspection_asked(said: &Said<'_, '_>) -> Inspection
    ensures { IsInspection result said.now }
{
    Inspection {
        records: said.records,
        states: said.states,
    }
}

/// The run that is to be explored.
fn exploration_asked<'a>(said: &Said<'_, 'a>) -> Result<Exploration<'a>, AskingFault<'a>>
    ensures { IfOk result (λ exploration. IsExploration exploration said.now) }
{
    let script = path_in(said.script)?;
    let ring = ring_asked(said.ring)?;
    Ok(Exploration {
        script,
        ring,
        list: said.list,
    })
}

/// The path that stands for an argument.
fn path_in<'a>(path: Option<&'a str>) -> Result<&'a str, AskingFault<'a>>
    ensures { IfOk result (λ found. word_of path.entry ≡ Some found.now) }
{
    match path {
        Some(path) => Ok(path),
        None => Err(AskingFault::NoPath),
    }
}

/// The task to count the parts of a plant, and to tell what is probably a mistake where that is asked for.
fn check_asked<'a>(warn: bool) -> Task<'a>
    ensures { result ≡ (if warn then Warn else Check) }
{
    if warn { Task::Warn } else { Task::Check }
}

/// How the choices of a run are picked.
fn picking_asked<'a>(alloc: Global, said: &Said<'_, 'a>) -> Result<Picking<'a>, AskingFault<'a>>
    ensures { IfOk result (λ picking. IsPicked picking said.now) }
{
    let given = said.picks.unwrap_or(&[]);
    let picking = picking_named(alloc, given, said)?;
    Ok(picking)
}

/// What is to be done with a run: it is printed, or counted.
fn run_asked<'a>(alloc: Global, said: &Said<'_, 'a>) -> Result<Task<'a>, AskingFault<'a>>
    ensures { IfOk result (λ task. IsRun task said.now) }
{
    if said.summary {
        let tally = tally_asked(alloc, said)?;
        Ok(Task::Summary(tally))
    } else {
        name_no_seeds(said)?;
        let trace = trace_asked(alloc, said)?;
        Ok(Task::Trace(trace))
    }
}

/// What is counted of a plant's runs.
fn tally_asked<'a>(alloc: Global, said: &Said<'_, 'a>) -> Result<Tally<'a>, AskingFault<'a>>
    requires { said.now.summary ≡ true }
    ensures { IfOk result (λ tally. IsTally tally said.now) }
{
    print_nothing(said)?;
    let runs = runs_asked(alloc, said)?;
    Ok(Tally {
        runs,
        saved: said.saved,
        watches: watches_asked(alloc, said)?,
        weights: weights_asked(alloc, said)?,
    })
}

/// The runs that are counted.
fn runs_asked<'a>(alloc: Global, said: &Said<'_, 'a>) -> Result<Runs<'a>, AskingFault<'a>>
    requires { said.now.summary ≡ true }
    ensures { IfOk result (λ runs. IsRuns runs said.now) }
{
    let seeds = seeds_asked(said)?;
    let picking = picking_asked(alloc, said)?;
    match (seeds, picking) {
        (None, picking) => Ok(Runs::One(picking)),
        (Some(range), Picking::Random(count, _)) => Ok(Runs::Seeds(Seeds {
            count,
            first: range.first,
            last: range.last,
        })),
        (Some(_), Picking::Given(_, _) | Picking::Recorded(_, _, _, _)) => unreachable!(),
    }
}

/// A run that is printed.
fn trace_asked<'a>(alloc: Global, said: &Said<'_, 'a>) -> Result<Trace<'a>, AskingFault<'a>>
    ensures { IfOk result (λ trace. IsTrace trace said.now) }
{
    let picking = picking_asked(alloc, said)?;
    Ok(Trace {
        picking,
        shape: shape_named(said.format.unwrap_or(LINES), said.states),
        saved: said.saved,
        watches: watches_asked(alloc, said)?,
        weights: weights_asked(alloc, said)?,
    })
}

/// The text of picks behind which a plant is run by hand, if one is named.
fn recording_asked<'a>(said: &Said<'_, 'a>) -> Result<Option<Recording<'a>>, AskingFault<'a>>
    ensures recording { IfOk result (λ recording. IsRecording recording said.now) }
    ensures wrong { IfErr result (λ fault. (fault ≡ StrictAlone) × (word_of said.now.recorded ≡ None) × (said.now.strict ≡ true)) }
{
    match said.recorded {
        Some(path) => Ok(Some(Recording {
            path,
            numbers: numbers_in(said.strict),
        })),
        None if said.strict => Err(AskingFault::StrictAlone),
        None => Ok(None),
    }
}

/// What is drawn of a plant.
fn drawing_asked<'a>(alloc: Global, said: &Said<'_, 'a>) -> Result<Drawing<'a>, AskingFault<'a>>
    ensures { IfOk result (λ drawing. IsDrawing drawing said.now) }
{
    Ok(Drawing {
        view: view_asked(alloc, said)?,
        only: names_asked(alloc, said.only)?,
    })
}

/// How a plant is drawn.
fn view_asked<'a>(alloc: Global, said: &Said<'_, 'a>) -> Result<View<'a>, AskingFault<'a>>
    ensures { IfOk result (λ view. IsView view said.now) }
{
    let picking = picking_after(alloc, said)?;
    match (said.machines, said.outline, picking) {
        (false, false, picking) => Ok(View::Whole(picking)),
        (true, false, picking) => Ok(View::Machines(picking)),
        (false, true, None) => Ok(View::Outline),
        (false, true, Some(_)) => Err(AskingFault::OutlineOfState),
        (true, true, _) => Err(AskingFault::OutlineOfMachines),
    }
}

/// The picks after which a plant is drawn, if there are some.
fn picking_after<'a>(
    alloc: Global,
    said: &Said<'_, 'a>,
) -> Result<Option<Picking<'a>>, AskingFault<'a>>
    ensures { IfOk result (λ picking. IsPickedAfter picking said.now) }
{
    if has_picks(said) {
        let given = said.after.unwrap_or(&[]);
        Ok(Some(picking_named(alloc, given, said)?))
    } else if said.strict {
        Err(AskingFault::StrictAlone)
    } else {
        Ok(None)
    }
}

/// Whether a plant is to be drawn after picks.
fn has_picks(said: &Said<'_, '_>) -> bool
    ensures { result ≡ has_picks said.now }
{
    said.after.is_some() || said.recorded.is_some()
}

/// The names of the atoms that are drawn alone, if some are named.
fn names_asked<'a>(
    alloc: Global,
    words: Option<&[&'a str]>,
) -> Result<Option<Vec<&'a str>>, AllocError>
    ensures { IfOk result (λ names. words_of words.entry ≡ names_in names) }
{
    match words {
        Some(words) => Ok(Some(names_of(alloc, words)?)),
        None => Ok(None),
    }
}

/// The names, as a list of their own.
fn names_of<'a>(alloc: Global, words: &[&'a str]) -> Result<Vec<&'a str>, AllocError>
    ensures { IfOk result (λ names. names.items ≡ words.now) }
{
    let mut names = Vec::new(alloc);
    names.extend_from_slice(words)?;
    Ok(names)
}

/// The length of a ring.
fn ring_asked<'a>(word: Option<&'a str>) -> Result<RingLength, AskingFault<'a>>
    ensures { IfOk result (λ ring. ring_in (unwrap_or (word_of word.entry) (codes "64")) ≡ Some ring.records) }
{
    let word = word.unwrap_or(USUAL_RING);
    ring_named(word).ok_or(AskingFault::NoRing(word))
}

/// How many workers share the events of a run: 0, where they are asked one after another.
fn workers_asked<'a>(word: Option<&'a str>) -> Result<u8, AskingFault<'a>>
    ensures number { IfOk result (λ workers. workers_in (unwrap_or (word_of word.entry) (codes "0")) ≡ Some workers) }
    ensures most { IfOk result (λ workers. workers ≤ MOST_WORKERS) }
{
    let word = word.unwrap_or(USUAL_WORKERS);
    workers_named(word).ok_or(AskingFault::NoWorkers(word))
}
