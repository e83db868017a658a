//! What the command line asks for.
ghost use Rattle.std.specs.Prelude.{◌≤◌};
ghost use Rattle.command_line.specs.declared.request.TheConstants.{MOST_WEIGHT};

use crate::input::STANDARD_INPUT;
use crate::ring::RingLength;
use crate::workers::WorkerCount;
use text_io::Format;

/// What becomes of a pick whose number is past the list of choices.
#[derive(Clone, Copy)]
pub enum Numbers {
    /// It takes the choice at its number modulo the length of the list.
    Modulo,
    /// It is refused.
    Strict,
}

/// A text of picks behind which a run is taken up by hand.
#[derive(Clone, Copy)]
pub struct Recording<'a> {
    /// The file that has them.
    pub path: &'a str,
    /// What becomes of one whose number is past the list of choices.
    pub numbers: Numbers,
}

/// How the choices of a run are picked.
#[derive(Drop)]
pub enum Picking<'a> {
    /// By numbers that are given one by one.
    Given(Vec<u64>, Numbers),
    /// By the lines of a text at this path: a file, or `-` for the standard input. After them so many at random, by a seed.
    Recorded(&'a str, Numbers, u64, u64),
    /// So many at random, by a seed.
    Random(u64, u64),
}

impl<'a> Picking<'a> {
    ghost use Rattle.std.specs.Prelude.{◌≡◌};
    ghost use Rattle.command_line.specs.Files.{recorded_in};
    ghost use Rattle.command_line.specs.Said.{word_of};

    /// Where the text of the picks is, if a text has them.
    fn recorded(&self) -> Option<&'a str>
        ensures { word_of result ≡ recorded_in self.now }
    {
        match self {
            Picking::Recorded(path, _, _, _) => Some(*path),
            Picking::Given(_, _) | Picking::Random(_, _) => None,
        }
    }
}

/// What the weight of a connector is at most.
pub const MOST_WEIGHT: u16 = 1_000;

/// How often a connector is to be picked at random, beside the others.
#[derive(Clone, Copy)]
pub struct WeightWords<'a> {
    /// The name of the connector, as it is written.
    pub name: &'a str,
    /// Its weight.
    pub weight: u16,
    ghost most: { weight ≤ MOST_WEIGHT },
}

/// What is printed of a run.
#[derive(Clone, Copy)]
pub enum Shape {
    /// Each interaction that is fired, and the state at the end, in this format.
    Steps(Format),
    /// The state at the start, and each interaction that is fired with the state after it, in this format.
    States(Format),
    /// What changes, as a dump for a viewer of waves.
    Waves,
}

/// What becomes of a run that ends by what it is watched for.
#[derive(Clone, Copy, Debug, PartialEq, Eq)]
pub enum WatchKind {
    /// This must not hold: the command ends with a status of its own.
    Never,
    /// The run has come as far as it is wanted.
    Until,
}

/// One thing that a run is watched for.
#[derive(Clone, Copy)]
pub struct WatchWords<'a> {
    /// What becomes of a run that ends by it.
    pub kind: WatchKind,
    /// The text that says what it is.
    pub text: &'a str,
}

/// A run of a plant from its first state that is printed.
#[derive(Drop)]
pub struct Trace<'a> {
    /// How its choices are picked.
    pub picking: Picking<'a>,
    /// What is printed of it.
    pub shape: Shape,
    /// The file in which is saved what is fired, if it is.
    pub saved: Option<&'a str>,
    /// What it is watched for, in the order of the words.
    pub watches: Vec<WatchWords<'a>>,
    /// The weights of connectors for its random picks, in the order of the words.
    pub weights: Vec<WeightWords<'a>>,
}

/// The seeds of several runs, each of which has as many random picks.
#[derive(Clone, Copy, Debug, PartialEq, Eq)]
pub struct Seeds {
    /// How many picks each run has.
    pub count: u64,
    /// The seed of the first run.
    pub first: u64,
    /// The seed of the last one. There is a run for each seed from the first to this one.
    pub last: u64,
    ghost ordered: { first ≤ last },
}

/// The runs that are counted together.
#[derive(Drop)]
pub enum Runs<'a> {
    /// One run, whose choices are picked so.
    One(Picking<'a>),
    /// A run for each of these seeds.
    Seeds(Seeds),
}

impl<'a> Runs<'a> {
    ghost use Rattle.std.specs.Prelude.{◌≡◌};
    ghost use Rattle.command_line.specs.Files.{recorded_of};
    ghost use Rattle.command_line.specs.Said.{word_of};

    /// Where the text of the picks is, if a text has them.
    fn recorded(&self) -> Option<&'a str>
        ensures { word_of result ≡ recorded_of self.now }
    {
        match self {
            Runs::One(picking) => picking.recorded(),
            Runs::Seeds(_) => None,
        }
    }
}

/// Runs of a plant from its first state that are counted in place of being printed.
#[derive(Drop)]
pub struct Tally<'a> {
    /// Which runs they are.
    pub runs: Runs<'a>,
    /// The file in which is saved what is fired, if it is: it is of one run.
    pub saved: Option<&'a str>,
    /// What each run is watched for, in the order of the words.
    pub watches: Vec<WatchWords<'a>>,
    /// The weights of connectors for the random picks, in the order of the words.
    pub weights: Vec<WeightWords<'a>>,
}

/// How a plant is drawn.
#[derive(Drop)]
pub enum View<'a> {
    /// With all that it has; in its first state, or in that after these picks, with the connectors in colour that can then be fired.
    Whole(Option<Picking<'a>>),
    /// Its atoms alone, as state machines; in their first state, or in that after these picks.
    Machines(Option<Picking<'a>>),
    /// Its atoms, connectors and rules, without what stands in an atom.
    Outline,
}

impl<'a> View<'a> {
    ghost use Rattle.std.specs.Prelude.{◌≡◌};
    ghost use Rattle.command_line.specs.Files.{recorded_after};
    ghost use Rattle.command_line.specs.Said.{word_of};

    /// Where the text of the picks is after which the plant is drawn, if a text has them.
    fn recorded(&self) -> Option<&'a str>
        ensures { word_of result ≡ recorded_after self.now }
    {
        match self {
            View::Whole(Some(picking)) | View::Machines(Some(picking)) => picking.recorded(),
            View::Whole(None) | View::Machines(None) | View::Outline => None,
        }
    }
}

/// What is drawn of a plant.
#[derive(Drop)]
pub struct Drawing<'a> {
    /// How it is drawn.
    pub view: View<'a>,
    /// The atoms that are drawn alone, by their names, with what stands on them; all, where none are named.
    pub only: Option<Vec<&'a str>>,
}

/// What is to be done with a plant.
#[derive(Drop)]
pub enum Task<'a> {
    /// Its parts are counted.
    Check,
    /// Its parts are counted, and what is probably a mistake is printed.
    Warn,
    /// It is run from its first state, and the run is printed.
    Trace(Trace<'a>),
    /// It is run from its first state, once or several times, and what came is counted.
    Summary(Tally<'a>),
    /// It is run from its first state by these picks, and what can be fired next is listed.
    Choices(Picking<'a>),
    /// The same, and of each connector that can't be fired next it is printed why.
    Why(Picking<'a>),
    /// It is drawn as a graph.
    Draw(Drawing<'a>),
}

impl<'a> Task<'a> {
    ghost use Rattle.std.specs.Prelude.{◌≡◌};
    ghost use Rattle.command_line.specs.Files.{recorded_by, saved_by};
    ghost use Rattle.command_line.specs.Said.{word_of};

    /// Where the text of the picks is by which the plant is run, if a text has them.
    fn recorded(&self) -> Option<&'a str>
        ensures { word_of result ≡ recorded_by self.now }
    {
        match self {
            Task::Trace(trace) => trace.picking.recorded(),
            Task::Summary(tally) => tally.runs.recorded(),
            Task::Choices(picking) | Task::Why(picking) => picking.recorded(),
            Task::Draw(drawing) => drawing.view.recorded(),
            Task::Check | Task::Warn => None,
        }
    }

    /// The file in which is saved what is fired, if it is.
    fn saved(&self) -> Option<&'a str>
        ensures { word_of result ≡ saved_by self.now }
    {
        match self {
            Task::Trace(trace) => trace.saved,
            Task::Summary(tally) => tally.saved,
            Task::Check | Task::Warn | Task::Choices(_) | Task::Why(_) | Task::Draw(_) => None,
        }
    }
}

/// What becomes of a file that stands where an image is to be made.
#[derive(Clone, Copy, Debug, PartialEq, Eq)]
pub enum IfThere {
    /// It is formatted, if it has the size of the image.
    Formatted,
    /// It is left as it is, and the command refused.
    Refused,
}

/// How the events of a script are asked.
#[derive(Clone, Copy)]
pub enum Asking {
    /// One after another: each is answered, and what is refused is passed over.
    InTurn,
    /// One after another, and each is answered, up to the first that is refused.
    Strict,
    /// By so many workers: none is answered, and what is refused is passed over.
    Shared(WorkerCount),
}

/// From which images a plant is started.
#[derive(Clone, Copy, Debug, PartialEq, Eq)]
pub enum Care {
    /// From each that a boot takes.
    Usual,
    /// Not from one about which `inspect` has a doubt. Nothing in such an image is changed.
    Careful,
}

/// What is printed of an image, beside what it is.
#[derive(Clone, Copy, Debug, PartialEq, Eq)]
pub struct Inspection {
    /// Whether each record is printed.
    pub records: bool,
    /// Whether each atom's states are printed.
    pub states: bool,
}

/// What is to be done with a plant and its image.
#[derive(Clone, Copy)]
pub enum ImageTask<'a> {
    /// The image is made to stand for the plant's first state, with room for so many records.
    Format(RingLength, IfThere),
    /// The plant goes on from what the image stands for, by the script at this path: a file, or `-` for the standard input.
    Run(&'a str, Asking, Care),
    /// The plant goes on from what the image stands for, by events that are read from the standard input, line by line.
    Serve(Care),
    /// Where the plant stands is printed.
    Recover(Care),
    /// What the image holds is printed, with the plant's names.
    Inspect(Inspection),
    /// The plant's text is printed, with the state that the image stands for as its first one.
    Restate,
    /// The image is of the first layout, and is brought over to a new one: the file at this path, with room for so many records.
    Migrate(&'a str, RingLength),
}

/// A run of a plant on a device in memory, which is stopped at each of its writes and syncs.
#[derive(Clone, Copy)]
pub struct Exploration<'a> {
    /// Where the script of the run is: a file, or `-` for the standard input.
    pub script: &'a str,
    /// For how many records the device has room.
    pub ring: RingLength,
    /// Whether each trial is printed, too.
    pub list: bool,
}

/// What is to be done with an image alone, where no plant is named.
#[derive(Clone, Copy)]
pub enum LoneTask<'a> {
    /// What the image holds is printed, without names.
    Inspect(Inspection),
    /// The image is copied into a new file at this path.
    Backup(&'a str),
}

impl<'a> LoneTask<'a> {
    ghost use Rattle.std.specs.Prelude.{◌≡◌};
    ghost use Rattle.command_line.specs.Files.{copied_to};
    ghost use Rattle.command_line.specs.Said.{word_of};

    /// The file that is made, if one is.
    pub fn made(&self) -> Option<&'a str>
        ensures { word_of result ≡ copied_to self.now }
    {
        match self {
            LoneTask::Backup(copy) => Some(*copy),
            LoneTask::Inspect(_) => None,
        }
    }
}

/// What is to be done with a plant, and with what beside it.
#[derive(Drop)]
pub enum Work<'a> {
    /// A task of the plant alone.
    OfPlant(Task<'a>),
    /// The plant is run by hand: what is fired is read from the standard input, line by line; behind the picks of a text, if there is one.
    ByHand(Option<Recording<'a>>),
    /// A task of the plant and of its image, the file at this path.
    OnImage(&'a str, ImageTask<'a>),
    /// A run of the plant, without an image, of which what each stop leaves is printed.
    Explored(Exploration<'a>),
}

impl<'a> Work<'a> {
    ghost use Rattle.std.specs.Prelude.{◌≡◌};
    ghost use Rattle.command_line.specs.Files.{image_in, made_in, read_beside, recording_in, saved_in};
    ghost use Rattle.command_line.specs.Said.{word_of};

    /// What is read beside the plant and the image, if anything is: the path of the text of the picks or of a script, or `-` where lines are typed
    /// or sent.
    pub fn input(&self) -> Option<&'a str>
        ensures { word_of result ≡ read_beside self.now }
    {
        match self {
            Work::OfPlant(task) => task.recorded(),
            Work::ByHand(_) | Work::OnImage(_, ImageTask::Serve(_)) => Some(STANDARD_INPUT),
            Work::OnImage(_, ImageTask::Run(script, _, _)) => Some(*script),
            Work::Explored(exploration) => Some(exploration.script),
            Work::OnImage(
                _,
                ImageTask::Format(_, _)
                | ImageTask::Recover(_)
                | ImageTask::Inspect(_)
                | ImageTask::Restate
                | ImageTask::Migrate(_, _),
            ) => None,
        }
    }

    /// The file with the picks behind which the plant is run by hand, if there is one. It is read beside the standard input.
    pub fn recording(&self) -> Option<&'a str>
        ensures { word_of result ≡ recording_in self.now }
    {
        match self {
            Work::ByHand(Some(recording)) => Some(recording.path),
            Work::OfPlant(_) | Work::ByHand(None) | Work::OnImage(_, _) | Work::Explored(_) => None,
        }
    }

    /// The file in which is saved what is fired, if it is.
    pub fn saved(&self) -> Option<&'a str>
        ensures { word_of result ≡ saved_in self.now }
    {
        match self {
            Work::OfPlant(task) => task.saved(),
            Work::ByHand(_) | Work::OnImage(_, _) | Work::Explored(_) => None,
        }
    }

    /// The image, if there is one; where an image is brought over, this is the old one.
    pub fn image(&self) -> Option<&'a str>
        ensures { word_of result ≡ image_in self.now }
    {
        match self {
            Work::OnImage(image, _) => Some(*image),
            Work::OfPlant(_) | Work::ByHand(_) | Work::Explored(_) => None,
        }
    }

    /// The new image that an old one is brought over to, if one is.
    pub fn made(&self) -> Option<&'a str>
        ensures { word_of result ≡ made_in self.now }
    {
        match self {
            Work::OnImage(_, ImageTask::Migrate(made, _)) => Some(*made),
            Work::OfPlant(_) | Work::ByHand(_) | Work::OnImage(_, _) | Work::Explored(_) => None,
        }
    }
}

/// What is worked on, and what is to be done with it.
#[derive(Drop)]
pub enum Subject<'a> {
    /// The plant whose text is at this path: a file, or `-` for the standard input.
    Plant(&'a str, Work<'a>),
    /// The image at this path alone. The text of no plant is read.
    Image(&'a str, LoneTask<'a>),
}

/// What the words of the command line ask for.
#[derive(Drop)]
pub struct Request<'a> {
    /// What is worked on, and what is to be done with it.
    pub subject: Subject<'a>,
    /// Whether more is printed of a fault than its line, also where the standard error is no terminal.
    pub explain: bool,
    /// Whether of a plant text that is refused the first fault of each line is told, and not the first one alone.
    pub all: bool,
}
