//! Why the program ends early, what it prints then, and its exit status.
ghost use Rattle.std.specs.Prelude.{◌≡◌};
ghost use Rattle.bip_image.specs.Ending.{status_at};
ghost use Rattle.bip_image.specs.Paths.{path_in};
ghost use Rattle.command_line.specs.Said.{word_of};

use command_line::{LoneTask, Work};
use file_disk::FileFault;
use image_backup::{BackupEnding, BackupFault};
use image_commands::{ExploreEnding, ImageEnding, ImageRefusal, MigrateEnding};
use image_inspection::InspectionEnding;
use plant_image::ImageFault;
use plant_service::ServiceEnding;
use plant_tasks::{PlantEnding, PlantEndingText, TaskPaths, shown_path};
use restated_text::RestateFault;
use script_lines::{Refusal, ScriptFault};
use std::alloc::{AllocError, Global};
use std::fmt;
use text_io::MAX_TEXT;
use worker_runs::WorkersEnding;

/// Why the program ends without having done what it was asked for.
#[derive(Clone, Copy)]
pub(crate) enum Ending {
    /// An end that a task of the plant alone may have too: by the words, the plant's text, the memory or the output.
    OfPlant(PlantEnding),
    /// The script is refused at the line with this number, and at 0 where it is too long.
    Script(u32),
    /// The script could not be opened or read.
    ScriptUnread,
    /// The image's file could not be opened or made.
    ImageUnopened(FileFault),
    /// The command on the image ended early.
    Image(ImageEnding),
    /// The file of the new image could not be opened or made.
    NewUnopened(FileFault),
    /// Bringing an image over ended early.
    Migrate(MigrateEnding),
    /// A stop of a run that was explored left what is not right.
    NotRight,
    /// A strict run ended at the line with this number, since the event there was refused.
    Stopped(u32, Refusal),
    /// A boot would refuse the image that was looked into, or there is a doubt. What was printed says so.
    Doubted,
    /// There is a doubt about the image, and care was asked for. What was printed says which, and nothing in the image was changed.
    Careful,
    /// The plant's text with the image's state as its first one is longer than a text may be. Nothing was printed.
    LongText,
}

impl Ending {
    ghost use Rattle.bip_image.specs.Ending.{of_image_file, of_new_file};

    /// The ending where the image's file is not opened or made. Want of memory is told as of any image.
    pub(crate) fn of_image_file(fault: FileFault) -> Self
        ensures { result ≡ of_image_file fault }
    {
        match fault {
            FileFault::Memory => {
                Ending::Image(ImageEnding::Refused(ImageRefusal::Image(ImageFault::Memory)))
            }
            _ => Ending::ImageUnopened(fault),
        }
    }

    /// The ending where the file of a new image is not opened or made. Want of memory is told as of any image.
    pub(crate) fn of_new_file(fault: FileFault) -> Self
        ensures { result ≡ of_new_file fault }
    {
        match fault {
            FileFault::Memory => Ending::of_image_file(fault),
            _ => Ending::NewUnopened(fault),
        }
    }

    /// The exit status of the program: 1 where the plant, the script or the image is refused or a stop left what is not right, 2 where the words of
    /// the command line were not understood, and 3 where a file, a device, the memory or the output failed.
    pub(crate) fn exit_status(&self) -> u8
        ensures { result ≡ status_at self.now }
    {
        match self {
            Ending::OfPlant(ending) => ending.exit_status(),
            Ending::Script(_) => 1,
            Ending::ScriptUnread => 3,
            Ending::ImageUnopened(_) => 3,
            Ending::Image(ending) => ending.exit_status(),
            Ending::NewUnopened(_) => 3,
            Ending::Migrate(ending) => ending.exit_status(),
            Ending::NotRight => 1,
            Ending::Doubted => 1,
            Ending::Careful => 1,
            Ending::Stopped(_, refusal) if refusal.is_failure() => 3,
            Ending::Stopped(_, _) => 1,
            Ending::LongText => 1,
        }
    }
}

/// What more is printed if a stop left what is not right.
const NOT_RIGHT: &str =
    "a power cut left what it must not leave: '--list' tells which; keep the plant and the script, and run this plant on no image";

/// What more is printed of an image about which there is a doubt, if care was asked for.
const DOUBTED: &str =
    "nothing in it was changed; look into it by 'inspect', keep a copy, and start without '--careful' if it is as it should be";

/// Where the plant text, the script, the image and a new image are, as the words of the command line name them; empty where they name none.
#[derive(Clone, Copy)]
pub(crate) struct Paths<'a> {
    /// The plant text.
    pub(crate) plant: &'a str,
    /// The script.
    pub(crate) script: &'a str,
    /// The image.
    pub(crate) image: &'a str,
    /// The new image that one of the first layout is brought over to.
    pub(crate) made: &'a str,
}

impl<'a> Paths<'a> {
    ghost use Rattle.std.specs.Prelude.{◌≡◌, []};
    ghost use Rattle.command_line.specs.Files.{copied_to, image_in, made_in, read_beside};
    ghost use Rattle.bip_image.specs.Paths.{path_in};

    /// No paths.
    pub(crate) fn none() -> Self
        ensures plant { result.plant.now ≡ [] }
        ensures script { result.script.now ≡ [] }
        ensures image { result.image.now ≡ [] }
        ensures made { result.made.now ≡ [] }
    {
        Paths {
            plant: "",
            script: "",
            image: "",
            made: "",
        }
    }

    /// The paths of what is to be done with a plant.
    pub(crate) fn of(plant: &'a str, work: &Work<'a>) -> Self
        ensures plant { result.plant.now ≡ plant.now }
        ensures script { result.script.now ≡ path_in (read_beside work.now) }
        ensures image { result.image.now ≡ path_in (image_in work.now) }
        ensures made { result.made.now ≡ path_in (made_in work.now) }
    {
        Paths {
            plant,
            script: path_in(work.input()),
            image: path_in(work.image()),
            made: path_in(work.made()),
        }
    }

    /// The paths of what is to be done with an image alone.
    pub(crate) fn of_image(image: &'a str, task: &LoneTask<'a>) -> Self
        ensures plant { result.plant.now ≡ [] }
        ensures script { result.script.now ≡ [] }
        ensures image { result.image.now ≡ image.now }
        ensures made { result.made.now ≡ path_in (copied_to task.now) }
    {
        Paths {
            plant: "",
            script: "",
            image,
            made: path_in(task.made()),
        }
    }
}

/// A path, or the empty one where there is none.
fn path_in(path: Option<&str>) -> &str
    ensures { result.now ≡ path_in (word_of path.entry) }
{
    path.unwrap_or("")
}

/// The same paths, as they are shown.
#[derive(Drop)]
pub(crate) struct ShownPaths {
    plant: String,
    script: String,
    image: String,
    made: String,
}

impl ShownPaths {
    ghost use Rattle.std.specs.Prelude.{◌≡◌, IfOk, string_bytes};
    ghost use Rattle.shown_fault.specs.Shown.{shown};

    /// These paths, byte by byte as a line of a plant text is shown.
    pub(crate) fn of(alloc: Global, paths: Paths<'_>) -> Result<Self, AllocError>
        ensures plant { IfOk result (λ all. string_bytes all.plant ≡ shown paths.entry.plant.now) }
        ensures script { IfOk result (λ all. string_bytes all.script ≡ shown paths.entry.script.now) }
        ensures image { IfOk result (λ all. string_bytes all.image ≡ shown paths.entry.image.now) }
        ensures made { IfOk result (λ all. string_bytes all.made ≡ shown paths.entry.made.now) }
    {
        Ok(ShownPaths {
            plant: shown_path(alloc, paths.plant)?,
            script: shown_path(alloc, paths.script)?,
            image: shown_path(alloc, paths.image)?,
            made: shown_path(alloc, paths.made)?,
        })
    }

    /// They are lent.
    pub(crate) fn lend(&self) -> Paths<'_>
        ensures plant { result.plant.now ≡ string_bytes self.now.plant }
        ensures script { result.script.now ≡ string_bytes self.now.script }
        ensures image { result.image.now ≡ string_bytes self.now.image }
        ensures made { result.made.now ≡ string_bytes self.now.made }
    {
        Paths {
            plant: &self.plant,
            script: &self.script,
            image: &self.image,
            made: &self.made,
        }
    }
}

/// What is printed of an ending: a line, or nothing if `clap` or what was printed before says it, and if the output failed.
#[derive(Clone, Copy)]
pub(crate) struct EndingText<'a> {
    /// Why the program ends early.
    pub(crate) ending: Ending,
    /// Where its texts and its image are.
    pub(crate) paths: Paths<'a>,
}

impl<'a> fmt::Display for EndingText<'a> {
    ghost use Rattle.std.specs.Prelude.{Some};
    ghost use Rattle.bip_image.specs.Ending.{told_text};

    ghost output = { λ text. Some (told_text text.paths text.ending) };

    fn fmt<W: fmt::Write>(&self, f: &mut fmt::Formatter<W>) -> fmt::Result {
        match self.ending {
            Ending::OfPlant(ending) => {
                let text = PlantEndingText {
                    ending,
                    paths: TaskPaths::of_plant(self.paths.plant),
                };
                write!(f, "{text}")
            }
            Ending::Script(line) => writeln!(f, "script line {line}"),
            Ending::ScriptUnread => writeln!(f, "file {}", self.paths.script),
            Ending::ImageUnopened(FileFault::InUse) => {
                writeln!(f, "file {} in use", self.paths.image)
            }
            Ending::ImageUnopened(FileFault::AlreadyThere) => {
                writeln!(f, "file {} is there", self.paths.image)
            }
            Ending::ImageUnopened(_) => writeln!(f, "file {}", self.paths.image),
            Ending::Image(ImageEnding::Refused(refusal)) => writeln!(f, "{refusal}"),
            Ending::NewUnopened(FileFault::InUse) => {
                writeln!(f, "file {} in use", self.paths.made)
            }
            Ending::NewUnopened(FileFault::AlreadyThere) => {
                writeln!(f, "file {} is there", self.paths.made)
            }
            Ending::NewUnopened(_) => writeln!(f, "file {}", self.paths.made),
            Ending::Migrate(MigrateEnding::Refused(refusal)) => writeln!(f, "{refusal}"),
            Ending::Stopped(line, refusal) => {
                writeln!(f, "error: {}:{line}: {refusal}", self.paths.script)
            }
            Ending::Careful => writeln!(f, "image: doubted, and not started from: --careful"),
            Ending::LongText => writeln!(
                f,
                "error: the restated text has more than {MAX_TEXT} bytes"
            ),
            Ending::Image(_) | Ending::Migrate(_) | Ending::NotRight | Ending::Doubted => Ok(()),
        }
    }
}

/// What is printed of an ending after its line, if more is to be printed: what it means, and what can be done. Of a plant's fault the
/// line of the text is shown in its place.
#[derive(Clone, Copy)]
pub(crate) struct More {
    /// Why the program ends early.
    pub(crate) ending: Ending,
}

impl fmt::Display for More {
    ghost use Rattle.std.specs.Prelude.{Some};
    ghost use Rattle.bip_image.specs.Ending.{more_text};

    ghost output = { λ more. Some (more_text more.ending) };

    fn fmt<W: fmt::Write>(&self, f: &mut fmt::Formatter<W>) -> fmt::Result {
        match self.ending {
            Ending::Script(line) => writeln!(f, "  {}", ScriptFault::Line(line)),
            Ending::ImageUnopened(fault) | Ending::NewUnopened(fault) => writeln!(f, "  {fault}"),
            Ending::Image(ImageEnding::Refused(refusal)) => writeln!(f, "  {}", refusal.advice()),
            Ending::Migrate(MigrateEnding::Refused(refusal)) => {
                writeln!(f, "  {}", refusal.advice())
            }
            Ending::NotRight => writeln!(f, "  {NOT_RIGHT}"),
            Ending::Careful => writeln!(f, "  {DOUBTED}"),
            _ => Ok(()),
        }
    }
}

impl From<PlantEnding> for Ending {
    ghost use Rattle.bip_image.specs.declared.ending.Ending.TheVariants.{OfPlant};

    ghost from_gives = { λ why ending. ending ≡ OfPlant why };

    fn from(ending: PlantEnding) -> Self {
        Ending::OfPlant(ending)
    }
}

impl From<ScriptFault> for Ending {
    ghost use Rattle.bip_image.specs.Script.{of_script};

    ghost from_gives = { λ fault ending. ending ≡ of_script fault };

    fn from(fault: ScriptFault) -> Self {
        match fault {
            ScriptFault::Line(number) => Ending::Script(number),
            ScriptFault::Memory => Ending::OfPlant(PlantEnding::Memory),
        }
    }
}

impl From<ImageEnding> for Ending {
    ghost use Rattle.bip_image.specs.declared.ending.Ending.TheVariants.{Image};

    ghost from_gives = { λ why ending. ending ≡ Image why };

    fn from(ending: ImageEnding) -> Self {
        Ending::Image(ending)
    }
}

impl From<MigrateEnding> for Ending {
    ghost use Rattle.bip_image.specs.declared.ending.Ending.TheVariants.{Migrate};

    ghost from_gives = { λ why ending. ending ≡ Migrate why };

    fn from(ending: MigrateEnding) -> Self {
        Ending::Migrate(ending)
    }
}

impl From<ExploreEnding> for Ending {
    ghost use Rattle.bip_image.specs.Ending.{of_exploring};

    ghost from_gives = { λ why ending. ending ≡ of_exploring why };

    fn from(ending: ExploreEnding) -> Self {
        match ending {
            ExploreEnding::Memory => Ending::OfPlant(PlantEnding::Memory),
            ExploreEnding::Unwritten => Ending::Image(ImageEnding::Unwritten),
        }
    }
}

impl From<WorkersEnding> for Ending {
    ghost use Rattle.bip_image.specs.Ending.{of_workers};

    ghost from_gives = { λ why ending. ending ≡ of_workers why };

    fn from(ending: WorkersEnding) -> Self {
        match ending {
            WorkersEnding::Memory => Ending::OfPlant(PlantEnding::Memory),
            WorkersEnding::Image(ending) => Ending::Image(ending),
        }
    }
}

impl From<BackupFault> for Ending {
    ghost use Rattle.bip_image.specs.Ending.{of_backup};

    ghost from_gives = { λ why ending. ending ≡ of_backup why };

    fn from(fault: BackupFault) -> Self {
        match fault {
            BackupFault::Image(fault) => {
                Ending::Image(ImageEnding::Refused(ImageRefusal::Image(fault)))
            }
            BackupFault::Disk => Ending::Image(ImageEnding::Refused(ImageRefusal::Disk)),
            BackupFault::CopyDisk => Ending::NewUnopened(FileFault::Unmade),
        }
    }
}

impl From<BackupEnding> for Ending {
    ghost use Rattle.bip_image.specs.Ending.{of_copy};

    ghost from_gives = { λ why ending. ending ≡ of_copy why };

    fn from(ending: BackupEnding) -> Self {
        match ending {
            BackupEnding::Failed(fault) => fault.into(),
            BackupEnding::Unwritten => Ending::Image(ImageEnding::Unwritten),
        }
    }
}

impl From<RestateFault> for Ending {
    ghost use Rattle.bip_image.specs.Ending.{of_restating};

    ghost from_gives = { λ why ending. ending ≡ of_restating why };

    fn from(fault: RestateFault) -> Self {
        match fault {
            RestateFault::TooLong => Ending::LongText,
            RestateFault::Memory => Ending::OfPlant(PlantEnding::Memory),
            RestateFault::Write => Ending::Image(ImageEnding::Unwritten),
        }
    }
}

impl From<InspectionEnding> for Ending {
    ghost use Rattle.bip_image.specs.Ending.{of_inspection};

    ghost from_gives = { λ why ending. ending ≡ of_inspection why };

    fn from(ending: InspectionEnding) -> Self {
        let ending = match ending {
            InspectionEnding::Disk => ImageEnding::Refused(ImageRefusal::Disk),
            InspectionEnding::Memory => {
                ImageEnding::Refused(ImageRefusal::Image(ImageFault::Memory))
            }
            InspectionEnding::Unwritten => ImageEnding::Unwritten,
        };
        Ending::Image(ending)
    }
}

impl From<ServiceEnding> for Ending {
    ghost use Rattle.bip_image.specs.Ending.{of_service};

    ghost from_gives = { λ why ending. ending ≡ of_service why };

    fn from(ending: ServiceEnding) -> Self {
        match ending {
            ServiceEnding::Image(ending) => Ending::Image(ending),
            ServiceEnding::Memory => Ending::OfPlant(PlantEnding::Memory),
            ServiceEnding::Unread => Ending::ScriptUnread,
        }
    }
}
