//! The commands on images, over any device and any writer.
//!
//! An image is a device that stands for a state of a plant. [`format_image`] makes one, [`run_image`] runs a plant on it by the events of a
//! script, [`run_image_strictly`] does so up to the first refusal, and [`recover_image`] prints where the plant stands. [`migrate_image`] brings an image of the first layout over to a new one. Each
//! prints what it did, and gives the device back if it ends well; if not, an [`ImageEnding`], or a [`MigrateEnding`], says why, and
//! the exit status that a program ends with then. [`explore_plant`] needs no image: it makes each trial of a run in memory, as `crash_explorer`
//! does, and prints what each stop leaves.
//!
//! What is printed are definitions of `specs/`, and the contracts say that exactly these bytes were appended to a writer whose type says
//! which bytes it took. If the device keeps the disk model they also say which state the image stands for. No file is opened here.
//!
//! - `formatting`, `running`, `recovering`, `migrating`, `exploring`: the commands, each in a file. `booting`: how a plant comes to be on a
//!   device. `trial_line`: the lines of an exploration.
//! - `refusal`: why an image is refused, its line, and what an operator can do. `ending`: why a command ends early.
//!   `migrate_ending`: both where an image is brought over.
#![tactic(auto)]

mod booting;
mod ending;
mod exploring;
mod formatting;
mod migrate_ending;
mod migrating;
mod recovering;
mod refusal;
mod running;
mod trial_line;

pub use booting::booted;
pub use ending::ImageEnding;
pub use exploring::{ExploreEnding, Progress, explore_plant};
pub use formatting::{format_image, image_bytes};
pub use migrate_ending::{MigrateEnding, MigrateRefusal};
pub use migrating::migrate_image;
pub use recovering::recover_image;
pub use refusal::ImageRefusal;
pub use running::{StrictRun, run_image, run_image_strictly};
