//! A run of a plant on its image whose events are shared by threads, over any device and any writer.
//!
//! [`run_by_workers`] boots the plant, opens a host over it with a seat for each worker, and has each worker ask its events in a thread of its
//! own. After the last of them the host is closed, and it is printed where the plant stands and how many choices were fired. No file is opened
//! here, and no answer is printed.
//!
//! - `running`: the run. `sharing`: a host whose events are shared out. `crew`: its workers, each in a thread. `worker`: what one worker does.
//! - `printing`: the line of what was fired. `progress`: who learns how far a run is. `ending`: why a run ends early.
#![tactic(auto)]

mod crew;
mod ending;
mod printing;
mod progress;
mod running;
mod sharing;
mod worker;

pub use ending::WorkersEnding;
pub use progress::RunProgress;
pub use running::run_by_workers;
