// Layer 3: the header, the map, the directory and the files of a disk, on its block image.
#![tactic(auto)]

mod adding;
mod batching;
mod block_row;
mod blocks;
mod chains;
mod checking;
mod directory;
mod formatting;
mod header;
mod listing;
mod loaded;
mod map;
mod names;
mod open;
mod parts;
mod reading;
mod records;
mod refusals;
mod removing;
mod sizes;
mod sound;
mod steps;
mod store;
mod track;

pub use adding::add;
pub use batching::batch;
pub use checking::check;
pub use formatting::{format, format_bad};
pub use listing::list;
pub use reading::read;
pub use refusals::{BatchRefusal, DiskRefusal, TrackCounts, track_reply};
pub use removing::remove;
pub use track::first_track;
