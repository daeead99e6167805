// Bytes and numbers in a slice. Every function takes any place: what would stand past the end of
// the slice reads as 0, and is not written.
#![tactic(auto)]

mod bytes;
mod words;

pub use bytes::{byte, copy_into, fill, stands_at};
pub use words::{bytes_at, high2, high3, high4, low2, put_high2, put_high4, put_low2};
