// The rules of layer 3: the types that its definitions speak of.
#![tactic(auto)]

use sector_rules::{BlockNumber, Reply};

// A map record: its block is free, bad, the system's, a file's with its sequence, or the record is of no kind (§6.9).
#[derive(Clone, Copy, Debug, PartialEq, Eq)]
pub enum Record {
    Free,
    Bad,
    System,
    File(u16, u16),
    Other,
}

// A map record beside its block's number.
#[derive(Clone, Copy, Debug, PartialEq, Eq)]
pub struct MapRecord {
    pub block: BlockNumber,
    pub record: Record,
}

// The most bytes of a file's name (§6.15).
pub const NAME_MOST: usize = 36;

// A directory entry (§6.13): the length counts the file's first 64 bytes, and the name is the first `namelen` of the 36
// bytes.
#[repr(C)]
#[derive(Clone, Copy, Debug, PartialEq, Eq)]
pub struct Entry {
    pub name: [u8; NAME_MOST],
    pub length: u32,
    pub namelen: u16,
    pub date: u32,
}

// What first track gives: the reply, and where that is 0 the free word, the good word and the number of records that
// are not free (§8.14).
#[repr(C)]
#[derive(Clone, Copy)]
pub struct FirstTrack {
    pub reply: Reply,
    pub free: usize,
    pub good: usize,
    pub held: usize,
}
