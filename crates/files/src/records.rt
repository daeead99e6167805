// Map records: their numbers and bytes, and every question that is asked of one. A record's number has 24 bits, 12 of
// file number and 12 of sequence (§6.8); those from FILE_BOUND on are of other kinds (§6.9).
ghost use Rattle.std.specs.Prelude.{◌≡◌};
ghost use Rattle.laws.specs.Lists.{tab};
ghost use Rattle.file_rules.specs.Sizes.{record_bytes};
ghost use Rattle.file_rules.specs.Map.{decode, number_of, encode, is_free, is_bad_record, bears, is_part};
ghost use Rattle.file_rules.specs.Check.{record_fault};
ghost use Rattle.files.specs.Laws.Loading.Parts.{part_of};
ghost use Rattle.files.specs.Laws.Loading.Chains.{bearer};

use crate::sizes::RECORD_BYTES;
use file_rules::{MapRecord, Record};

// The numbers below this are files' records (§6.9).
const FILE_BOUND: u32 = 0xF8_0000;

// The first byte of a free record (§6.9).
const FREE_BYTE: u32 = 0xFD;

// How many numbers have the same first byte: the tail of a free record has 16 bits (§6.9).
const TAIL_COUNT: u32 = 65536;

// The number of a free record as written (§6.9).
const FREE: u32 = 0xFD_FFFF;

// The number of a bad record (§6.9).
const BAD: u32 = 0xFE_FFFF;

// The number of the system's record (§6.9).
const SYSTEM: u32 = 0xF8_0000;

// A number of no kind (§6.9).
const OTHER: u32 = 0xFF_FFFF;

// How many sequences, and file numbers, 12 bits have (§6.8).
const SEQUENCES: u32 = 4096;

// How many file numbers 12 bits have (§6.8).
pub const FILES: usize = SEQUENCES as usize;

// The record of a number (§6.9). A function and no `From`, since the type is another crate's.
#[tactic(auto, unfolding(file_rules::specs::Map::decode))]
pub fn record_of(n: u32) -> Record
    ensures { result ≡ decode n }
{
    if n < FILE_BOUND {
        Record::File((n / SEQUENCES) as u16, (n % SEQUENCES) as u16)
    } else if n / TAIL_COUNT == FREE_BYTE {
        Record::Free
    } else if n == SYSTEM {
        Record::System
    } else if n == BAD {
        Record::Bad
    } else {
        Record::Other
    }
}

// The number of a record (§6.8 §6.9).
#[tactic(auto, unfolding(file_rules::specs::Map::number_of))]
pub fn number_of(r: Record) -> u32
    ensures { result ≡ number_of r }
{
    match r {
        Record::Free => FREE,
        Record::Bad => BAD,
        Record::System => SYSTEM,
        Record::File(f, s) => u32::from(f) * SEQUENCES + u32::from(s),
        Record::Other => OTHER,
    }
}

// The three bytes of a record, high byte first (§6.8).
pub fn encoded_record(r: Record) -> [u8; RECORD_BYTES]
    ensures { result ≡ tab (encode r) record_bytes }
{
    let [_, high, middle, low] = number_of(r).to_be_bytes();
    [high, middle, low]
}

// Whether a record is free (§6.9).
#[tactic(auto, unfolding(file_rules::specs::Map::is_free))]
pub fn is_free(r: Record) -> bool
    ensures { result ≡ is_free r }
{
    matches!(r, Record::Free)
}

// Whether a record is bad (§6.9).
#[tactic(auto, unfolding(file_rules::specs::Map::is_bad_record))]
pub fn is_bad(r: Record) -> bool
    ensures { result ≡ is_bad_record r }
{
    matches!(r, Record::Bad)
}

// Whether a record bears the number of file f (§6.8).
#[tactic(auto, unfolding(file_rules::specs::Map::bears))]
pub fn bears_file(r: Record, f: usize) -> bool
    ensures { result ≡ bears f r }
{
    matches!(r, Record::File(g, _) if usize::from(g) == f)
}

// The file that a record bears, if its number is one of those that 12 bits can name (§6.8).
#[tactic(auto, unfolding(crate::specs::Laws::Loading::Chains::bearer, laws::specs::Found::below))]
pub fn bearer(r: Record) -> Option<usize>
    ensures { result ≡ bearer r }
{
    match r {
        Record::File(g, _) if usize::from(g) < FILES => Some(usize::from(g)),
        _ => None,
    }
}

// Whether a record is sequence s of file f (§6.10).
#[tactic(auto, unfolding(file_rules::specs::Map::is_part))]
pub fn is_part(r: Record, f: usize, s: usize) -> bool
    ensures { result ≡ is_part f s r }
{
    matches!(r, Record::File(g, t) if usize::from(g) == f && usize::from(t) == s)
}

// Which part of file f a record is (§6.10), if it bears that file.
#[tactic(auto, unfolding(crate::specs::Laws::Loading::Parts::part_of))]
pub fn part_of(r: Record, f: usize) -> Option<usize>
    ensures { result ≡ part_of f r }
{
    match r {
        Record::File(g, t) if usize::from(g) == f => Some(usize::from(t)),
        _ => None,
    }
}

// Whether a record is wrong for its block (§7.9): block 0 has the system's and no other block has it, and each is of a
// kind.
#[tactic(auto, unfolding(file_rules::specs::Check::record_fault, file_rules::specs::Map::is_system, file_rules::specs::Map::is_other))]
pub fn record_fault(m: MapRecord) -> bool
    ensures { result ≡ record_fault m.block.0 m.«record» }
{
    let b = m.block.0;
    match m.record {
        Record::System => b != 0,
        Record::Other => true,
        _ => b == 0,
    }
}
