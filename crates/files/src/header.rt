// The header of the disk, and refusal 8.
ghost use Rattle.std.specs.Prelude.{◌≡◌, ◌≤◌, ◌<◌, ◌^◌, eqb, length};
ghost use Rattle.laws.specs.Numbers.{at16};
ghost use Rattle.sector_rules.specs.Faults.{wrong_at};
ghost use Rattle.sector_rules.specs.Geometry.{sector_bytes};
ghost use Rattle.file_rules.specs.Disk.{disk_of};
ghost use Rattle.file_rules.specs.Directory.{dir_bytes, dir_end};
ghost use Rattle.file_rules.specs.Check.{length_right, dimensions_fault, disk_header_fault, refusal8};
ghost use Rattle.files.specs.Refusals.{refusal_of};

use crate::blocks::block_word2;
use crate::refusals::DiskRefusal;
use crate::sizes::{BLOCK_BYTES, SLOT_BYTES};
use sectors::{Geometry, wrong_at};

// The number in two bytes of block 0 (§6.5).
pub fn head_word(image: &[u8], o: usize) -> usize
    requires { o < 2 ^ 16 }
    ensures { (result ≡ at16 (disk_of image.now 0) o) × (result < 65536) }
{
    block_word2(image, 0, o) as usize
}

// The directory's length in bytes (§6.6).
pub fn dir_bytes(image: &[u8]) -> usize
    ensures { (result ≡ dir_bytes (disk_of image.now)) × (result < 2 ^ 27) }
{
    head_word(image, 34) * BLOCK_BYTES + head_word(image, 36)
}

// The directory's end: the number of the first slot that it does not have (§6.11).
pub fn dir_end(image: &[u8]) -> usize
    ensures { (result ≡ dir_end (disk_of image.now)) × (result < 2 ^ 21) }
{
    dir_bytes(image) / SLOT_BYTES
}

// The directory's length: a multiple of 64, at least 64, and the bytes more below a block's (§6.6).
fn length_right(image: &[u8]) -> bool
    ensures { result ≡ length_right (disk_of image.now) }
{
    let bytes = dir_bytes(image);
    let over = head_word(image, 36);
    (over < BLOCK_BYTES) & ((bytes % SLOT_BYTES == 0) & (SLOT_BYTES <= bytes))
}

// The fault of a word of block 0 that is not as wanted.
fn word_fault(image: &[u8], o: usize, wanted: usize) -> Option<usize>
    requires { o < 2 ^ 16 }
    ensures { result ≡ wrong_at o (eqb (at16 (disk_of image.now 0) o) wanted) }
{
    wrong_at(o, head_word(image, o) == wanted)
}

// The words that say the disk's sizes (§6.5).
fn dimensions_fault(image: &[u8]) -> Option<usize>
    ensures { result ≡ dimensions_fault (disk_of image.now) }
{
    word_fault(image, 24, Geometry::ALL_SECTORS)
        .or(word_fault(image, 26, Geometry::SECTORS))
        .or(word_fault(image, 28, Geometry::TRACK_SECTORS))
        .or(word_fault(image, 30, Geometry::TRACKS))
        .or(word_fault(image, 32, Geometry::BLOCK_SECTORS))
}

// The lowest wrong field of the header: letters (§6.1), sizes, length, track offset and tables (§6.7). Its fields stand
// in the first sector of block 0, which is the image's first.
fn disk_header_fault(image: &[u8]) -> Option<usize>
    requires { sector_bytes ≤ length image.now }
    ensures { result ≡ disk_header_fault (disk_of image.now) }
{
    let places = Geometry::side_place_table();
    let backward = Geometry::backward_table();
    wrong_at(0, fields::stands_at(image, 0, b"QL5A"))
        .or(dimensions_fault(image))
        .or(wrong_at(34, length_right(image)))
        .or(word_fault(image, 38, Geometry::TRACK_OFFSET))
        .or(wrong_at(40, fields::stands_at(image, 40, &places)))
        .or(wrong_at(58, fields::stands_at(image, 58, &backward)))
}

// Refusal 8: the header (§7.8).
pub fn judge_header(image: &[u8]) -> Result<(), DiskRefusal>
    requires { sector_bytes ≤ length image.now }
    ensures { refusal_of result ≡ refusal8 (disk_of image.now) }
{
    match disk_header_fault(image) {
        Some(o) => Err(DiskRefusal::HeaderField(o)),
        None => Ok(()),
    }
}
