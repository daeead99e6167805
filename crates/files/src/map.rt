// The map of the disk: loaded once as the numbers of its records, and walked.
ghost use Rattle.std.specs.Prelude.{◌≡◌, ℕ, ◌≤◌, ◌<◌};
ghost use Rattle.laws.specs.Below.{count, first_below};
ghost use Rattle.sector_rules.specs.Geometry.{blocks};
ghost use Rattle.file_rules.specs.Disk.{disk_of};
ghost use Rattle.file_rules.specs.Map.{number_at, is_free, is_bad_record, is_part};
ghost use Rattle.file_rules.specs.Check.{record_fault};
ghost use Rattle.files.specs.Laws.Loading.Loaded.{loaded_record, MapLoaded};

use crate::blocks::block_byte;
use crate::records::{is_bad, is_free, is_part, record_fault, record_of};
use crate::sizes::{MAP_START, MapNumbers, RECORD_BYTES};
use file_rules::{MapRecord, Record};
use sector_rules::BlockNumber;
use sectors::Geometry;

// The number of block b's record (§6.8).
fn load_number(image: &[u8], b: usize) -> u32
    requires { b < blocks }
    ensures { result ≡ number_at (disk_of image.now) b }
{
    let at = MAP_START + RECORD_BYTES * b;
    let bytes = [
        0,
        block_byte(image, 0, at),
        block_byte(image, 0, at + 1),
        block_byte(image, 0, at + 2),
    ];
    u32::from_be_bytes(bytes)
}

// The map's records as numbers: each byte of the map is read from the image once.
pub fn load_map(image: &[u8]) -> MapNumbers
    ensures { MapLoaded result (disk_of image.now) }
{
    // By a loop: with `array::from_fn` the first track is judged in a third more time.
    let mut map = [0; Geometry::BLOCKS];
    for (b, number) in map.iter_mut().enumerate() {
        *number = load_number(image, b);
    }
    map
}

// The record of block b in a loaded map.
#[tactic(auto, unfolding(crate::specs::Laws::Loading::Loaded::loaded_record))]
pub fn loaded_record(map: &MapNumbers, b: usize) -> Record
    requires { b < blocks }
    ensures { result ≡ loaded_record map.now b }
{
    record_of(map[b])
}

// The lowest block whose record is wrong (§7.9): `map_fault`.
pub fn map_fault(map: &MapNumbers) -> Option<usize>
    ensures { result ≡ first_below (λ (b : ℕ). record_fault b (loaded_record map.now b)) blocks }
{
    (0..Geometry::BLOCKS).find(|&b| record_fault(MapRecord {
        block: BlockNumber(b),
        record: loaded_record(map, b),
    }))
}

// How many records are free (§6.4): `free_count`.
pub fn count_free(map: &MapNumbers) -> usize
    ensures { (result ≡ count blocks (λ (b : ℕ). is_free (loaded_record map.now b))) × (result ≤ blocks) }
{
    map.iter().filter(|&&n| is_free(record_of(n))).count()
}

// How many records are bad (§6.18): `bad_count`.
pub fn count_bad(map: &MapNumbers) -> usize
    ensures { (result ≡ count blocks (λ (b : ℕ). is_bad_record (loaded_record map.now b))) × (result ≤ blocks) }
{
    map.iter().filter(|&&n| is_bad(record_of(n))).count()
}

// The block that is sequence s of file f, the lowest if there are several (§6.10): `part_block`.
pub fn part_block(map: &MapNumbers, f: usize, s: usize) -> Option<usize>
    ensures { result ≡ first_below (λ (b : ℕ). is_part f s (loaded_record map.now b)) blocks }
{
    map.iter().position(|&n| is_part(record_of(n), f, s))
}
