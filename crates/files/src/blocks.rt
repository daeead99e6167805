// Bytes and numbers of the disk in block order, read from the block image through the placement.
ghost use Rattle.std.specs.Prelude.{◌≡◌, ◌+◌, ◌*◌, ◌%◌, ◌<◌, ◌≤◌, ◌^◌};
ghost use Rattle.laws.specs.Numbers.{at16, at32};
ghost use Rattle.sector_rules.specs.Geometry.{blocks, sector_bytes, image_bytes};
ghost use Rattle.file_rules.specs.Sizes.{block_bytes, blocks_of};
ghost use Rattle.file_rules.specs.Disk.{image_place, disk_of};
ghost use Rattle.files.specs.Laws.Writing.Rows.{run_place};

use crate::sizes::BLOCK_BYTES;
use sector_rules::BlockNumber;
use sectors::Geometry;

// The blocks that so many bytes take (§6.17).
pub fn blocks_of(bytes: usize) -> usize
    requires { bytes < 2 ^ 33 }
    ensures { (result ≡ blocks_of bytes) × (result * block_bytes < bytes + block_bytes) }
{
    (bytes + (BLOCK_BYTES - 1)) / BLOCK_BYTES
}

// Where byte o of block b is in the image (§1.3).
pub fn byte_place(b: usize, o: usize) -> usize
    requires { (b < blocks) × (o < block_bytes) }
    ensures { (result ≡ image_place b o) × (result < image_bytes) }
{
    let sector = Geometry::running(BlockNumber(b), o / Geometry::SECTOR_BYTES);
    let at = Geometry::place(sector);
    at.0 * Geometry::SECTOR_BYTES + o % Geometry::SECTOR_BYTES
}

// Where offset o of block b stands in the image (`image_place`); its end, where there is no such block. Up to the
// sector's end the bytes of the block follow each other there (§1.3).
pub fn run_place(b: usize, o: usize) -> usize
    requires { o < block_bytes }
    ensures { result ≡ run_place b o }
{
    if b < Geometry::BLOCKS {
        return byte_place(b, o);
    }
    Geometry::IMAGE_BYTES
}

// How many bytes from offset o of a block on stand in a row: to its sector's end, and n at most.
pub fn run_length(o: usize, n: usize) -> usize
    requires { 0 < n }
    ensures { (0 < result) × (result ≤ n) × (o % sector_bytes + result ≤ sector_bytes) }
{
    n.min(Geometry::SECTOR_BYTES - o % Geometry::SECTOR_BYTES)
}

// Byte o of block b, 0 where there is none (§1.3).
pub fn block_byte(image: &[u8], b: usize, o: usize) -> u8
    ensures { result ≡ disk_of image.now b o }
{
    if b < Geometry::BLOCKS && o < BLOCK_BYTES {
        fields::byte(image, byte_place(b, o), 0)
    } else {
        0
    }
}

// The number in two bytes of a block, highest first.
pub fn block_word2(image: &[u8], b: usize, o: usize) -> u16
    requires { o < 2 ^ 16 }
    ensures { result ≡ at16 (disk_of image.now b) o }
{
    u16::from_be_bytes([block_byte(image, b, o), block_byte(image, b, o + 1)])
}

// The number in four bytes of a block, highest first.
pub fn block_word4(image: &[u8], b: usize, o: usize) -> u32
    requires { o < 2 ^ 16 }
    ensures { result ≡ at32 (disk_of image.now b) o }
{
    u32::from_be_bytes([
        block_byte(image, b, o),
        block_byte(image, b, o + 1),
        block_byte(image, b, o + 2),
        block_byte(image, b, o + 3),
    ])
}
