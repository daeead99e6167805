// The numbers of the file layer, each once; those of the disk kind are the sector layer's.
pub use file_rules::NAME_MOST;
use sectors::Geometry;

// Blocks of a disk (§1.1).
pub const BLOCKS: usize = Geometry::BLOCKS;

// Bytes of a block (§1.1).
pub const BLOCK_BYTES: usize = Geometry::BLOCK_SECTORS * Geometry::SECTOR_BYTES;

// Bytes of a track (§1.1).
pub const TRACK_BYTES: usize = Geometry::TRACK_SECTORS * Geometry::SECTOR_BYTES;

// Bytes of a directory slot (§6.11).
pub const SLOT_BYTES: usize = 64;

// Slots of a block of the directory (§6.11).
pub const BLOCK_SLOTS: usize = BLOCK_BYTES / SLOT_BYTES;

// Slots of a directory that has every block: file numbers below it are judged (§7.22).
pub const SLOT_COUNT: usize = Geometry::BLOCKS * BLOCK_SLOTS;

// Where the map begins in block 0 (§6.8).
pub const MAP_START: usize = 96;

// Bytes of a record of the map (§6.8).
pub const RECORD_BYTES: usize = 3;

// The most bytes of a disk's name (§6.15).
pub const TITLE_MOST: usize = 10;

// A loaded map: the number of each block's record.
pub type MapNumbers = [u32; Geometry::BLOCKS];
