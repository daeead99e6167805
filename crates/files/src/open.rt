// A disk that is written: the steps of add and remove that keep its map in step with its image.
ghost use Rattle.std.specs.Prelude.{◌≡◌, ◌+◌, ◌≤◌, ◌<◌, set};
ghost use Rattle.sector_rules.specs.Geometry.{blocks};
ghost use Rattle.file_rules.specs.Disk.{disk_of, image_of};
ghost use Rattle.file_rules.specs.Map.{sequences, number_of};
ghost use Rattle.file_rules.specs.Directory.{entry_byte, dir_end};
ghost use Rattle.file_rules.specs.Written.{part, zeros, set_record, set_slot, set_free, step_update, free_block, free_blocks};
ghost use Rattle.file_rules.specs.declared.Record.TheVariants.{File};
ghost use Rattle.files.specs.Laws.Writing.Given.{given, give_lowest};
ghost use Rattle.files.specs.Laws.Writing.Steps.{FitsRecord, stored_row};
ghost use Rattle.files.specs.Laws.Writing.InStep.{InStep, in_step_prop};

use crate::header::dir_end;
use crate::map::{count_free, loaded_record, part_block};
use crate::records::{bears_file, is_free, number_of};
use crate::sizes::{BLOCK_SLOTS, MapNumbers, SLOT_BYTES};
use crate::steps::{Stored, entry_bytes, put_part, set_record, step_update, zero_block};
use crate::store::{put_bytes, put_word, zero_bytes};
use file_rules::{Entry, Record};
use sectors::Geometry;

// The block image of a disk that is written, and its map, in which each record that is written changes too (§6.8).
#[derive(Drop)]
pub struct OpenDisk<'a> {
    pub image: &'a mut [u8],
    pub map: MapNumbers,
    ghost in_step: { InStep map image.now } by { in_step_prop _ _ },
}

impl<'a> OpenDisk<'a> {
    // The directory's end (§6.11).
    pub fn dir_end(&self) -> usize
        ensures { result ≡ dir_end (disk_of self.now.image.now) }
    {
        dir_end(self.image)
    }

    // The record of block b, in the image and in the loaded map.
    fn place_record(&mut self, b: usize, r: Record)
        requires { (0 < b) × (b < blocks) × FitsRecord r }
        ensures same_image { self.new.image.ghost_name ≡ self.old.image.ghost_name }
        ensures written { self.new.image.now ≡ image_of (set_record (disk_of self.old.image.now) b r) }
        ensures numbers { self.new.map ≡ set self.old.map b (number_of r) }
    {
        set_record(self.image, b, r);
        self.map[b] = number_of(r);
    }

    // The free word becomes 3 times the free records (§6.4).
    fn set_free(&mut self)
        ensures same_image { self.new.image.ghost_name ≡ self.old.image.ghost_name }
        ensures written { self.new.image.now ≡ image_of (set_free (disk_of self.old.image.now)) }
    {
        let free = count_free(&self.map);
        put_word::<2>(self.image, 0, 20, Geometry::BLOCK_SECTORS * free);
    }

    // What every accepted add and remove ends with: the free word (§6.4), then the update count (§6.3).
    pub fn update_counts(&mut self)
        ensures same_image { self.new.image.ghost_name ≡ self.old.image.ghost_name }
        ensures written { self.new.image.now ≡ image_of (step_update (set_free (disk_of self.old.image.now))) }
    {
        self.set_free();
        step_update(self.image);
    }

    // An entry is written to slot k (§8.12).
    pub fn write_entry(&mut self, k: usize, e: Entry)
        ensures same_image { self.new.image.ghost_name ≡ self.old.image.ghost_name }
        ensures written { self.new.image.now ≡ image_of (set_slot (disk_of self.old.image.now) k (entry_byte e)) }
    {
        if let Some(b) = part_block(&self.map, 0, k / BLOCK_SLOTS) {
            put_bytes(self.image, b, k % BLOCK_SLOTS * SLOT_BYTES, &entry_bytes(e));
        }
    }

    // Slot k becomes vacant: 64 zero bytes (§8.13), since no file present has it (§9.8).
    pub fn zero_slot(&mut self, k: usize)
        ensures same_image { self.new.image.ghost_name ≡ self.old.image.ghost_name }
        ensures written { self.new.image.now ≡ image_of (set_slot (disk_of self.old.image.now) k zeros) }
    {
        if let Some(b) = part_block(&self.map, 0, k / BLOCK_SLOTS) {
            zero_bytes(self.image, b, k % BLOCK_SLOTS * SLOT_BYTES, SLOT_BYTES);
        }
    }

    // Block b is zeroed and its record freed if it bears the number of file f (§8.13), so that no byte of it stays (§9.8).
    fn free_block(&mut self, f: usize, b: usize)
        requires { b < blocks }
        ensures same_image { self.new.image.ghost_name ≡ self.old.image.ghost_name }
        ensures written { self.new.image.now ≡ image_of (free_block (disk_of self.old.image.now) f b) }
    {
        if !bears_file(loaded_record(&self.map, b), f) {
            return;
        }
        zero_block(self.image, b);
        self.place_record(b, Record::Free);
    }

    // So for all blocks (§8.13).
    pub fn free_blocks(&mut self, f: usize)
        ensures same_image { self.new.image.ghost_name ≡ self.old.image.ghost_name }
        ensures written { self.new.image.now ≡ image_of (free_blocks blocks (disk_of self.old.image.now) f) }
    {
        for b in 0..Geometry::BLOCKS {
            self.free_block(f, b);
        }
    }

    // Block b becomes part s of file f, and its record says so (§8.11): one step of `give_blocks`.
    fn give_block(&mut self, b: usize, f: usize, s: usize, file: &Stored)
        requires { (0 < b) × (b < blocks) × (f < sequences) × (s < sequences) }
        ensures same_image { self.new.image.ghost_name ≡ self.old.image.ghost_name }
        ensures written { self.new.image.now ≡ image_of (given (disk_of self.old.image.now) b (part (stored_row file.now.head.now file.now.content.now) s) (File f s)) }
        ensures numbers { self.new.map ≡ set self.old.map b (number_of (File f s)) }
    {
        put_part(self.image, b, s, file);
        self.place_record(b, Record::File(f as u16, s as u16));
    }

    // The n lowest free blocks are given to file f, in ascending order, from sequence s on (§8.11): `give_blocks` of the
    // lowest free blocks. Each block that is given changes the map, so that no iterator over the map can be held meanwhile.
    pub fn give_blocks(&mut self, f: usize, s: usize, n: usize, file: &Stored)
        requires { (f < sequences) × (s + n ≤ sequences) }
        ensures same_image { self.new.image.ghost_name ≡ self.old.image.ghost_name }
        ensures written { self.new.image.now ≡ image_of (give_lowest (disk_of self.old.image.now) f (stored_row file.now.head.now file.now.content.now) s n blocks) }
    {
        let mut given = 0;
        for b in 0..Geometry::BLOCKS {
            if given < n && is_free(loaded_record(&self.map, b)) {
                self.give_block(b, f, s + given, file);
                given += 1;
            }
        }
    }
}
