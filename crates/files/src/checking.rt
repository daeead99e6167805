// Whether the disk is sound: the judgements 8, 9, 19, 10 and 11 that check, list, read, add and remove make first.
ghost use Rattle.std.specs.Prelude.{◌≡◌, MatchResult, ◌&&◌, ◌+◌, ◌≤◌, ◌<◌, ltb, length};
ghost use Rattle.sector_rules.specs.Geometry.{sector_bytes, image_bytes};
ghost use Rattle.file_rules.specs.Sizes.{slot_count};
ghost use Rattle.file_rules.specs.Disk.{disk_of};
ghost use Rattle.file_rules.specs.Directory.{slot_entry, held, dir_end};
ghost use Rattle.file_rules.specs.Check.{entry_right, file_right, refusal19, start_refusal, refusal10, refusal11, disk_refusal};
ghost use Rattle.file_rules.specs.Calls as Calls;
ghost use Rattle.files.specs.Laws.Judging.SoundImage.{NotSound};
ghost use Rattle.files.specs.Laws.Loading.NameHashes.{HashesNoted, TellsNew};
ghost use Rattle.files.specs.Laws.Judging.Sound.{Tables, map_refusal};
ghost use Rattle.files.specs.Refusals.{disk_refused, refusal_of, disk_replied};

use crate::block_row::BlockRow;
use crate::blocks::blocks_of;
use crate::chains::{Chains, first_block, load_chains};
use crate::directory::Directory;
use crate::header::{dir_bytes, dir_end, head_word, judge_header};
use crate::loaded::LoadedDisk;
use crate::map::map_fault;
use crate::names::{HASHES, NotedHashes, new_by_hash, note_hash};
use crate::parts::parts_right;
use crate::refusals::DiskRefusal;
use crate::sizes::{MapNumbers, NAME_MOST, SLOT_BYTES, SLOT_COUNT};
use crate::sound::SoundDisk;
use file_rules::Entry;
use sectors::Geometry;

// Whether the held slot k, whose entry is given, is sound: its length, its name (§7.21), and its blocks (§7.20).
fn entry_right(dir: &Directory<'_>, chains: &Chains, unnoted: bool, k: usize, e: &Entry) -> bool
    requires { Tables dir.now.disk.now.image.now dir.now.disk.now.map dir.now.blocks chains.now.first chains.now.next × (k < slot_count) × (e.now ≡ slot_entry (disk_of dir.now.disk.now.image.now) k) × TellsNew unnoted (disk_of dir.now.disk.now.image.now) k }
    ensures { result ≡ entry_right (disk_of dir.now.disk.now.image.now) k }
{
    let length = e.length as usize;
    let namelen = e.namelen as usize;
    if (SLOT_BYTES <= length) & ((1 <= namelen) & (namelen <= NAME_MOST)) {
        if new_by_hash(dir, unnoted, k, &e.name[..namelen]) {
            return parts_right(&dir.disk.map, chains, k, blocks_of(length));
        }
    }
    false
}

// Whether slot f is below the directory's end and held (§6.11 §6.12).
fn is_listed(dir: &Directory<'_>, end: usize, f: usize) -> bool
    requires { f < slot_count }
    ensures { result ≡ (ltb f end && held (disk_of dir.now.disk.now.image.now) f) }
{
    f < end && dir.held_slot(f)
}

// Whether file f is sound: the directory, a held slot, or a number that no record may bear (§7.22). The hash of its
// name is noted for those that follow.
fn file_right(
    dir: &Directory<'_>,
    chains: &Chains,
    noted: &mut NotedHashes,
    end: usize,
    f: usize,
) -> bool
    requires { Tables dir.now.disk.now.image.now dir.now.disk.now.map dir.now.blocks chains.now.first chains.now.next × (f < slot_count) × (end ≡ dir_end (disk_of dir.now.disk.now.image.now)) × HashesNoted noted.old (disk_of dir.now.disk.now.image.now) f }
    ensures { (result ≡ file_right (disk_of dir.now.disk.now.image.now) f) × HashesNoted noted.new (disk_of dir.now.disk.now.image.now) (f + 1) }
{
    if f == 0 {
        return parts_right(
            &dir.disk.map,
            chains,
            0,
            blocks_of(dir_bytes(dir.disk.image)),
        );
    }
    if is_listed(dir, end, f) {
        let entry = dir.read_entry(f);
        let unnoted = note_hash(dir, f, &entry, noted);
        return entry_right(dir, chains, unnoted, f, &entry);
    }
    first_block(chains, f).is_none()
}

// Refusal 9: the map (§7.9). Of a loaded map this is `refusal9`.
fn judge_map(map: &MapNumbers) -> Result<(), DiskRefusal>
    ensures { refusal_of result ≡ map_refusal map.now }
{
    match map_fault(map) {
        Some(b) => Err(DiskRefusal::MapRecord(b)),
        None => Ok(()),
    }
}

// Refusal 19: the good word (§6.18 §7.26).
fn judge_good(disk: &LoadedDisk<'_>) -> Result<(), DiskRefusal>
    ensures { refusal_of result ≡ refusal19 (disk_of disk.now.image.now) }
{
    if head_word(disk.image, 22)
        == Geometry::ALL_SECTORS - Geometry::BLOCK_SECTORS * disk.count_bad()
    {
        return Ok(());
    }
    Err(DiskRefusal::GoodWord)
}

// Refusal 10: the directory and the files (§7.10). No directory has more slots than every block's (§7.22).
fn judge_files(disk: &LoadedDisk<'_>) -> Result<(), DiskRefusal>
    requires { length disk.now.image.now ≡ image_bytes }
    ensures { refusal_of result ≡ refusal10 (disk_of disk.now.image.now) }
{
    let dir = Directory::of(disk);
    let mut chains = Chains {
        first: BlockRow::none(),
        next: BlockRow::none(),
    };
    load_chains(&disk.map, &mut chains);
    let end = dir_end(disk.image);
    let mut noted = [0; HASHES / 8];
    for f in 0..SLOT_COUNT {
        if !file_right(&dir, &chains, &mut noted, end, f) {
            return Err(DiskRefusal::UnsoundFile(f));
        }
    }
    Ok(())
}

// Refusal 11: the free word (§7.11).
pub fn judge_free(disk: &LoadedDisk<'_>) -> Result<(), DiskRefusal>
    ensures { refusal_of result ≡ refusal11 (disk_of disk.now.image.now) }
{
    if head_word(disk.image, 20) == Geometry::BLOCK_SECTORS * disk.count_free() {
        return Ok(());
    }
    Err(DiskRefusal::FreeWord)
}

// The judgements 8, 9 and 19, in order (§7.18 §7.26): with these the calls and the first track begin alike (§8.5).
pub fn judge_start(disk: &LoadedDisk<'_>) -> Result<(), DiskRefusal>
    requires { sector_bytes ≤ length disk.now.image.now }
    ensures { refusal_of result ≡ start_refusal (disk_of disk.now.image.now) }
{
    judge_header(disk.image)?;
    judge_map(&disk.map)?;
    judge_good(disk)
}

// The judgements 8, 9, 19, 10 and 11, in order (§7.18); nothing else of a disk is judged (§7.23).
fn judge(disk: &LoadedDisk<'_>) -> Result<(), DiskRefusal>
    requires { length disk.now.image.now ≡ image_bytes }
    ensures { refusal_of result ≡ disk_refusal (disk_of disk.now.image.now) }
{
    judge_start(disk)?;
    judge_files(disk)?;
    judge_free(disk)
}

// The disk of an image, if it is sound, or 1 (§7.1) or the refusal of the disk (§8.5): check, list, read, add and remove begin with it.
pub fn sound_disk(image: &[u8]) -> Result<SoundDisk<'_>, DiskRefusal>
    ensures { MatchResult result (λ sound. sound.disk.image.now ≡ image.now) (λ refusal. NotSound image.now (disk_refused refusal)) }
{
    if image.len() != Geometry::IMAGE_BYTES {
        return Err(DiskRefusal::ImageLength);
    }
    let disk = LoadedDisk::load(image);
    judge(&disk)?;
    Ok(SoundDisk { disk })
}

// The call check (§8.5): done, or the first refusal of 1 (§7.1), 8, 9, 19, 10 and 11. After a history it is done (§9.5).
pub fn check(image: &[u8]) -> Result<(), DiskRefusal>
    ensures { disk_replied result ≡ Calls.check image.now }
{
    sound_disk(image)?;
    Ok(())
}
