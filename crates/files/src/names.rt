// Whether the name of a slot is new. It is compared with the lower ones only where one of them has the same hash.
ghost use Rattle.std.specs.Prelude.{◌≡◌, true, not, ◌&&◌, ℕ, ◌+◌, ◌≤◌, ◌<◌, ltb, length, take};
ghost use Rattle.laws.specs.Lists.{element_at};
ghost use Rattle.laws.specs.Below.{all};
ghost use Rattle.sector_rules.specs.Geometry.{image_bytes};
ghost use Rattle.file_rules.specs.Sizes.{slot_count};
ghost use Rattle.file_rules.specs.Disk.{disk_of};
ghost use Rattle.file_rules.specs.Directory.{name_eq, name_of, entry_of, slot_entry, slot_name, held, dir_end};
ghost use Rattle.files.specs.Laws.Loading.NameHashes.{hash_count, name_hash, HashesNoted, TellsNew};

use crate::directory::{Directory, lowered_byte, name_of};
use file_rules::Entry;

// How many hashes there are.
pub const HASHES: usize = 16384;

// Which hashes the names of the slots judged before have: a bit for each, eight to a byte, the lowest first. A bool for
// each would take 16 KiB of stack.
pub type NotedHashes = [u8; HASHES / 8];

// The hash of a name: that of its bytes once they are lowered, so that equal names have one hash (§6.14).
fn name_hash(name: &[u8]) -> usize
    ensures { (result ≡ name_hash name.now) × (result < hash_count) }
{
    let mut hash = 0;
    for x in name {
        hash = (hash * 33 + usize::from(lowered_byte(*x))) % HASHES;
    }
    hash
}

// Notes the hash of the name of the held slot k, whose entry is given, and tells whether no lower slot has it: then the
// name is new.
pub fn note_hash(dir: &Directory<'_>, k: usize, entry: &Entry, noted: &mut NotedHashes) -> bool
    requires { (k < slot_count) × (entry.now ≡ slot_entry (disk_of dir.now.disk.now.image.now) k) × ((ltb k (dir_end (disk_of dir.now.disk.now.image.now)) && held (disk_of dir.now.disk.now.image.now) k) ≡ true) × HashesNoted noted.old (disk_of dir.now.disk.now.image.now) k }
    ensures { TellsNew result (disk_of dir.now.disk.now.image.now) k × HashesNoted noted.new (disk_of dir.now.disk.now.image.now) (k + 1) }
{
    let hash = name_hash(name_of(entry));
    let byte = noted[hash / 8];
    noted[hash / 8] = byte | (1 << (hash % 8));
    (byte >> (hash % 8)) % 2 == 0
}

// Whether no slot below k is held and has this name (§7.21): `new_name`, for the name of slot k.
fn new_name(dir: &Directory<'_>, k: usize, name: &[u8]) -> bool
    requires { k < slot_count }
    ensures { result ≡ all (λ (j : ℕ). not (held (disk_of dir.now.disk.now.image.now) j && name_eq (slot_name (disk_of dir.now.disk.now.image.now) j) name.now)) k }
{
    !(0..k).any(|j| dir.slot_has_name(j, name))
}

// The same for the name of slot k (§7.21); a hash not noted before tells at once.
pub fn new_by_hash(dir: &Directory<'_>, unnoted: bool, k: usize, name: &[u8]) -> bool
    requires { (k < slot_count) × TellsNew unnoted (disk_of dir.now.disk.now.image.now) k × (name.now ≡ slot_name (disk_of dir.now.disk.now.image.now) k) }
    ensures { result ≡ all (λ (j : ℕ). not (held (disk_of dir.now.disk.now.image.now) j && name_eq (slot_name (disk_of dir.now.disk.now.image.now) j) name.now)) k }
{
    unnoted || new_name(dir, k, name)
}
