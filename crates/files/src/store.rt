// Bytes written into the block image through the placement: rows and numbers.
ghost use Rattle.std.specs.Prelude.{◌≡◌, ℕ, ◌+◌, ◌%◌, ◌<◌, ◌≤◌, length, get_or};
ghost use Rattle.laws.specs.Numbers.{high_byte};
ghost use Rattle.sector_rules.specs.Geometry.{sector_bytes, image_bytes};
ghost use Rattle.file_rules.specs.Sizes.{block_bytes};
ghost use Rattle.file_rules.specs.Disk.{disk_of, image_of};
ghost use Rattle.files.specs.Laws.Writing.Stored.{patched};

use crate::blocks::{run_length, run_place};

// Writes src from offset o of block b on, which lies in one sector; nothing where there is no such block.
pub fn put_run(image: &mut [u8], b: usize, o: usize, src: &[u8])
    requires { (length image.old ≡ image_bytes) × (o < block_bytes) × (o % sector_bytes + length src.now ≤ sector_bytes) }
    ensures { image.new ≡ image_of (patched (disk_of image.old) b o (length src.now) (λ (i : ℕ). get_or src.now i 0)) }
{
    fields::copy_into(image, run_place(b, o), src);
}

// The n bytes from offset o of block b on, which lie in one sector, become 0.
fn zero_run(image: &mut [u8], b: usize, o: usize, n: usize)
    requires { (length image.old ≡ image_bytes) × (o < block_bytes) × (o % sector_bytes + n ≤ sector_bytes) }
    ensures { image.new ≡ image_of (patched (disk_of image.old) b o n (λ (i : ℕ). 0)) }
{
    fields::fill(image, run_place(b, o), n, 0);
}

// The bytes of src are written from offset o of block b on, sector by sector: the first run and the last may be shorter
// than a sector, so that no iterator over parts of one length gives them.
pub fn put_bytes(image: &mut [u8], b: usize, o: usize, src: &[u8])
    requires { (length image.old ≡ image_bytes) × (o + length src.now ≤ block_bytes) }
    ensures { image.new ≡ image_of (patched (disk_of image.old) b o (length src.now) (λ (i : ℕ). get_or src.now i 0)) }
{
    let mut i = 0;
    while i < src.len() {
        let end = i + run_length(o + i, src.len() - i);
        put_run(image, b, o + i, &src[i..end]);
        i = end;
    }
}

// The n bytes from offset o of block b on become 0, sector by sector, as in `put_bytes`.
pub fn zero_bytes(image: &mut [u8], b: usize, o: usize, n: usize)
    requires { (length image.old ≡ image_bytes) × (o + n ≤ block_bytes) }
    ensures { image.new ≡ image_of (patched (disk_of image.old) b o n (λ (i : ℕ). 0)) }
{
    let mut i = 0;
    while i < n {
        let run = run_length(o + i, n - i);
        zero_run(image, b, o + i, run);
        i += run;
    }
}

// A number in N bytes from offset o of block b on, highest first; what does not fit is left out.
pub fn put_word<const N: usize>(image: &mut [u8], b: usize, o: usize, v: usize)
    requires { (length image.old ≡ image_bytes) × (o + N ≤ block_bytes) × (N ≤ 8) }
    ensures { image.new ≡ image_of (patched (disk_of image.old) b o N (high_byte N v)) }
{
    let bytes = v.to_be_bytes();
    put_bytes(image, b, o, &bytes[bytes.len() - N..]);
}
