// The C interface, the calls of docs/RULES.md, section 8: each function calls one of the layers and makes the
// reply of what that answers. A slice is a pointer and a length.
#![tactic(auto)]

ghost use Rattle.std.specs.Prelude.{[], ◌≡◌, length};
ghost use Rattle.sector_rules.specs.Geometry.{place_reply};
ghost use Rattle.sector_rules.specs.Packed.{pack_reply, pack_hfe};
ghost use Rattle.sector_rules.specs.Rewritten.{rewrite_reply, rewrite_hfe};
ghost use Rattle.sector_rules.specs.Unpacked.{unpack_reply, unpack_image};
ghost use Rattle.file_rules.specs.Arguments.{arguments_of};
ghost use Rattle.file_rules.specs.Batch as Batch;
ghost use Rattle.file_rules.specs.Calls as Calls;
ghost use Rattle.file_rules.specs.FirstTrack.{first_track_result};

use file_rules::FirstTrack;
use sector_rules::Reply;

// The call unpack, of both HFE versions (§8.1).
#[unsafe(no_mangle)]
pub extern "C" fn dheg_unpack(hfe: &[u8], image: &mut [u8]) -> Reply
    ensures { (result ≡ unpack_reply hfe.now (length image.old)) × (image.new ≡ unpack_image hfe.now image.old) }
{
    sectors::reply_of(sectors::unpack(hfe, image))
}

// The call pack (§8.2).
#[unsafe(no_mangle)]
pub extern "C" fn dheg_pack(image: &[u8], hfe: &mut [u8]) -> Reply
    ensures { (result ≡ pack_reply (length image.now) (length hfe.old)) × (hfe.new ≡ pack_hfe image.now hfe.old) }
{
    sectors::reply_of(sectors::pack(image, hfe))
}

// The call rewrite, of HFE version 1 alone (§8.15).
#[unsafe(no_mangle)]
pub extern "C" fn dheg_rewrite(
    hfe: &mut [u8],
    track: usize,
    side: usize,
    r: usize,
    content: &[u8],
) -> Reply
    ensures { (result ≡ rewrite_reply hfe.old track side r content.now) × (hfe.new ≡ rewrite_hfe hfe.old track side r content.now) }
{
    sectors::reply_of(sectors::rewrite(hfe, track, side, r, content))
}

// The call place (§8.3).
#[unsafe(no_mangle)]
pub extern "C" fn dheg_place(block: usize, sector: usize) -> Reply
    ensures { result ≡ place_reply block sector }
{
    sectors::reply_with_place(sectors::place(block, sector))
}

// The call format without bad blocks (§8.4).
#[unsafe(no_mangle)]
pub extern "C" fn dheg_format(image: &mut [u8], name: &[u8], number: u16) -> Reply
    ensures { (result ≡ (Calls.format image.old (arguments_of name.now number [])).answer) × (image.new ≡ (Calls.format image.old (arguments_of name.now number [])).image) }
{
    sectors::reply_of(files::format(image, name, number))
}

// The call format with a list of bad blocks (§8.4).
#[unsafe(no_mangle)]
pub extern "C" fn dheg_format_bad(image: &mut [u8], name: &[u8], number: u16, bad: &[u16]) -> Reply
    ensures { (result ≡ (Calls.format image.old (arguments_of name.now number bad.now)).answer) × (image.new ≡ (Calls.format image.old (arguments_of name.now number bad.now)).image) }
{
    sectors::reply_of(files::format_bad(image, name, number, bad))
}

// The call check (§8.5).
#[unsafe(no_mangle)]
pub extern "C" fn dheg_check(image: &[u8]) -> Reply
    ensures { result ≡ Calls.check image.now }
{
    sectors::reply_of(files::check(image))
}

// The call list (§8.6).
#[unsafe(no_mangle)]
pub extern "C" fn dheg_list(image: &[u8], out: &mut [u8]) -> Reply
    ensures { (result ≡ (Calls.list image.now out.old).answer) × (out.new ≡ (Calls.list image.now out.old).buffer) }
{
    sectors::reply_with_place(files::list(image, out))
}

// The call read (§8.7).
#[unsafe(no_mangle)]
pub extern "C" fn dheg_read(image: &[u8], name: &[u8], out: &mut [u8]) -> Reply
    ensures { (result ≡ (Calls.read image.now name.now out.old).answer) × (out.new ≡ (Calls.read image.now name.now out.old).buffer) }
{
    sectors::reply_with_place(files::read(image, name, out))
}

// The call add (§8.9).
#[unsafe(no_mangle)]
pub extern "C" fn dheg_add(image: &mut [u8], name: &[u8], date: u32, data: &[u8]) -> Reply
    ensures { (result ≡ (Calls.add image.old name.now date «data».now).answer) × (image.new ≡ (Calls.add image.old name.now date «data».now).image) }
{
    sectors::reply_of(files::add(image, name, date, data))
}

// The call remove (§8.13).
#[unsafe(no_mangle)]
pub extern "C" fn dheg_remove(image: &mut [u8], name: &[u8]) -> Reply
    ensures { (result ≡ (Calls.remove image.old name.now).answer) × (image.new ≡ (Calls.remove image.old name.now).image) }
{
    sectors::reply_of(files::remove(image, name))
}

// The call batch (§8.19), with its list of items (§8.18).
#[unsafe(no_mangle)]
pub extern "C" fn dheg_batch(image: &mut [u8], list: &[u8]) -> Reply
    ensures { (result ≡ (Batch.batch image.old list.now).answer) × (image.new ≡ (Batch.batch image.old list.now).image) }
{
    sectors::reply_of(files::batch(image, list))
}

// The call first track (§8.14).
#[unsafe(no_mangle)]
pub extern "C" fn dheg_first_track(track: &[u8]) -> FirstTrack
    ensures { result ≡ first_track_result track.now }
{
    files::track_reply(files::first_track(track))
}
