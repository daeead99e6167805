// The items of a written side.
ghost use Rattle.std.specs.Prelude.{◌≡◌, List, ◌∷◌, ℕ, ◌+◌, ◌-◌, ◌*◌, ◌<◌, ◌≤◌, length, get_or};
ghost use Rattle.cells.specs.Written.{bit_before};
ghost use Rattle.laws.specs.Lists.{window};
ghost use Rattle.laws.specs.Changes.{overlay};
ghost use Rattle.sector_rules.specs.Geometry.{tracks, sides, sectors, sector_bytes};
ghost use Rattle.sector_rules.specs.Search.{data_mark};
ghost use Rattle.sector_rules.specs.Packed.{header_items, field_items, field_start, lead_items, with_crc, header_row, sector_item, sector_data, image_side, side_items};
ghost use Rattle.sectors.specs.Laws.Packing.Runs.{items_byte};

use crate::Geometry;
use crate::search::{DATA_MARK, HEADER_MARK, SIZE_CODE};
use crate::sector_place::SectorPlace;
use cells::Item;

// Items of a side (§5.2).
pub const SIDE_ITEMS: usize = 6250;

// The byte of all gaps (§5.1 §5.2).
const GAP: u8 = 0x4E;

// The byte of a sync mark, as the CRC takes it (§3.9).
const SYNC_BYTE: u8 = 0xA1;

// Where the parts of a side's lead end: gap, zeros, index marks, their byte, and the gap before the first sector (§5.2).
const INDEX_GAP: usize = 80;

const INDEX_ZEROS: usize = INDEX_GAP + 12;

const INDEX_MARKS: usize = INDEX_ZEROS + 3;

const INDEX_END: usize = INDEX_MARKS + 1;

const LEAD: usize = INDEX_END + 50;

// Where the parts of a sector end, before its data field (§5.1): zeros, sync marks, header with CRC, gap, zeros, sync
// marks.
const ZEROS: usize = 12;

const HEADER_START: usize = ZEROS + 3;

const HEADER_END: usize = HEADER_START + 7;

const GAP_END: usize = HEADER_END + 22;

const FIELD_ZEROS: usize = GAP_END + 12;

const FIELD_START: usize = FIELD_ZEROS + 3;

// Where the CRC's high byte stands, counted from the mark.
const HIGH_CRC: usize = 1 + Geometry::SECTOR_BYTES;

// Where the data field ends: mark, data and CRC; then comes the gap to the next sector.
const FIELD_END: usize = FIELD_START + 1 + Geometry::SECTOR_BYTES + 2;

// Items of a sector (§5.1).
const SECTOR_ITEMS: usize = FIELD_END + 84;

// Where the last sector of a side ends (§5.2).
const SECTORS_END: usize = LEAD + Geometry::SECTORS * SECTOR_ITEMS;

// A side of a block image, as it is written (§5.2).
#[derive(Clone, Copy)]
pub struct WrittenSide<'a> {
    pub image: &'a [u8; Geometry::IMAGE_BYTES],
    pub track: usize,
    pub head: usize,
    pub ghost track_known: { track < tracks },
    pub ghost head_known: { head < sides },
}

// Byte k of a data field from its mark on, with its CRC; its 512 bytes stand in the image from `at` on (§5.1 §3.9).
pub fn field_byte(image: &[u8], at: usize, k: usize) -> u8
    requires { (at + sector_bytes ≤ length image.now) × (k < field_items) }
    ensures { result ≡ get_or (with_crc (data_mark ∷ window image.now at sector_bytes)) k 0 }
{
    if k == 0 {
        return DATA_MARK;
    }
    if k <= Geometry::SECTOR_BYTES {
        return image[at + (k - 1)];
    }
    let end = at + Geometry::SECTOR_BYTES;
    let lead = [SYNC_BYTE, SYNC_BYTE, SYNC_BYTE, DATA_MARK];
    let crc = cells::crc_row(cells::crc_row(cells::START, &lead), &image[at..end]);
    crc.to_be_bytes()[k - HIGH_CRC]
}

impl SectorPlace {
    // Byte k of its header from the mark on, with its CRC (§5.1 §3.9).
    fn header_byte(self, k: usize) -> u8
        requires { k < header_items }
        ensures { result ≡ get_or (with_crc (header_row self.track self.head self.sector)) k 0 }
    {
        // By `as`: the ghost fields bound all three below 256.
        let row = [
            SYNC_BYTE,
            SYNC_BYTE,
            SYNC_BYTE,
            HEADER_MARK,
            self.track as u8,
            self.head as u8,
            self.sector as u8,
            SIZE_CODE,
        ];
        if k < 5 {
            return row[3 + k];
        }
        cells::crc_row(cells::START, &row).to_be_bytes()[k - 5]
    }

    // Its item o, before its data field (§5.1).
    fn header_item(self, o: usize) -> Item
        requires { o < field_start }
        ensures { (d : List ℕ) → result ≡ sector_item self.track self.head self.sector d o }
    {
        match o {
            ..ZEROS => Item::Plain(0),
            ZEROS..HEADER_START => Item::Sync,
            HEADER_START..HEADER_END => Item::Plain(self.header_byte(o - HEADER_START)),
            HEADER_END..GAP_END => Item::Plain(GAP),
            GAP_END..FIELD_ZEROS => Item::Plain(0),
            _ => Item::Sync,
        }
    }
}

// Item q of a side, before its first sector (§5.2).
fn lead_item(q: usize) -> Item
    requires { q < lead_items }
    ensures { (image : List ℕ) (t s : ℕ) → result ≡ image_side image t s q }
{
    match q {
        ..INDEX_GAP => Item::Plain(GAP),
        INDEX_GAP..INDEX_ZEROS => Item::Plain(0),
        INDEX_ZEROS..INDEX_MARKS => Item::Index,
        INDEX_MARKS..INDEX_END => Item::Plain(0xFC),
        _ => Item::Plain(GAP),
    }
}

impl<'a> WrittenSide<'a> {
    // Item o of sector R (§5.1).
    fn sector_item(self, r: usize, o: usize) -> Item
        requires { (1 ≤ r) × (r ≤ sectors) }
        ensures { result ≡ sector_item self.entry.track self.entry.head r (sector_data self.entry.image.now self.entry.track self.entry.head r) o }
    {
        let at = SectorPlace {
            track: self.track,
            head: self.head,
            sector: r,
        };
        let image = self.image;
        match o {
            ..FIELD_START => at.header_item(o),
            FIELD_START..FIELD_END => Item::Plain(field_byte(
                image,
                at.image_start(),
                o - FIELD_START,
            )),
            _ => Item::Plain(GAP),
        }
    }

    // Item q: its beginning, its sectors, and 4E to the end (§5.2).
    fn side_item(self, q: usize) -> Item
        ensures { result ≡ image_side self.entry.image.now self.entry.track self.entry.head q }
    {
        match q {
            ..LEAD => lead_item(q),
            LEAD..SECTORS_END => {
                let o = q - LEAD;
                self.sector_item(o / SECTOR_ITEMS + 1, o % SECTOR_ITEMS)
            }
            _ => Item::Plain(GAP),
        }
    }

    // The bit before item q; before the first it is 0 (§3.4). As `cells::row_bit_before`: one function of both would take the
    // rule of the items as a closure, and its contract would be longer than the two tests.
    fn bit_before(self, q: usize) -> u8
        ensures { result ≡ bit_before (image_side self.entry.image.now self.entry.track self.entry.head) q }
    {
        if q == 0 {
            return 0;
        }
        cells::last_bit(self.side_item(q - 1))
    }

    // Writes n items from item `first` on (`written_cell`), two bytes each (§3.1), into the HFE image from `at` on. The
    // bit before an item is carried along (§3.4). A `for` over numbers: in a loop over
    // `chunks_exact_mut` an invariant has no name for what the image holds so far.
    pub fn write_items(self, first: usize, n: usize, hfe: &mut [u8], at: usize)
        requires { (first + n ≤ side_items) × (at + 2 * n ≤ length hfe.old) }
        ensures { hfe.new ≡ overlay hfe.old at (2 * n) (items_byte (image_side self.entry.image.now self.entry.track self.entry.head) first) }
    {
        let mut before = self.bit_before(first);
        for i in 0..n {
            let item = self.side_item(first + i);
            let [first_byte, second_byte] = cells::item_bytes(before, item);
            hfe[at + 2 * i] = first_byte;
            hfe[at + 2 * i + 1] = second_byte;
            before = cells::last_bit(item);
        }
    }
}
