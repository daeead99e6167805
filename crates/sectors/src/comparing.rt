// Whether a rewritten image reads as it must: the new bytes are put into the image for each look at it and taken out again,
// so that between two looks the image is the one before.
ghost use Rattle.std.specs.Prelude.{not, ◌≢◌, ◌≡◌, ℕ, ◌+◌, ◌*◌, ◌<◌};
ghost use Rattle.laws.specs.Below.{all};
ghost use Rattle.laws.specs.Lists.{same};
ghost use Rattle.laws.specs.Options.{is_some};
ghost use Rattle.sector_rules.specs.Geometry.{tracks, sides, sectors, all_sectors};
ghost use Rattle.sector_rules.specs.Hfe.{side_stream};
ghost use Rattle.sector_rules.specs.Unpacked.{track_of, side_of, sector_at};
ghost use Rattle.sector_rules.specs.Rewritten.{hfe_refusal, result_right};
ghost use Rattle.sectors.specs.Laws.Unpacking.Sides.{PlainImage, ImageSideGives};
ghost use Rattle.sectors.specs.Laws.Rewriting.Compared.{bytes_at};
ghost use Rattle.sectors.specs.Laws.Rewriting.Exchanged.{Exchangeable, Exchanges, exchanged, tried};

use crate::hfe::{table_fault, version1_fault};
use crate::sides::{image_side, stored_cells, write_sector};
use crate::{Exchange, Geometry, Trial};
use cells::Cells;
use sector_rules::SectorFault;

// The cells of the side on which image sector q stands (§1.2).
fn sector_cells(hfe: &[u8], q: usize) -> Cells<'_>
    requires { PlainImage hfe.now × (q < all_sectors) }
    ensures { result ≡ side_stream hfe.now (track_of q) (side_of q) }
{
    stored_cells(
        hfe,
        q / Geometry::TRACK_SECTORS,
        q % Geometry::TRACK_SECTORS / Geometry::SECTORS,
    )
}

// The 512 bytes of image sector q whose cells begin at place p (§4.6).
fn read_sector(hfe: &[u8], q: usize, p: usize) -> [u8; Geometry::SECTOR_BYTES]
    requires { PlainImage hfe.now × (q < all_sectors) }
    ensures { result ≡ bytes_at hfe.now q p }
{
    let cells = sector_cells(hfe, q);
    let mut bytes = [0u8; Geometry::SECTOR_BYTES];
    write_sector(&cells, p, &mut bytes, 0);
    bytes
}

// Whether the 512 bytes of image sector q whose cells begin at place p are these (§4.6).
fn sector_reads(hfe: &[u8], q: usize, p: usize, bytes: &[u8; Geometry::SECTOR_BYTES]) -> bool
    requires { PlainImage hfe.now × (q < all_sectors) }
    ensures { result ≡ same (bytes_at hfe.now q p) bytes.now }
{
    let cells = sector_cells(hfe, q);
    (0..Geometry::SECTOR_BYTES).all(|k| cells.data_byte(p, 16 * k) == bytes[k])
}

// Whether header and table of an image are right (§8.17).
fn header_and_table_right(hfe: &[u8]) -> bool
    ensures { result ≡ not (is_some (hfe_refusal hfe.now)) }
{
    version1_fault(hfe).is_none() && table_fault(hfe).is_none()
}

impl Exchange {
    // Whether the 512 bytes of image sector q whose cells begin at place p are these, in the image with the new bytes.
    fn reads_after(
        &self,
        hfe: &mut [u8],
        q: usize,
        p: usize,
        bytes: &[u8; Geometry::SECTOR_BYTES],
    ) -> bool
        requires { Exchanges hfe.old self.now × (q < all_sectors) }
        ensures { (result ≡ same (bytes_at (exchanged hfe.old self.now) q p) bytes.now) × (hfe.new ≡ hfe.old) }
    {
        self.with_new(
            hfe,
            |image: &[u8]|
                requires { PlainImage image.now × (q < all_sectors) }
                ensures { result ≡ same (bytes_at image.now q p) bytes.entry.now }
            { sector_reads(image, q, p, bytes) },
        )
    }
}

// Each function gives the image back as it was. That the exchange fits it is asked of each: as a ghost field of a struct
// that holds the image it did not close, since it is asked at each write and is false while the new bytes are in.
impl<'a> Trial<'a> {
    // Whether the image sector that got the data gives them in the image with the new bytes (§8.17).
    fn own_right(&self, hfe: &mut [u8], after: Result<usize, SectorFault>) -> bool
        requires { Exchanges hfe.old self.now.exchange × (self.now.sector < all_sectors) × (after ≡ sector_at (exchanged hfe.old self.now.exchange) self.now.sector) }
        ensures { (result ≡ tried hfe.old self.now self.now.sector) × (hfe.new ≡ hfe.old) }
    {
        match after {
            Ok(place) => self
                .exchange
                .reads_after(hfe, self.sector, place, self.content),
            Err(_) => false,
        }
    }

    // Whether image sector q, another one, gives its old fault or its old bytes in the image with the new bytes (§8.17).
    fn other_right(
        &self,
        hfe: &mut [u8],
        q: usize,
        before: Result<usize, SectorFault>,
        after: Result<usize, SectorFault>,
    ) -> bool
        requires { Exchanges hfe.old self.now.exchange × (q < all_sectors) × (q ≢ self.now.sector) × (before ≡ sector_at hfe.old q) × (after ≡ sector_at (exchanged hfe.old self.now.exchange) q) }
        ensures { (result ≡ tried hfe.old self.now q) × (hfe.new ≡ hfe.old) }
    {
        match (before, after) {
            (Ok(old), Ok(new)) => {
                let bytes = read_sector(hfe, q, old);
                self.exchange.reads_after(hfe, q, new, &bytes)
            }
            (Err(old), Err(new)) => old == new,
            (Ok(_), Err(_)) => false,
            (Err(_), Ok(_)) => false,
        }
    }

    // Whether image sector q is as it must be in the image with the new bytes (§8.17).
    fn sector_right(
        &self,
        hfe: &mut [u8],
        q: usize,
        before: Result<usize, SectorFault>,
        after: Result<usize, SectorFault>,
    ) -> bool
        requires { Exchanges hfe.old self.now.exchange × (q < all_sectors) × (before ≡ sector_at hfe.old q) × (after ≡ sector_at (exchanged hfe.old self.now.exchange) q) }
        ensures { (result ≡ tried hfe.old self.now q) × (hfe.new ≡ hfe.old) }
    {
        if q == self.sector {
            return self.own_right(hfe, after);
        }
        self.other_right(hfe, q, before, after)
    }

    // Whether the nine sectors of the n-th side are as they must be in the image with the new bytes (§8.17).
    fn side_reads_right(&self, hfe: &mut [u8], n: usize) -> bool
        requires { Exchanges hfe.old self.now.exchange × (n < tracks * sides) }
        ensures { (result ≡ all (λ (k : ℕ). tried hfe.old self.now (sectors * n + k)) sectors) × (hfe.new ≡ hfe.old) }
    {
        let before = image_side(hfe, n);
        let after = self.exchange.with_new(
            hfe,
            |image: &[u8]|
                requires { PlainImage image.now × (n < tracks * sides) }
                ensures { ImageSideGives result image.now n }
            { image_side(image, n) },
        );
        for (k, (old, new)) in before.iter().zip(after.iter()).enumerate() {
            if !self.sector_right(hfe, Geometry::SECTORS * n + k, old.sector, new.sector) {
                return false;
            }
        }
        true
    }

    // The same; a side that stays as it is need not be read, unless it is that of the sector that got the data.
    fn side_right(&self, hfe: &mut [u8], n: usize) -> bool
        requires { Exchanges hfe.old self.now.exchange × (n < tracks * sides) }
        ensures { (result ≡ all (λ (k : ℕ). tried hfe.old self.now (sectors * n + k)) sectors) × (hfe.new ≡ hfe.old) }
    {
        if n != self.sector / Geometry::SECTORS && self.exchange.bytes.untouched(hfe, n) {
            return true;
        }
        self.side_reads_right(hfe, n)
    }

    // Whether all sectors are as they must be in the image with the new bytes (§8.17), side after side.
    fn sides_right(&self, hfe: &mut [u8]) -> bool
        requires { Exchanges hfe.old self.now.exchange }
        ensures { (result ≡ all (tried hfe.old self.now) all_sectors) × (hfe.new ≡ hfe.old) }
    {
        // A `for`: of `all` with a closure that changes the image and changes it back the proof did not close
        // (all-requires-clause-callable).
        for n in 0..Geometry::TRACKS * Geometry::SIDES {
            if !self.side_right(hfe, n) {
                return false;
            }
        }
        true
    }

    // Whether the image with the new bytes reads as it must (§8.17).
    pub(crate) fn reads_right(&self, hfe: &mut [u8]) -> bool
        requires { Exchangeable hfe.old self.now.exchange }
        ensures { (result ≡ result_right hfe.old (exchanged hfe.old self.now.exchange) self.now.sector self.now.content.now) × (hfe.new ≡ hfe.old) }
    {
        self.exchange.with_new(hfe, header_and_table_right) && self.sides_right(hfe)
    }
}
