// The rules of layer 2: the types that its definitions speak of.
#![tactic(auto)]

// A reply: its number, of which 0 is done, and three places; one that is not named is 0 (§7.17).
#[repr(C)]
#[derive(Clone, Copy)]
pub struct Reply {
    pub number: usize,
    pub first: usize,
    pub second: usize,
    pub third: usize,
}

// A block's number, 0 to 479 (§1.1).
#[derive(Clone, Copy, Debug, PartialEq, Eq)]
pub struct BlockNumber(pub usize);

// A sector's number in the order of the blocks, 0 to 1439: the running sector (§1.3).
#[derive(Clone, Copy)]
pub struct RunningSector(pub usize);

// A sector's number in the block image, 0 to 1439 (§1.2).
#[derive(Clone, Copy)]
pub struct ImageSector(pub usize);

// C, H, R and N of a header, which name a sector: track, side, sector and size (§4.1).
#[derive(Clone, Copy)]
pub struct Id {
    pub c: u8,
    pub h: u8,
    pub r: u8,
    pub n: u8,
}

// The answer of the search for a sector: at no cell place, at one, or at two or more (§4.3).
#[derive(Clone, Copy)]
pub enum Found {
    Nothing,
    One(usize),
    Several,
}

// Why a sector, judged alone, gives no bytes: no header, two or more, no data field, or a CRC that does not hold (§4.6).
#[derive(Clone, Copy, Debug, PartialEq, Eq)]
pub enum SectorFault {
    Missing,
    Repeated,
    NoField,
    Damaged,
}
