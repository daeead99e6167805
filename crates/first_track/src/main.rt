// The example program: judges track 0 on standard input (§8.14), and prints a refusal or three counts.
#![tactic(auto)]

use sector_rules::Reply;
use sectors::Geometry;

const TRACK_BYTES: usize = Geometry::TRACK_SECTORS * Geometry::SECTOR_BYTES;

// A word, a number and a line's end.
fn line(name: &[u8], n: usize) {
    io::write_all(1, name);
    io::print_decimal(1, n as u64);
    io::write_all(1, b"\n");
}

fn main() {
    // One byte more than a track, so that a longer input is seen to be longer.
    let mut track = [0u8; TRACK_BYTES + 1];
    let n = io::read_full(0, &mut track);
    match files::first_track(&track[..n]) {
        Ok(counts) => {
            line(b"free ", counts.free);
            line(b"good ", counts.good);
            line(b"held ", counts.held);
        }
        Err(refusal) => line(b"refused ", Reply::from(refusal).number),
    }
}
