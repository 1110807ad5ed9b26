// A whole archive, segment by segment: judged, and every page rebuilt.
ghost use Rattle.std.specs.Prelude.{◌≡◌, true, ◌*◌, ◌≤◌, length};
ghost use Rattle.reports.specs.Archive.{valid_from, parted_from, area_from};

use crate::{cut, segment};

// The archive is one of so many pages: it is cut into as many segments, each is valid, and nothing is left.
pub fn valid(archive: &[u8], pages: u32) -> bool
    ensures { result ≡ valid_from pages 1 archive.now }
{
    let mut at: usize = 0;
    for i in 0..pages {
        if !cut::fits(archive, at) {
            return false;
        }
        if !segment::valid(archive, at, i + 1) {
            return false;
        }
        at = cut::past(archive, at);
    }
    at == archive.len()
}

// Rebuilds every page of a valid archive, each in its place in the area.
pub fn rebuild(archive: &[u8], pages: u32, area: &mut [u8])
    requires { (valid_from pages 1 archive.now ≡ true) × (pages ≤ 64) × (length area.old ≡ 256 * pages) }
    ensures { area.new ≡ area_from 1 (parted_from pages archive.now) }
{
    let mut at: usize = 0;
    for i in 0..pages {
        let from = 256 * (i as usize);
        let end = from + 256;
        segment::rebuild(archive, at, i + 1, &mut area[from..end]);
        at = cut::past(archive, at);
    }
}
