// One segment of an archive: its records judged, and its page rebuilt from them.
ghost use Rattle.std.specs.Prelude.{◌≡◌, true, ◌+◌, ◌*◌, ◌≤◌, ◌<◌, length, drop};
ghost use Rattle.archive_read.specs.Judged.{Judged};
ghost use Rattle.reports.specs.Archive.{in_segment, valid_segment, front_segment, records_from, replay_records};
ghost use Rattle.reports.specs.Archive.{last_number_in, segment_fits, segment_image};

use codec::field;
use item::{image, record};
use sums::check::Check;
use sums::checksum::WordSum;
use volume::place;

// A record may stand in the page's segment behind the number `last`; 0 is none.
fn follows(r: &[u8], page: u32, last: u32) -> bool
    requires { 60 ≤ length r.now }
    ensures { result ≡ in_segment page last r.now }
{
    let e = record::read(r);
    let number = e.lsn;
    let prev = e.prev;
    let owner = u32::from(e.page);
    let linked = (prev == last) & ((e.kind == 1) | (1 <= prev));
    WordSum::holds(r, 60) & (record::layout(r) & ((owner == page) & (linked & (last < number))))
}

// The page's segment at a place is valid: each record may stand behind the one before.
pub fn valid(archive: &[u8], at: usize, page: u32) -> bool
    requires { (at ≤ length archive.now) × (segment_fits (drop at archive.now) ≡ true) }
    ensures { result ≡ valid_segment page 0 (front_segment (drop at archive.now)) }
{
    let count = field::u32_at(archive, at);
    let mut last: u32 = 0;
    for i in 0..count {
        let r = place::part(archive, at + 4 + 64 * (i as usize), 64);
        if !follows(r, page, last) {
            return false;
        }
        last = field::u32_at(r, 0);
    }
    true
}

// Makes the changes of the next `count` records on a body, and gives the last one's number.
fn replay(archive: &[u8], at: usize, count: u32, body: &mut [u8]) -> u32
    requires count_in_bounds { at + 64 * count ≤ length archive.now }
    requires judged { Judged (records_from count (drop at archive.now)) }
    requires body_len { length body.old ≡ 244 }
    ensures last { result ≡ last_number_in 0 (records_from count (drop at archive.now)) }
    ensures body { body.new
        ≡ replay_records (records_from count (drop at archive.now)) body.old }
{
    let mut last: u32 = 0;
    for i in 0..count {
        let r = place::part(archive, at + 64 * (i as usize), 64);
        record::replay(r, body);
        last = field::u32_at(r, 0);
    }
    last
}

// Rebuilds the page from its segment at a place, on the image itself. A blank page's image is zeros.
pub fn rebuild(archive: &[u8], at: usize, page: u32, image: &mut [u8])
    requires at_in_bounds { (at ≤ length archive.now) × (segment_fits (drop at archive.now) ≡ true) }
    requires archive_value { valid_segment page 0 (front_segment (drop at archive.now)) ≡ true }
    requires page_bound { (page < 65536) × (length image.old ≡ 256) }
    ensures { image.new ≡ segment_image page (front_segment (drop at archive.now)) }
{
    image.fill(0);
    let count = field::u32_at(archive, at);
    if count == 0 {
        return;
    }
    let body = &mut image[8..252];
    let last = replay(archive, at + 4, count, body);
    image::build(image, page, last);
}
