// The chain walk: from the newest durable number down, to the page's own image, the noted backup or a format; or below
// the run.
ghost use Rattle.std.specs.Prelude.{◌≡◌, true, false, cond, ◌&&◌, ◌≤◌, eqb};
ghost use Rattle.model.specs.Item.{image_lsn, valid_image};
ghost use Rattle.model.specs.Repair.{backup_start, chain_record, walk_from, is_broken, is_below};
ghost use Rattle.repair.specs.Walked.{Whole, Sound, log_of, counted, view_for, walked_for, step_of};

use crate::{Target, class};
use codec::field;
use item::{image, record};
use model::answer::{Class, Stop};
use model::geometry::Geometry;
use model::item::LogRecord;
use sums::check::Check;
use sums::checksum::WordSum;
use volume::Volume;

// What a walk goes by: the run start, the page, the numbers at which it may stop at the own image and at the backup (0
// is none), and whether it is sure that the walk is not broken, so that no record is tested.
#[derive(Clone, Copy)]
pub struct Course {
    pub first: u64,
    pub page: u32,
    pub own: u32,
    pub backup: u32,
    pub sure: bool,
}

// Where a walk stopped, and how many records are to be replayed: what mending asks, which judges no image again.
#[derive(Clone, Copy)]
pub struct Traced {
    pub stop: Stop,
    pub count: u32,
}

// What a walk found, and the class of the own image, which it had to judge.
#[derive(Clone, Copy)]
pub struct Walked {
    pub stop: Stop,
    pub count: u32,
    pub class: Class,
}

// The image is valid as the page's. Its page number is looked at first, since a sum is slow.
pub fn judge(g: Geometry, page: u32, x: &[u8]) -> bool
    ensures { result ≡ valid_image g page x.now }
{
    if field::u16_at(x, 0) as u32 != page {
        return false;
    }
    image::valid(g, page, x)
}

// The image is valid as the page's and has number n.
pub fn numbered(g: Geometry, page: u32, n: u32, x: &[u8]) -> bool
    ensures { result ≡ (valid_image g page x.now && eqb (image_lsn x.now) n) }
{
    if image::lsn(x) != n {
        return false;
    }
    judge(g, page, x)
}

// The number at which the walk may stop at an own image of number n; 0 is none, as `walk_from` takes it.
pub fn own_number(valid: bool, n: u32) -> u32
    ensures { result ≡ cond valid n 0 }
{
    if valid { n } else { 0 }
}

// The number at which the walk may stop at the noted backup; 0 is none, and slot 0 is no backup.
fn backup_number(t: &Target<'_>) -> u32
    ensures { result ≡ backup_start t.now.volume.geometry t.now.page (view_for t.now) }
{
    let e = t.entry;
    if e.slot == 0 {
        return 0;
    }
    let x = t.volume.slot(u32::from(e.slot));
    let noted = numbered(t.volume.geometry, t.page, e.backup, x);
    if noted { e.backup } else { 0 }
}

// The walk for the page may read this record at number n.
fn readable(page: u32, n: u32, r: &[u8; 64]) -> bool
    ensures { result ≡ chain_record page n r.now }
{
    let e = record::read(r);
    let owner = u32::from(e.page);
    let linked = (e.prev < n) & ((e.kind == 1) | (1 <= e.prev));
    WordSum::holds(r, 60) & ((e.lsn == n) & ((owner == page) & (record::layout(r) & linked)))
}

// The walk's step at number n: own image, else the backup, else the record, where the run holds it; where the walk is
// sure, the record is not tested.
fn look(v: &Volume<'_>, c: Course, n: u32) -> Result<LogRecord, Stop>
    requires { c.sure ≡ true → Sound (log_of v.now.geometry v.now.bytes.now) c.first c.page c.own c.backup n }
    ensures { result ≡ step_of (log_of v.now.geometry v.now.bytes.now) c.first c.page c.own c.backup n }
{
    if n == 0 {
        return Err(Stop::Broken);
    }
    if c.own == n {
        return Err(Stop::Own);
    }
    if c.backup == n {
        return Err(Stop::Backup);
    }
    if u64::from(n) < c.first {
        return Err(Stop::Below);
    }
    let r = v.record(n);
    if c.sure || readable(c.page, n, r) {
        return Ok(record::read(r));
    }
    Err(Stop::Broken)
}

// The chain walk from a number down.
// Ruled out: a start taken at a number that is not its own (tried); a format left out of the count (tried).
pub fn trace(v: &Volume<'_>, c: Course, from: u32) -> Traced
    requires { c.sure ≡ true → 1 ≤ from
        → is_broken (walk_from from (log_of v.now.geometry v.now.bytes.now) c.first c.page c.own c.backup from).stop
        ≡ false }
    ensures { result
        ≡ counted (walk_from from (log_of v.now.geometry v.now.bytes.now) c.first c.page c.own c.backup from) }
{
    // A copy: fields behind the reference would be read anew each turn.
    let v = *v;
    let mut n = from;
    let mut count: u32 = 0;
    let stop = loop {
        match look(&v, c, n) {
            Err(stop) => break stop,
            Ok(e) => {
                count += 1;
                if e.kind == 1 {
                    break Stop::Format;
                }
                n = e.prev;
            }
        }
    };
    Traced { stop, count }
}

// The chain walk, from the newest durable number down; the own image is judged once, for the walk and for its class.
fn descend(t: &Target<'_>, sure: bool) -> Walked
    requires { sure ≡ true → Whole t.now.volume.geometry t.now.page (view_for t.now) }
    ensures { result ≡ walked_for t.now }
{
    let e = t.entry;
    let x = t.volume.page(t.page);
    let valid = judge(t.volume.geometry, t.page, x);
    let n = image::lsn(x);
    let own = own_number(valid, n);
    let backup = backup_number(t);
    let c = Course {
        first: t.first,
        page: t.page,
        own,
        backup,
        sure,
    };
    let found = trace(&t.volume, c, e.durable);
    let class = class::class(valid, n, e.durable, e.written);
    Walked {
        stop: found.stop,
        count: found.count,
        class,
    }
}

// The chain walk on any volume: each record is tested. Ruled out: an older own image, or the backup, taken at a number
// that is not its own (both tried); a format left out of the count.
pub fn walk(t: &Target<'_>) -> Walked
    ensures { result ≡ walked_for t.now }
{
    descend(t, false)
}

// The chain walk after a clean scan, which tested each record: no sum is taken again. A name of its own, so that a call
// says whether records are tested; the walk is one, `descend`.
// Ruled out: what `walk` rules out; the records of a volume that was not scanned trusted (tried).
pub fn follow(t: &Target<'_>) -> Walked
    requires { Whole t.now.volume.geometry t.now.page (view_for t.now) }
    ensures { result ≡ walked_for t.now }
{
    descend(t, true)
}

// The walk went below the run.
// Ruled out: a walk that meets an image at a lower number taken as one (tried).
pub fn below(stop: Stop) -> bool
    ensures { result ≡ is_below stop }
{
    stop == Stop::Below
}
