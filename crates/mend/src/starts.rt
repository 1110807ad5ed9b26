// A page's two starts: its noted backup, and its own image or a format in the log.
ghost use Rattle.std.specs.Prelude.{◌≡◌, not};
ghost use Rattle.model.specs.Repair.{state_view, own_start, class_in, walk_from, is_below};
ghost use Rattle.repair.specs.Walked.{log_of};
ghost use Rattle.mend_policy.specs.Mend.{stands, may_write};
ghost use Rattle.mend.specs.Parts.{start_at};

use crate::Target;
use item::image;
use log_scan::Measured;
use model::answer::{Class, Stop};
use model::geometry::Geometry;
use model::state::Entry;
use repair::walk::Course;
use repair::{class, walk};
use volume::Volume;

// The number at which a walk may stop at the own image, 0 where it is none, and the image's class.
#[derive(Clone, Copy)]
pub struct OwnImage {
    pub number: u32,
    pub class: Class,
}

// The own image, judged once.
pub fn judge(t: &Target<'_>) -> OwnImage
    ensures number { result.number ≡ own_start t.now.volume.geometry t.now.page
        (state_view t.now.volume.geometry t.now.volume.bytes.now t.now.state t.now.page) }
    ensures class { result.class ≡ class_in t.now.volume.geometry t.now.page
        (state_view t.now.volume.geometry t.now.volume.bytes.now t.now.state t.now.page) }
{
    let e = t.entry;
    let x = t.volume.page(t.page);
    let valid = walk::judge(t.volume.geometry, t.page, x);
    let n = image::lsn(x);
    let number = walk::own_number(valid, n);
    let class = class::class(valid, n, e.durable, e.written);
    OwnImage { number, class }
}

// No backup is noted, or its slot's image is valid as the page's with the noted number.
pub fn stands(t: &Target<'_>) -> bool
    ensures { result ≡ stands t.now.volume.geometry t.now.volume.bytes.now t.now.entry t.now.page }
{
    let e = t.entry;
    let slot = u32::from(e.slot);
    if slot == 0 {
        return true;
    }
    walk::numbered(t.volume.geometry, t.page, e.backup, t.volume.slot(slot))
}

// Where the run starts once a quarter of the log more is stored, with d durable records.
pub fn after(v: &Volume<'_>, d: u32) -> u64
    ensures { result ≡ start_at v.now.geometry v.now.bytes.now d }
{
    let records = u64::from(v.geometry.records);
    let margin = records / 4;
    let later = u64::from(d) + margin + 1;
    log_scan::first(&Measured::of(v), d).max(later.saturating_sub(records))
}

// The walk that takes no backup, on a run that starts there, does not go below it.
pub fn reaches(t: &Target<'_>, own: u32, start: u64) -> bool
    ensures { result ≡ not (is_below (walk_from t.now.entry.durable
        (log_of t.now.volume.geometry t.now.volume.bytes.now) start t.now.page own 0 t.now.entry.durable).stop) }
{
    let c = Course {
        first: start,
        page: t.page,
        own,
        backup: 0,
        sure: false,
    };
    walk::trace(&t.volume, c, t.entry.durable).stop != Stop::Below
}

// The page has a written note, or the volume has room for two notes of every page and the records between.
pub fn may_write(g: Geometry, e: Entry) -> bool
    ensures { result ≡ may_write g e }
{
    let pages = u64::from(g.pages);
    let twofold = (2 * pages + 2 <= u64::from(g.notes)) & (4 * pages <= u64::from(g.records));
    (e.written != 0) | twofold
}
