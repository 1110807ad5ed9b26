// One event on the model.
ghost use Rattle.std.specs.Prelude.{◌≡◌, ◌≤◌, ◌<◌};
ghost use Rattle.model.specs.Tables.{within};
ghost use Rattle.planning.specs.Rehearsal.{access_of, page_in, victim_written, replayed_by, evicted};
ghost use Rattle.planning.specs.Rehearsal.{brought_in, found_in, missing, touched, changed, step_on};
ghost use Rattle.planning_model.specs.Bounds.{Bounded};

use crate::{figures, frames};
use planning::rehearsal::{Access, Figures, FrameUse, Rehearsal, Settings, Victim};

// An event's byte: below 128 a read, else a change.
pub fn access(e: u8) -> Access
    ensures { result ≡ access_of e }
{
    if e < 128 {
        Access::Read(u32::from(e))
    } else {
        Access::Change(u32::from(e) - 128)
    }
}

// The page of an event.
fn page(a: Access) -> u32
    ensures { result ≡ page_in a }
{
    match a {
        Access::Read(p) | Access::Change(p) => p,
    }
}

// The event's page is 1 to 64.
pub fn fits(e: u8) -> bool
    ensures { result ≡ within 64 (page_in (access_of e)) }
{
    let p = page(access(e));
    (1 <= p) & (p <= 64)
}

// Dirty victims are written.
fn written(v: Victim) -> bool
    ensures { result ≡ victim_written v }
{
    matches!(v, Victim::Written)
}

// The figures once the page of row f makes way.
fn evict(t: Settings, m: Rehearsal, f: usize) -> [Figures; 64]
    requires { (f < 16) × Bounded 900000 m.pages }
    ensures { result ≡ evicted t m f }
{
    let x = m.frames[f];
    if !(written(t.victim) & x.dirty) {
        return m.pages;
    }
    let r = figures::page_row(m.pages, x.page);
    figures::set_row(m.pages, x.page, figures::with_image(r))
}

// What a load of a page with so many changes replays.
fn replayed(t: Settings, n: u32) -> u32
    requires { 1 ≤ t.every }
    ensures { result ≡ replayed_by t n }
{
    if written(t.victim) { 0 } else { n % t.every }
}

// The figures once the page is brought in.
fn bring_in(t: Settings, pages: [Figures; 64], page: u32) -> [Figures; 64]
    requires { (1 ≤ t.every) × Bounded 900300 pages }
    ensures { result ≡ brought_in t pages page }
{
    let r = figures::page_row(pages, page);
    if r.records == 0 {
        return pages;
    }
    let count = replayed(t, r.records);
    figures::set_row(pages, page, figures::with_load(r, count))
}

// Event i finds the page in row f.
fn find(i: u32, m: Rehearsal, page: u32, change: bool, f: usize) -> Rehearsal
    requires { f < 16 }
    ensures { result ≡ found_in i m page change f }
{
    let mut frames = m.frames;
    let dirty = change | frames[f].dirty;
    frames[f] = FrameUse {
        page,
        used: i,
        dirty,
    };
    Rehearsal { frames, ..m }
}

// Event i brings the page into row f.
fn bring(t: Settings, i: u32, m: Rehearsal, page: u32, change: bool, f: usize) -> Rehearsal
    requires { (f < 16) × (1 ≤ t.every) × Bounded 900000 m.pages }
    ensures { result ≡ missing t i m page change f }
{
    let pages = bring_in(t, evict(t, m, f), page);
    let dirty = change | !written(t.victim);
    let mut frames = m.frames;
    frames[f] = FrameUse {
        page,
        used: i,
        dirty,
    };
    Rehearsal { frames, pages }
}

// Event i finds the page in a frame or brings it into one, and uses that frame.
fn touch(t: Settings, i: u32, m: Rehearsal, page: u32, change: bool) -> Rehearsal
    requires { (t.frames ≤ 16) × (1 ≤ t.every) × Bounded 900000 m.pages }
    ensures { result ≡ touched t i m page change }
{
    let count = t.frames as usize;
    let frames = &m.frames[0..count];
    match frames::holding(frames, page) {
        Some(f) => find(i, m, page, change, f),
        None => bring(t, i, m, page, change, frames::least_used(frames)),
    }
}

// The page has one change more.
fn alter(t: Settings, m: Rehearsal, page: u32) -> Rehearsal
    requires { (1 ≤ t.every) × Bounded 900600 m.pages }
    ensures { result ≡ changed t m page }
{
    let r = figures::page_row(m.pages, page);
    let pages = figures::set_row(m.pages, page, figures::with_change(r, t.every));
    Rehearsal { pages, ..m }
}

// A read; of a page without a change it does nothing.
fn read(t: Settings, i: u32, m: Rehearsal, page: u32) -> Rehearsal
    requires { (t.frames ≤ 16) × (1 ≤ t.every) × Bounded 900000 m.pages }
    ensures { result ≡ step_on t i m (Access.Read page) }
{
    if figures::page_row(m.pages, page).records == 0 {
        return m;
    }
    touch(t, i, m, page, false)
}

// Event i, counted from 1.
pub fn step(t: Settings, i: u32, m: Rehearsal, a: Access) -> Rehearsal
    requires { (t.frames ≤ 16) × (1 ≤ t.every) × (t.every ≤ 255) × Bounded 900000 m.pages }
    ensures { result ≡ step_on t i m a }
{
    match a {
        Access::Read(p) => read(t, i, m, p),
        Access::Change(p) => alter(t, touch(t, i, m, p, true), p),
    }
}
