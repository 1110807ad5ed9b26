// The rebuilt page: the body at which the walk stopped, the records of the chain replayed on it, and the image around
// it.
ghost use Rattle.std.specs.Prelude.{◌≡◌, length};
ghost use Rattle.model.specs.Item.{image_body, record_of};
ghost use Rattle.model.specs.Repair.{start_body, replay_chain, rebuilt};
ghost use Rattle.repair.specs.Walked.{view_for, log_of, walk_for, walked_for, chain_from};

use crate::Target;
use crate::walk::Walked;
use codec::{field, part};
use item::{image, record};
use model::answer::Stop;
use volume::Volume;

// Copies an image's body.
fn copy_body(x: &[u8; 256], body: &mut [u8])
    requires { length body.old ≡ 244 }
    ensures { body.new ≡ image_body x.now }
{
    part::copy(body, &x[8..252]);
}

// Sets the body on which a replay starts; a format replaces all of it.
fn begin(t: &Target<'_>, stop: Stop, body: &mut [u8])
    requires { (stop ≡ (walk_for t.now).stop) × (length body.old ≡ 244) }
    ensures { body.new ≡ start_body stop (view_for t.now) }
{
    match stop {
        Stop::Own => copy_body(t.volume.page(t.page), body),
        Stop::Backup => copy_body(t.volume.slot(u32::from(t.entry.slot)), body),
        Stop::Format | Stop::Broken | Stop::Below => body.fill(0),
    }
}

// The number that log record n names as its page's previous one.
fn previous(v: &Volume<'_>, n: u32) -> u32
    ensures { result ≡ (record_of (log_of v.now.geometry v.now.bytes.now n)).prev }
{
    field::u32_at(v.record(n), 4)
}

// The numbers of the chain from `top` down, as many as there is room for.
fn collect(v: &Volume<'_>, top: u32, lsns: &mut [u32])
    ensures { lsns.new ≡ chain_from (length lsns.old) (log_of v.now.geometry v.now.bytes.now) top }
{
    // A copy: fields behind a reference would be read anew each turn, since the loop writes.
    let v = *v;
    let mut n = top;
    for lsn in lsns.iter_mut() {
        *lsn = n;
        n = previous(&v, n);
    }
}

// Makes the changes of the records, oldest first.
fn apply(t: &Target<'_>, lsns: &[u32], body: &mut [u8])
    requires lsns_value { lsns.now ≡ (walk_for t.now).chain }
    requires body_len { length body.old ≡ 244 }
    ensures { body.new
        ≡ replay_chain (log_of t.now.volume.geometry t.now.volume.bytes.now) lsns.now body.old }
{
    // A copy: fields behind a reference would be read anew each turn, since the loop writes.
    let t = *t;
    for n in lsns.iter().rev() {
        record::replay(t.volume.record(*n), body);
    }
}

// Replays the chain on a body, with room for the numbers of its records.
fn replay_in(t: &Target<'_>, lsns: &mut [u32], body: &mut [u8])
    requires room { length lsns.old ≡ length (walk_for t.now).chain }
    requires body_len { length body.old ≡ 244 }
    ensures { body.new
        ≡ replay_chain (log_of t.now.volume.geometry t.now.volume.bytes.now) (walk_for t.now).chain body.old }
{
    collect(&t.volume, t.entry.durable, lsns);
    apply(t, lsns, body);
}

// Replays a chain of `count` records. There is no heap, and it has no more records than a log has slots, mostly few:
// then less is cleared for their numbers.
fn replay(t: &Target<'_>, count: usize, body: &mut [u8])
    requires count_value { count ≡ length (walk_for t.now).chain }
    requires body_len { length body.old ≡ 244 }
    ensures { body.new
        ≡ replay_chain (log_of t.now.volume.geometry t.now.volume.bytes.now) (walk_for t.now).chain body.old }
{
    if count <= 32 {
        let mut few = [0u32; 32];
        replay_in(t, &mut few[..count], body);
    } else {
        let mut lsns = [0u32; 1024];
        replay_in(t, &mut lsns[..count], body);
    }
}

// The page's image as a frame holds it, from the start that the walk found and the records behind it.
// Ruled out: the disk's image handed over as it is, and a replay that leaves a record out (both tried).
pub fn rebuild(t: &Target<'_>, w: Walked, dst: &mut [u8])
    requires { (w ≡ walked_for t.now) × (length dst.old ≡ 256) }
    ensures { dst.new ≡ rebuilt t.now.volume.geometry t.now.page (view_for t.now) }
{
    let body = &mut dst[8..252];
    begin(t, w.stop, body);
    replay(t, w.count as usize, body);
    image::build(dst, t.page, t.entry.durable);
}
