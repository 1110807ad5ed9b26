// Whether the log has room for one more record. In a ring the next record displaces the oldest one, which must be known
// to be spare.
ghost use Rattle.std.specs.Prelude.{◌≡◌, true, ◌+◌};
ghost use Rattle.model.specs.State.{record_needed, log_full};

use item::record;
use model::state::State;
use state::entries;
use sums::check::Check;
use sums::checksum::WordSum;
use volume::{Volume, ring};

// Record j is not known to be spare: it is pending, or it stands whole in its slot and its page has no noted backup at
// or above it.
pub fn needed(s: State, v: &Volume<'_>, j: u32) -> bool
    ensures { result ≡ record_needed v.now.geometry v.now.bytes.now s j }
{
    let r = v.record(j);
    let e = record::read(r);
    let page = u32::from(e.page);
    let x = entries::entry(s, page);
    let whole = WordSum::holds(r, 60);
    let inside = (1 <= page) & (page <= v.geometry.pages);
    let spare = inside & ((x.slot != 0) & (j <= x.backup));
    (s.durable < j) | (whole & ((e.lsn == j) & !spare))
}

// The last number is given; or, in a ring, the record that the next one would displace is needed.
pub fn full(s: State, v: &Volume<'_>) -> bool
    ensures { result ≡ log_full v.now.geometry v.now.bytes.now s }
{
    let last = u64::from(s.durable) + u64::from(s.pending);
    let slots = u64::from(v.geometry.records);
    if u64::from(ring::most(v.geometry)) <= last {
        return true;
    }
    if !ring::ring(v.geometry) | (last < slots) {
        return false;
    }
    needed(s, v, (last + 1 - slots) as u32)
}
