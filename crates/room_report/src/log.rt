// How many more records the log has room for.
ghost use Rattle.std.specs.Prelude.{◌≡◌, ◌+◌, ◌≤◌};
ghost use Rattle.reports.specs.Room.{after_records, records_left, log_page, log_space};

use item::record;
use model::state::State;
use reports::reading::Space;
use room::log;
use volume::{Volume, ring};

// The state i records on, each of them forced.
fn after(s: State, i: u32) -> State
    requires { s.durable + i ≤ 4294967295 }
    ensures { result ≡ after_records s i }
{
    State {
        durable: s.durable + i,
        ..s
    }
}

// How many records are appended before the next one is refused; a whole turn at most.
fn count(s: State, v: &Volume<'_>) -> u32
    ensures { (result ≡ records_left v.now.geometry v.now.bytes.now s) × (s.durable + result ≤ 4294967295) }
{
    let slots = v.geometry.records;
    for i in 0..slots {
        if log::full(after(s, i), v) {
            return i;
        }
    }
    slots
}

// The page in the way of a full log: that of the record that the next one would displace. 0 where there is none, or the
// last number is given.
fn page(s: State, v: &Volume<'_>) -> u32
    ensures { result ≡ log_page v.now.geometry v.now.bytes.now s }
{
    let last = u64::from(s.durable) + u64::from(s.pending);
    let left = last < u64::from(ring::most(v.geometry));
    if !(left & log::full(s, v)) {
        return 0;
    }
    let oldest = (last + 1 - u64::from(v.geometry.records)) as u32;
    u32::from(record::read(v.record(oldest)).page)
}

// How many more records, and the page in the way then.
pub fn left(s: State, v: &Volume<'_>) -> Space
    ensures { result ≡ log_space v.now.geometry v.now.bytes.now s }
{
    let count = count(s, v);
    Space {
        count,
        page: page(after(s, count), v),
    }
}
