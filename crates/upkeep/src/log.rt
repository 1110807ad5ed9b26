// The log positions: position i is the record that the i-th next one displaces.
ghost use Rattle.std.specs.Prelude.{◌≡◌, true, ◌+◌, ◌≤◌, MatchOption};
ghost use Rattle.model.specs.Scan.{log_record};
ghost use Rattle.upkeep_policy.specs.Upkeep.{log_position, log_ahead, reserve, first_needed_log};

use item::record;
use model::state::State;
use volume::Volume;

// Log position i is needed.
fn ahead(s: State, v: &Volume<'_>, i: u32) -> bool
    requires { i ≤ v.now.geometry.records }
    ensures { result ≡ log_ahead v.now.geometry v.now.bytes.now s i }
{
    let slots = u64::from(v.geometry.records);
    let number = u64::from(s.durable) + u64::from(i);
    if number <= slots {
        return false;
    }
    room::log::needed(s, v, (number - slots) as u32)
}

// The first of the positions in half the log that is needed; None, for which the definition has the number behind them,
// where none is.
pub fn first(s: State, v: &Volume<'_>) -> Option<u32>
    ensures { MatchOption result
        (first_needed_log v.now.geometry v.now.bytes.now s ≡ reserve v.now.geometry + 1)
        (λ i. (i ≡ first_needed_log v.now.geometry v.now.bytes.now s) × (i ≤ reserve v.now.geometry)) }
{
    let half = v.geometry.records / 2;
    for i in 1..half + 1 {
        if ahead(s, v, i) {
            return Some(i);
        }
    }
    None
}

// The page of the record at a position.
pub fn page(s: State, v: &Volume<'_>, i: u32) -> u32
    requires { (i ≤ v.now.geometry.records) × (log_ahead v.now.geometry v.now.bytes.now s i ≡ true) }
    ensures { result ≡ (log_record v.now.geometry v.now.bytes.now (log_position v.now.geometry s i)).page }
{
    let slots = u64::from(v.geometry.records);
    let number = u64::from(s.durable) + u64::from(i);
    let e = record::read(v.record((number - slots) as u32));
    u32::from(e.page)
}
