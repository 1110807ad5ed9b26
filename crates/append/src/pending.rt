// A log record left pending in memory, which Begin and Change share.
ghost use Rattle.std.specs.Prelude.{◌≡◌, true, ◌+◌, ◌≤◌, ◌<◌, length};
ghost use Rattle.append.specs.Pended.{pended_memory};
ghost use Rattle.model.specs.Change.{fits};
ghost use Rattle.model.specs.State.{last_number};

use item::record;
use model::change::Change;
use model::state::State;
use state::entries;
use volume::memory;

// Leaves the record of a change of the page pending, behind the page's last record, and gives its number, the next one.
pub fn pend(s: State, memory: &mut [u8], page: u32, c: Change, payload: [u8; 44]) -> u32
    requires { (1024 ≤ length memory.old) × (s.durable + s.pending < 4294967295)
        × (fits c ≡ true) × (page < 65536) }
    ensures lsn { result ≡ last_number s + 1 }
    ensures memory { memory.new ≡ pended_memory memory.old s page c payload }
{
    let lsn = s.durable + s.pending + 1;
    let prev = entries::entry(s, page).last;
    let at = memory::pending_at(lsn);
    let end = at + 64;
    record::encode(&mut memory[at..end], lsn, prev, page, c, payload);
    lsn
}
