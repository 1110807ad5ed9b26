// The state by value: its frame table, its index, the states that the calls make of it.
#![tactic(auto)]

pub mod entries;
pub mod frames;
pub mod next;
pub mod refusal;
pub mod reply;
pub mod well_formed;

ghost use Rattle.std.specs.Prelude.{◌≡◌, ◌-◌};

// The row of what is counted from 1; 0 counts as 1.
pub fn row(n: u32) -> usize
    ensures { result ≡ n - 1 }
{
    if 1 <= n { n as usize - 1 } else { 0 }
}
