// What mending says.
ghost use Rattle.std.specs.Prelude.{◌≡◌};
ghost use Rattle.face.specs.Mending.{refusal_for, mend_numbers};

use crate::advice::{command_numbers, plain};
use mend_policy::mending::Mend;

pub fn refusal_for(a: Mend) -> u32
    ensures { result ≡ refusal_for a }
{
    match a {
        Mend::Refused(n) => n,
        _ => 0,
    }
}

pub fn mend_numbers(a: Mend, byte: u32) -> [u32; 8]
    ensures { result ≡ mend_numbers a byte }
{
    match a {
        Mend::Refused(_) | Mend::Whole => plain(0, 0, 0, 0),
        Mend::Single => plain(3, 0, 0, 0),
        Mend::Lost => plain(4, 0, 0, 0),
        Mend::Ahead => plain(5, 0, 0, 0),
        Mend::Full => plain(2, 0, 0, 0),
        Mend::Make(c) => command_numbers(c, byte),
    }
}
