// The byte sum of an item, which images have under the second heading: computed, set and compared.
ghost use Rattle.std.specs.Prelude.{◌≡◌, ◌+◌, ◌≤◌, length, take};
ghost use Rattle.model.specs.Bytes.{byte_at};
ghost use Rattle.model.specs.Checksum.{byte_sum, byte_sum_from};
ghost use Rattle.std.proofs.Common.{rules};
ghost use Rattle.sums.specs.Terms.{byte-next, byte-end};

use crate::check::Check;
use crate::partial::Sums;
use crate::terms::Terms;
use crate::{byte_lanes, partial, terms};

// The sum over single bytes.
pub struct ByteSum;

impl Terms for ByteSum {
    ghost WIDTH = { 1 };

    ghost term = { λ at s. byte_at s at };

    ghost from = { byte_sum_from };

    const WIDTH: usize = 1;

    fn term(s: &[u8], at: usize) -> u64 {
        u64::from(s[at])
    }

    ghost some = { Prim.search rules };

    ghost next = { byte-next };

    ghost end = { byte-end };
}

// The byte sum of bytes.
pub fn sum(s: &[u8]) -> u32
    ensures { result ≡ byte_sum s.now }
{
    if s.len() <= 65536 {
        terms::late::<ByteSum>(s, byte_lanes::blocks(s, partial::START))
    } else {
        terms::stepwise::<ByteSum>(s)
    }
}

impl Check for ByteSum {
    ghost of = { byte_sum };

    fn sum(s: &[u8]) -> u32 {
        sum(s)
    }
}
