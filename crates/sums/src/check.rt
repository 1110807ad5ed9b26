// A sum of an item's bytes that stands behind them: computed, set and compared.
ghost use Rattle.std.specs.Prelude.{◌≡◌, ◌+◌, List, ℕ, length, take};
ghost use Rattle.model.specs.Checksum.{with_sum, sum_holds};

use codec::field;

// What a sum has to give so that items can be checked by it: `WordSum` and `ByteSum` are two.
pub trait Check {
    // The sum.
    ghost of: { List ℕ → ℕ };

    // The sum of bytes.
    fn sum(s: &[u8]) -> u32
        ensures { result ≡ of s.now };

    // Sets the sum of an item's first n bytes in the four behind them.
    final fn set(item: &mut [u8], n: usize)
        requires { n + 4 ≡ length item.old }
        ensures { item.new ≡ with_sum of (take n item.old) }
    {
        let c = Self::sum(&item[0..n]);
        field::put_u32(item, n, c);
    }

    // The four bytes behind an item's first n hold their sum. Where n is past the end, these are all bytes, and 0.
    final fn holds(item: &[u8], n: usize) -> bool
        ensures { result ≡ sum_holds of n item.now }
    {
        if n <= item.len() {
            Self::sum(&item[0..n]) == field::u32_at(item, n)
        } else {
            Self::sum(item) == 0
        }
    }
}
