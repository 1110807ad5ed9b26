// The two sums on their way over the bytes, with no remainder taken: in 64 bits those of 65,536 bytes do not wrap.
ghost use Rattle.std.specs.Prelude.{◌≡◌, ◌+◌, ◌*◌, ◌%◌};

// The sums of what stands before a place.
#[derive(Clone, Copy)]
pub struct Sums {
    pub a: u64,
    pub b: u64,
    pub at: usize,
}

// Nothing is summed yet.
pub const START: Sums = Sums { a: 1, b: 0, at: 0 };

// Their value.
pub fn value(t: Sums) -> u32
    ensures { result ≡ t.b % 65535 * 65536 + t.a % 65535 }
{
    (t.b % 65535 * 65536 + t.a % 65535) as u32
}
