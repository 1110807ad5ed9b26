// Four lanes of a sum: term k goes to lane k % 4, and the compiler keeps the lanes in a vector. In a lane x is the sum
// of its terms, and z the sum of what x was before each of them.
// Eight fields and no arrays: a generic struct may not hold an array of its type parameter.
ghost use Rattle.std.specs.Prelude.{◌≡◌};
ghost use Rattle.sums.specs.Lanes.{all_lanes};

#[derive(Clone, Copy)]
pub struct Lanes<T> {
    pub x0: T,
    pub x1: T,
    pub x2: T,
    pub x3: T,
    pub z0: T,
    pub z1: T,
    pub z2: T,
    pub z3: T,
}

// With no term yet.
pub fn none<T: Copy>(zero: T) -> Lanes<T>
    ensures { result ≡ all_lanes zero }
{
    Lanes {
        x0: zero,
        x1: zero,
        x2: zero,
        x3: zero,
        z0: zero,
        z1: zero,
        z2: zero,
        z3: zero,
    }
}
