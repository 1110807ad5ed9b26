// How many images of a volume fail in their place. `include/pagestore.h` declares it.
ghost use Rattle.std.specs.Prelude.{◌≡◌, cond, eqb, length};
ghost use Rattle.face.specs.Numbers.{state_of};
ghost use Rattle.convert.specs.Failing.{failing_count};

use convert::failing;

// The images that pass under neither sum that the heading allows; 0 for a volume or a state that is none.
pub fn pagestore_failing(volume: &[u8], state: &[u32]) -> u32
    ensures { result
        ≡ cond (eqb (length state.now) 360) (failing_count volume.now (state_of state.now)) 0 }
{
    if state.len() != 360 {
        return 0;
    }
    failing::failing(numbers::decode(state), volume)
}
