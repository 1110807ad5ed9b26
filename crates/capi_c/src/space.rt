// The room of a volume as numbers. `include/pagestore.h` declares it.
ghost use Rattle.std.specs.Prelude.{◌≡◌};
ghost use Rattle.face.specs.Room.{tell_room};

use capi::space;

// How many more log records and notes the volume takes, and the pages in the way then: 0 or the refusal.
#[unsafe(no_mangle)]
pub extern "C" fn pagestore_room(volume: &[u8], report: &mut [u32]) -> u32
    ensures answer { result ≡ (tell_room volume.now report.old).refusal }
    ensures report { report.new ≡ (tell_room volume.now report.old).numbers }
{
    space::pagestore_room(volume, report)
}
