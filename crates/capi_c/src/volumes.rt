// Make under either heading, the length that it takes, and Restart. `include/pagestore.h` declares them.
ghost use Rattle.std.specs.Prelude.{◌≡◌, cond};
ghost use Rattle.model.specs.Restart.{make_of};
ghost use Rattle.model.specs.declared.geometry.Heading.TheVariants.{First, Second};
ghost use Rattle.model.specs.Geometry.{valid_counts, length_for};
ghost use Rattle.face.specs.Face.{answer_number, restarted, restarted_of};

use capi::volumes;

// The length of a volume with these counts; 0 where Make refuses them.
#[unsafe(no_mangle)]
pub extern "C" fn pagestore_size(pages: u32, slots: u32, records: u32, notes: u32) -> u32
    ensures { result ≡ cond (valid_counts pages slots records notes) (length_for pages slots records notes) 0 }
{
    volumes::pagestore_size(pages, slots, records, notes)
}

#[unsafe(no_mangle)]
pub extern "C" fn pagestore_make(
    volume: &mut [u8],
    pages: u32,
    slots: u32,
    records: u32,
    notes: u32,
) -> u32
    ensures answer { result ≡ answer_number (make_of Second volume.old pages slots records notes).answer }
    ensures volume { volume.new
        ≡ (make_of Second volume.old pages slots records notes).volume }
{
    volumes::pagestore_make(volume, pages, slots, records, notes)
}

#[unsafe(no_mangle)]
pub extern "C" fn pagestore_make_first(
    volume: &mut [u8],
    pages: u32,
    slots: u32,
    records: u32,
    notes: u32,
) -> u32
    ensures answer { result ≡ answer_number (make_of First volume.old pages slots records notes).answer }
    ensures volume { volume.new
        ≡ (make_of First volume.old pages slots records notes).volume }
{
    volumes::pagestore_make_first(volume, pages, slots, records, notes)
}

#[unsafe(no_mangle)]
pub extern "C" fn pagestore_restart(volume: &[u8], memory: &mut [u8], state: &mut [u32]) -> u32
    ensures { restarted result state.new memory.new
        ≡ restarted_of volume.now memory.old state.old }
{
    volumes::pagestore_restart(volume, memory, state)
}
