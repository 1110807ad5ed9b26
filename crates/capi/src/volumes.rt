// Make under either heading, the length that it takes, and Restart. `include/pagestore.h` declares them.
ghost use Rattle.std.specs.Prelude.{◌≡◌, cond, eqb, length};
ghost use Rattle.model.specs.Restart.{make_of};
ghost use Rattle.model.specs.declared.geometry.Heading.TheVariants.{First, Second};
ghost use Rattle.model.specs.Geometry.{valid_counts, length_for};
ghost use Rattle.model.specs.State.{zero_state};
ghost use Rattle.face.specs.Face.{answer_number, restarted, restarted_of};
ghost use Rattle.face.specs.Numbers.{numbers_of};

use face_step::report;
use model::answer::Refusal;
use state::next;
use store::Store;
use volume::heading;

// The length of a volume with these counts; 0 where Make refuses them.
pub fn pagestore_size(pages: u32, slots: u32, records: u32, notes: u32) -> u32
    ensures { result ≡ cond (valid_counts pages slots records notes) (length_for pages slots records notes) 0 }
{
    if !heading::counts(pages, slots, records, notes) {
        return 0;
    }
    heading::size(pages, slots, records, notes) as u32
}

pub fn pagestore_make(volume: &mut [u8], pages: u32, slots: u32, records: u32, notes: u32) -> u32
    ensures answer { result ≡ answer_number (make_of Second volume.old pages slots records notes).answer }
    ensures volume { volume.new
        ≡ (make_of Second volume.old pages slots records notes).volume }
{
    report::number(Store::make(volume, pages, slots, records, notes))
}

pub fn pagestore_make_first(
    volume: &mut [u8],
    pages: u32,
    slots: u32,
    records: u32,
    notes: u32,
) -> u32
    ensures answer { result ≡ answer_number (make_of First volume.old pages slots records notes).answer }
    ensures volume { volume.new
        ≡ (make_of First volume.old pages slots records notes).volume }
{
    report::number(Store::make_first(volume, pages, slots, records, notes))
}

// The state of a restart that is refused: zeros, in as many numbers as a state has.
fn clear(state: &mut [u32])
    ensures { state.new
        ≡ cond (eqb (length state.old) 360) (numbers_of zero_state) state.old }
{
    if state.len() == 360 {
        numbers::encode(next::zero(), state);
    }
}

pub fn pagestore_restart(volume: &[u8], memory: &mut [u8], state: &mut [u32]) -> u32
    ensures { restarted result state.new memory.new
        ≡ restarted_of volume.now memory.old state.old }
{
    if !heading::known(volume) {
        clear(state);
        return u32::from(Refusal::BadVolume);
    }
    if state.len() != 360 {
        return u32::from(heading::bad_buffer(volume));
    }
    let returned = Store::restart(volume, memory);
    numbers::encode(returned.store.state, state);
    report::number(returned.answer)
}
