// What a volume's heading says, and what stands in a slot of its log, its notes or its backups, as numbers.
// `include/pagestore.h` declares them.
ghost use Rattle.std.specs.Prelude.{◌≡◌};
ghost use Rattle.face.specs.Slots.{counts_of, record_slot_of, note_slot_of, backup_slot_of};

use capi::slots;

// What a volume's heading says: 0 or the refusal.
#[unsafe(no_mangle)]
pub extern "C" fn pagestore_counts(volume: &[u8], counts: &mut [u32]) -> u32
    ensures answer { result ≡ (counts_of volume.now counts.old).refusal }
    ensures counts { counts.new ≡ (counts_of volume.now counts.old).numbers }
{
    slots::pagestore_counts(volume, counts)
}

// What stands in a slot of the log: 0 or the refusal.
#[unsafe(no_mangle)]
pub extern "C" fn pagestore_record(volume: &[u8], slot: u32, fields: &mut [u32]) -> u32
    ensures answer { result ≡ (record_slot_of volume.now slot fields.old).refusal }
    ensures fields { fields.new
        ≡ (record_slot_of volume.now slot fields.old).numbers }
{
    slots::pagestore_record(volume, slot, fields)
}

// What stands in a slot of the notes: 0 or the refusal.
#[unsafe(no_mangle)]
pub extern "C" fn pagestore_note_at(volume: &[u8], slot: u32, fields: &mut [u32]) -> u32
    ensures answer { result ≡ (note_slot_of volume.now slot fields.old).refusal }
    ensures fields { fields.new
        ≡ (note_slot_of volume.now slot fields.old).numbers }
{
    slots::pagestore_note_at(volume, slot, fields)
}

// What stands in a backup slot: 0 or the refusal.
#[unsafe(no_mangle)]
pub extern "C" fn pagestore_slot(volume: &[u8], slot: u32, fields: &mut [u32]) -> u32
    ensures answer { result ≡ (backup_slot_of volume.now slot fields.old).refusal }
    ensures fields { fields.new
        ≡ (backup_slot_of volume.now slot fields.old).numbers }
{
    slots::pagestore_slot(volume, slot, fields)
}
