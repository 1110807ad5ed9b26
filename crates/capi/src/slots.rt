// What a volume's heading says, and what stands in a slot of its log, its notes or its backups, as numbers.
// `include/pagestore.h` declares them.
ghost use Rattle.std.specs.Prelude.{◌≡◌, cond, not, ◌+◌, ◌≤◌, IfOk, length};
ghost use Rattle.model.specs.Geometry.{valid_volume};
ghost use Rattle.model.specs.Refused.{error_number};
ghost use Rattle.face.specs.Slots.{counts_of, record_slot_of, note_slot_of, backup_slot_of};
ghost use Rattle.face.specs.Found.{Gives};

use crate::found;
use face_numbers::slots::{backup_numbers, note_numbers, record_numbers};
use model::answer::Refusal;
use volume::{Volume, place};

// The volume, where it is one and the numbers have the right length.
fn opened(volume: &[u8], right: bool) -> Result<Volume<'_>, Refusal>
    ensures refusal { error_number result ≡ cond (not (valid_volume volume.now)) 1 (cond (not right) 2 0) }
    ensures bytes { IfOk result (λ v. v.bytes.now ≡ volume.now) }
{
    let v = Volume::open(volume)?;
    if !right {
        return Err(Refusal::BadBuffer);
    }
    Ok(v)
}

fn counts(volume: &[u8], old: &[u32]) -> Result<[u32; 5], u32>
    ensures found { Gives result old.now (counts_of volume.now old.now) }
    ensures long { IfOk result (λ _. length old.now ≡ 5) }
{
    let g = opened(volume, old.len() == 5)?.geometry;
    Ok([u32::from(g.tag), g.pages, g.slots, g.records, g.notes])
}

// These three differ in count, place and numbers at once: a shared function would take all of them as parameters.
fn record(volume: &[u8], slot: u32, old: &[u32]) -> Result<[u32; 8], u32>
    ensures found { Gives result old.now (record_slot_of volume.now slot old.now) }
    ensures long { IfOk result (λ _. length old.now ≡ 8) }
{
    let v = opened(volume, old.len() == 8)?;
    let there = (1 <= slot) & (slot <= v.geometry.records);
    if !there {
        return Err(u32::from(Refusal::NoSuchSlot));
    }
    let at = place::record_at(v.geometry, slot);
    Ok(record_numbers(place::part(volume, at, 64)))
}

fn note(volume: &[u8], slot: u32, old: &[u32]) -> Result<[u32; 8], u32>
    ensures found { Gives result old.now (note_slot_of volume.now slot old.now) }
    ensures long { IfOk result (λ _. length old.now ≡ 8) }
{
    let v = opened(volume, old.len() == 8)?;
    let there = (1 <= slot) & (slot <= v.geometry.notes);
    if !there {
        return Err(u32::from(Refusal::NoSuchSlot));
    }
    let at = place::note_at(v.geometry, slot);
    Ok(note_numbers(place::part(volume, at, 16)))
}

fn backup(volume: &[u8], slot: u32, old: &[u32]) -> Result<[u32; 8], u32>
    ensures found { Gives result old.now (backup_slot_of volume.now slot old.now) }
    ensures long { IfOk result (λ _. length old.now ≡ 8) }
{
    let v = opened(volume, old.len() == 8)?;
    let there = (1 <= slot) & (slot <= v.geometry.slots);
    if !there {
        return Err(u32::from(Refusal::NoSuchSlot));
    }
    Ok(backup_numbers(v.geometry, v.slot(slot)))
}

// What a volume's heading says: 0 or the refusal.
// Ruled out: counts of a volume that is none; two counts exchanged (tried).
pub fn pagestore_counts(volume: &[u8], counts: &mut [u32]) -> u32
    ensures answer { result ≡ (counts_of volume.now counts.old).refusal }
    ensures counts { counts.new ≡ (counts_of volume.now counts.old).numbers }
{
    found::put(self::counts(volume, counts), counts)
}

// What stands in a slot of the log: 0 or the refusal.
pub fn pagestore_record(volume: &[u8], slot: u32, fields: &mut [u32]) -> u32
    ensures answer { result ≡ (record_slot_of volume.now slot fields.old).refusal }
    ensures fields { fields.new
        ≡ (record_slot_of volume.now slot fields.old).numbers }
{
    found::put(record(volume, slot, fields), fields)
}

// What stands in a slot of the notes: 0 or the refusal.
pub fn pagestore_note_at(volume: &[u8], slot: u32, fields: &mut [u32]) -> u32
    ensures answer { result ≡ (note_slot_of volume.now slot fields.old).refusal }
    ensures fields { fields.new
        ≡ (note_slot_of volume.now slot fields.old).numbers }
{
    found::put(note(volume, slot, fields), fields)
}

// What stands in a backup slot: 0 or the refusal.
pub fn pagestore_slot(volume: &[u8], slot: u32, fields: &mut [u32]) -> u32
    ensures answer { result ≡ (backup_slot_of volume.now slot fields.old).refusal }
    ensures fields { fields.new
        ≡ (backup_slot_of volume.now slot fields.old).numbers }
{
    found::put(backup(volume, slot, fields), fields)
}
