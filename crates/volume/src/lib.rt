// A volume as a whole: its heading, the place and the bytes of each item, Make; the size of the memory beside it.
#![tactic(auto)]

ghost use Rattle.std.specs.Prelude.{◌≡◌, true, cond, not, ◌≤◌, IfOk};
ghost use Rattle.model.specs.Geometry.{geometry_of, valid_volume, item, page_at, slot_at, log_slot, note_slot};
ghost use Rattle.model.specs.Refused.{error_number};

pub mod heading;
pub mod make;
pub mod memory;
pub mod place;
pub mod ring;

use model::answer::Refusal;
use model::geometry::Geometry;

// A volume whose heading, counts and length are right, beside its geometry.
#[derive(Clone, Copy)]
pub struct Volume<'a> {
    pub bytes: &'a [u8],
    pub geometry: Geometry,
    pub ghost valid: { valid_volume bytes.now ≡ true },
    pub ghost read: { geometry ≡ geometry_of bytes.now },
}

impl<'a> Volume<'a> {
    // The bytes as a volume; they are known to be a valid one.
    pub fn of(bytes: &'a [u8]) -> Volume<'a>
        requires { valid_volume bytes.now ≡ true }
        ensures { result.bytes.now ≡ bytes.now }
    {
        let geometry = heading::geometry(bytes);
        Volume { bytes, geometry }
    }

    // The same of any bytes.
    pub fn open(bytes: &'a [u8]) -> Result<Volume<'a>, Refusal>
        ensures refusal { error_number result ≡ cond (not (valid_volume bytes.now)) 1 0 }
        ensures bytes { IfOk result (λ v. v.bytes.now ≡ bytes.now) }
    {
        if !heading::known(bytes) {
            return Err(Refusal::BadVolume);
        }
        let geometry = heading::geometry(bytes);
        if !heading::sound(bytes, geometry) {
            return Err(Refusal::BadVolume);
        }
        Ok(Volume { bytes, geometry })
    }

    // A page's image.
    pub fn page(&self, i: u32) -> &'a [u8; 256]
        requires { (1 ≤ i) × (i ≤ self.now.geometry.pages) }
        ensures { result.now ≡ item self.now.geometry self.now.bytes.now (page_at i) }
    {
        place::page(self.bytes, self.geometry, i)
    }

    // A backup slot's image.
    pub fn slot(&self, i: u32) -> &'a [u8; 256]
        requires { (1 ≤ i) × (i ≤ self.now.geometry.slots) }
        ensures { result.now ≡ item self.now.geometry self.now.bytes.now (slot_at i) }
    {
        place::slot(self.bytes, self.geometry, i)
    }

    // The bytes of log record n. A valid volume has a log.
    pub fn record(&self, n: u32) -> &'a [u8; 64]
        ensures { result.now ≡ item self.now.geometry self.now.bytes.now (log_slot self.now.geometry n) }
    {
        place::record(self.bytes, self.geometry, n)
    }

    // The bytes of note n.
    pub fn note(&self, n: u32) -> &'a [u8; 16]
        requires { 1 ≤ self.now.geometry.notes }
        ensures { result.now ≡ item self.now.geometry self.now.bytes.now (note_slot self.now.geometry n) }
    {
        place::note(self.bytes, self.geometry, n)
    }
}
