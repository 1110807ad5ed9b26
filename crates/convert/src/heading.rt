// The row that the three calls start with, and a heading stored.
ghost use Rattle.std.specs.Prelude.{◌≡◌, not, cond, ◌≤◌, length};
ghost use Rattle.model.specs.Bytes.{splice, starts_with};
ghost use Rattle.model.specs.Refused.{error_number};

use codec::part;
use model::answer::Refusal;
use volume::heading;

// The refusal of a call with this heading of its own: another heading comes before what the rows 1 and 2 gave.
pub fn refusal(volume: &[u8], magic: [u8; 4], checked: Result<(), Refusal>) -> Result<(), Refusal>
    ensures { error_number result ≡ cond (not (starts_with magic volume.now)) 1 (error_number checked) }
{
    if !heading::headed(volume, magic) {
        return Err(Refusal::BadVolume);
    }
    checked
}

// Stores a heading.
pub fn put(volume: &mut [u8], magic: [u8; 4])
    requires { 4 ≤ length volume.old }
    ensures { volume.new ≡ splice volume.old 0 magic }
{
    part::put(volume, 0, &magic);
}
