// What a function for C has found, put where C reads it.
ghost use Rattle.std.specs.Prelude.{◌≡◌, IfOk, length};
ghost use Rattle.face.specs.Slots.{Listed};
ghost use Rattle.face.specs.Found.{Gives};

// Writes the numbers that were found over those that are lent, and gives 0; or gives the refusal's number, and the
// numbers stay as they were.
pub fn put<const N: usize>(found: Result<[u32; N], u32>, numbers: &mut [u32]) -> u32
    requires { IfOk found (λ _. length numbers.old ≡ N) }
    ensures { (l : Listed) → Gives found.entry numbers.old l → (result ≡ l.refusal) × (numbers.new ≡ l.numbers) }
{
    match found {
        Ok(xs) => {
            numbers.copy_from_slice(&xs);
            0
        }
        Err(no) => no,
    }
}
