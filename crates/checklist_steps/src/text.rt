// The text of a page: its image's body as five lines of 44 bytes. Bytes past the end of a slice read as 0.
ghost use Rattle.std.specs.Prelude.{◌≡◌, ◌≤◌, length};
ghost use Rattle.checklist_steps.specs.Steps.{row_of};
ghost use Rattle.checklist_steps.specs.Text.{same_between};

use crate::printed::Printed;
use codec::{field, part};
use std::io;
use sums::byte_sum::ByteSum;
use sums::check::Check;

// Where an image's lines stand.
const LINES: [usize; 5] = [8, 52, 96, 140, 184];

// The first 44 bytes, zeros where there are fewer.
pub fn row(s: &[u8]) -> [u8; 44]
    ensures { result ≡ row_of s.now }
{
    let n = s.len().min(44);
    let mut row = [0u8; 44];
    part::put(&mut row, 0, &s[0..n]);
    row
}

// The same from a place on.
fn row_at(s: &[u8], at: usize) -> [u8; 44] {
    s.get(at..).map_or([0; 44], row)
}

// A line of its own without the zeros at its end, where it is not blank.
pub fn line(rt: &impl Print, s: &[u8]) -> io::Result<()> {
    if let Some(last) = s.iter().rposition(|b| *b != 0) {
        print!(rt; "      | ")?;
        rt.write_all(&s[..=last])?;
        println!(rt)?;
    }
    Ok(())
}

// Shows the text of an image.
pub fn show(rt: &impl Print, image: &[u8]) -> io::Result<()> {
    for at in LINES {
        line(rt, &row_at(image, at))?;
    }
    Ok(())
}

// Shows an image as the disk holds it, unrepaired: its text, and the two things that the store tests.
pub fn held(rt: &impl Print, image: &[u8]) -> io::Result<()> {
    show(rt, image)?;
    let sum = if ByteSum::holds(image, 252) {
        "right"
    } else {
        "wrong"
    };
    println!(rt;
        "      (checksum {sum}, number {})",
        field::u32_at(image, 4)
    )
}

// The line at a place is not blank.
fn holds(s: &[u8], at: usize) -> bool {
    field::byte(s, at) != 0
}

// How many lines an image has.
pub fn lines(image: &[u8]) -> usize
    ensures { result ≤ 5 }
{
    LINES.iter().filter(|at| holds(image, **at)).count()
}

// The last line of an image that is not blank, or the first.
pub fn newest(image: &[u8]) -> [u8; 44] {
    let at = LINES.into_iter().rfind(|at| holds(image, *at)).unwrap_or(8);
    row_at(image, at)
}

// The bytes from a place to another are the same in both.
pub fn same(a: &[u8], b: &[u8], from: usize, to: usize) -> bool
    ensures { result ≡ same_between a.now b.now from to }
{
    (from..to).all(|i| field::byte(a, i) == field::byte(b, i))
}

// Says whether the page is as it was before the damage: its number and its body.
pub fn whole(rt: &impl Print, before: &[u8], after: &[u8]) -> Printed<bool>
    ensures { result.value ≡ same_between before.now after.now 4 252 }
{
    let same = same(before, after, 4, 252);
    let said = if same {
        println!(rt; "  The text is whole: the same as before the damage.")
    } else {
        println!(rt; "  THE TEXT IS NOT THE SAME AS BEFORE THE DAMAGE.")
    };
    Printed { value: same, said }
}
