// What is seen of a page before and after damage, and the verdict: the text is the same.
ghost use Rattle.std.specs.Prelude.{◌≡◌};
ghost use Rattle.model.specs.Restart.{inspect_of};
ghost use Rattle.checklist_steps.specs.Text.{is_repaired, rebuilt_as};

use crate::disk::{Image, Volume};
use crate::printed::Printed;
use crate::steps::worded;
use crate::text;
use model::answer::Answer;
use std::io;
use store::Store;

// Page 1 as Inspect rebuilds it before any damage, and after it.
#[derive(Clone, Copy)]
pub struct Seen {
    pub before: Image,
    pub after: Image,
}

// An answer that a page was rebuilt.
fn repaired(a: Answer) -> bool
    ensures { result ≡ is_repaired a }
{
    matches!(a, Answer::Repaired(_))
}

// What is seen of a page: the answer, and the text in the buffer.
fn show(rt: &impl Print, page: u32, a: Answer, buffer: &Image) -> io::Result<()> {
    println!(rt; "    Inspect page {page}: {}", worded(a))?;
    text::show(rt, buffer)
}

// Inspect: its answer, and the text that it rebuilt in the buffer; whether it rebuilt one.
pub fn inspect(rt: &impl Print, v: &Volume, page: u32, buffer: &mut Image) -> Printed<bool>
    ensures answer { result.value ≡ is_repaired (inspect_of v.now page buffer.old).answer }
    ensures buffer { buffer.new ≡ (inspect_of v.now page buffer.old).buffer }
{
    let a = Store::inspect(v, page, buffer);
    Printed {
        value: repaired(a),
        said: show(rt, page, a, buffer),
    }
}

impl Seen {
    // What is seen before any damage.
    pub fn before(&mut self, rt: &impl Print, v: &Volume) -> io::Result<()>
        ensures before { self.new.before ≡ (inspect_of v.now 1 self.old.before).buffer }
        ensures after { self.new.after ≡ self.old.after }
    {
        let said = println!(rt; "  Before the damage:");
        inspect(rt, v, 1, &mut self.before).after(said).said
    }

    // What is seen of page 1 after damage, and why; whether it is rebuilt with its text as it was before.
    // Ruled out: a refused page that passes since the buffer holds an earlier text (tried).
    pub fn after(&mut self, rt: &impl Print, v: &Volume, why: &str) -> Printed<bool>
        ensures verdict { result.value
            ≡ rebuilt_as (inspect_of v.now 1 self.old.after) self.old.before }
        ensures before { self.new.before ≡ self.old.before }
        ensures after { self.new.after ≡ (inspect_of v.now 1 self.old.after).buffer }
    {
        let said = print!(rt; "{why}");
        let found = inspect(rt, v, 1, &mut self.after).after(said);
        if !found.value {
            return Printed {
                value: false,
                said: found.said,
            };
        }
        text::whole(rt, &self.before, &self.after).after(found.said)
    }
}
