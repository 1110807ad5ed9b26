// The store's calls, each with a word of what was called and what it answered, and the short runs of them that the
// checks share. Each contract is an equation: what the step leaves of volume, memory and store is what its calls make
// of them, by `model::specs::Calls`. Each makes all its calls whatever becomes of the printing.
ghost use Rattle.std.specs.Prelude.{◌≡◌};
ghost use Rattle.model.specs.Restart.{make_of};
ghost use Rattle.model.specs.declared.geometry.Heading.TheVariants.{Second};
ghost use Rattle.model.specs.Calls.{no_payload};
ghost use Rattle.checklist_steps.specs.Steps.{live, made, restarted, begun, changed, put_in, slid_in, forced};
ghost use Rattle.checklist_steps.specs.Steps.{noted, written, backed_up, loaded, opening};

use crate::disk::{Memory, Volume};
use crate::printed::Printed;
use crate::text;
use model::answer::Answer;
use model::change::Change;
use model::command::Command;
use print::Worded;
use std::io;
use store::Store;

// What there is between two calls.
#[derive(Clone, Copy)]
pub struct Live {
    pub volume: Volume,
    pub memory: Memory,
    pub store: Store,
}

// An answer in the checklist's words.
pub fn worded(answer: Answer) -> Worded
    ensures { result.answer ≡ answer }
{
    Worded {
        answer,
        nothing: "nothing to store",
        done: "done",
    }
}

fn make(rt: &impl Print, v: &mut Volume) -> io::Result<()>
    ensures { v.new ≡ (make_of Second v.old 2 1 16 8).volume }
{
    let a = Store::make(v, 2, 1, 16, 8);
    print!(rt; "  What is done:\n    Make: {}.", worded(a))
}

// Ruled out: a memory left as it was; a store that is not the volume's.
fn started(rt: &impl Print, v: &Volume, m: &mut Memory) -> Printed<Store>
    ensures { live v.now m.new result.value ≡ restarted v.now m.old }
{
    let o = Store::restart(v, m);
    Printed {
        value: o.store,
        said: println!(rt; " Restart: {}.", worded(o.answer)),
    }
}

// The line of a page at an offset.
fn line_of(offset: u16) -> u16 {
    offset / 44 + 1
}

// A line's words.
fn quoted(rt: &impl Print, words: &[u8]) -> io::Result<()> {
    print!(rt; " \"")?;
    rt.write_all(words)?;
    print!(rt; "\": ")
}

impl Live {
    // The start of every check: a volume made, page 1 begun, and its first line. Ruled out: a volume that is not made
    // anew.
    pub fn opened(rt: &impl Print, volume: Volume, memory: Memory) -> Printed<Live>
        ensures { result.value ≡ opening volume memory }
    {
        let mut volume = volume;
        let mut memory = memory;
        let said = make(rt, &mut volume);
        let s = started(rt, &volume, &mut memory).after(said);
        let mut live = Live {
            volume,
            memory,
            store: s.value,
        };
        let said = s.said.and(live.begin(rt, 1));
        let line = live.put(rt, 1, 0, b"06:10 bed 4 moved to 7");
        Printed {
            value: live,
            said: said.and(line),
        }
    }

    pub fn restart(&mut self, rt: &impl Print) -> io::Result<()>
        ensures { self.new ≡ restarted self.old.volume self.old.memory }
    {
        let s = started(rt, &self.volume, &mut self.memory);
        self.store = s.value;
        s.said
    }

    // A call, and the end of what is printed of it.
    fn call(&mut self, rt: &impl Print, c: Command, payload: [u8; 44], end: &str) -> io::Result<()>
        ensures { self.new ≡ made self.old c payload }
    {
        let o = self
            .store
            .perform(&mut self.volume, &mut self.memory, c, payload);
        self.store = o.store;
        print!(rt; "{}{end}", worded(o.answer))
    }

    fn force(&mut self, rt: &impl Print) -> io::Result<()>
        ensures { self.new ≡ forced self.old }
    {
        let said = print!(rt; " Force: ");
        said.and(self.call(rt, Command::Force, [0; 44], ".\n"))
    }

    fn note(&mut self, rt: &impl Print) -> io::Result<()>
        ensures { self.new ≡ noted self.old }
    {
        let said = print!(rt; " Note: ");
        said.and(self.call(rt, Command::Note, [0; 44], ".\n"))
    }

    // Write and Note: the page's image on disk, and the index told of it. Ruled out: another page's image; a note that
    // is left to be stored (tried).
    pub fn write(&mut self, rt: &impl Print, page: u32) -> io::Result<()>
        ensures { self.new ≡ written self.old page }
    {
        let said = print!(rt; "    Write page {page}: ");
        let wrote = self.call(rt, Command::Write { page }, [0; 44], ".");
        said.and(wrote).and(self.note(rt))
    }

    // Backup in slot 1, and Note.
    pub fn backup(&mut self, rt: &impl Print, page: u32) -> io::Result<()>
        ensures { self.new ≡ backed_up self.old page }
    {
        let said = print!(rt; "    Backup page {page} in slot 1: ");
        let copied = self.call(rt, Command::Backup { page, slot: 1 }, [0; 44], ".");
        said.and(copied).and(self.note(rt))
    }

    // Begin and Force, in the frame of the page's number.
    pub fn begin(&mut self, rt: &impl Print, page: u32) -> io::Result<()>
        ensures { self.new ≡ begun self.old page }
    {
        let said = print!(rt; "    Begin page {page}: ");
        let c = Command::Begin {
            page,
            frame: page,
            fill: 0,
        };
        let began = self.call(rt, c, [0; 44], ".");
        said.and(began).and(self.force(rt))
    }

    // Change and Force: a put or a slide of a whole line. Ruled out: other bytes than the words; a change that is not
    // durable.
    fn change(&mut self, rt: &impl Print, page: u32, change: Change, words: &[u8]) -> io::Result<()>
        ensures { self.new ≡ changed self.old page change words.now }
    {
        let said = quoted(rt, words);
        let c = Command::Change { page, change };
        let changed = self.call(rt, c, text::row(words), ".");
        said.and(changed).and(self.force(rt))
    }

    // A line put at a place of the page.
    pub fn put(&mut self, rt: &impl Print, page: u32, offset: u16, words: &[u8]) -> io::Result<()>
        ensures { self.new ≡ put_in self.old page offset words.now }
    {
        let said = print!(rt; "    Put page {page} line {}", line_of(offset));
        let c = Change::Put { offset, length: 44 };
        said.and(self.change(rt, page, c, words))
    }

    // A line slid in at a place of the page.
    pub fn slide(&mut self, rt: &impl Print, page: u32, offset: u16, words: &[u8]) -> io::Result<()>
        ensures { self.new ≡ slid_in self.old page offset words.now }
    {
        let said = print!(rt; "    Slide into page {page} line {}", line_of(offset));
        let c = Change::Slide { offset, length: 44 };
        said.and(self.change(rt, page, c, words))
    }

    // Load into the frame of the page's number, and the text that it left in frame 1.
    pub fn load(&mut self, rt: &impl Print, page: u32) -> io::Result<()>
        ensures { self.new ≡ loaded self.old page }
    {
        let said = print!(rt; "    Load page {page}: ");
        let loaded = self.call(rt, Command::Load { page, frame: page }, [0; 44], ".\n");
        said.and(loaded)
            .and(text::show(rt, &self.memory[1024..1280]))
    }
}
