// Check 3: a page and its backup spoiled together. The text comes from the log alone.
use checklist_steps::steps::Live;
use checklist_steps::verdict::Seen;
use checklist_steps::{disk, text};
use std::io;

// A line, written and backed up; then a line that stands in the log alone.
fn done(rt: &impl Print) -> io::Result<Live> {
    let mut live = Live::opened(rt, [0; disk::SIZE], [0; 1536]).done()?;
    live.write(rt, 1)?;
    live.backup(rt, 1)?;
    live.put(rt, 1, 44, b"06:18 bed 4 is free")?;
    Ok(live)
}

fn page(rt: &impl Print, live: &mut Live, seen: &mut Seen) -> io::Result<bool> {
    println!(rt; "  Damage: the disk spoils the page. It holds:")?;
    disk::spoil(&mut live.volume, disk::PAGE + 20, disk::PAGE + 36);
    text::held(rt, &disk::image(&live.volume, disk::PAGE))?;
    let why = "  The store starts from the backup.\n";
    seen.after(rt, &live.volume, why).done()
}

fn slot(rt: &impl Print, live: &mut Live, seen: &mut Seen) -> io::Result<bool> {
    println!(rt; "  Damage: the disk spoils the backup too. Its slot holds:")?;
    disk::spoil(&mut live.volume, disk::SLOT + 8, disk::SLOT + 24);
    text::held(rt, &disk::image(&live.volume, disk::SLOT))?;
    let why = "  The store takes nothing from either image, and replays the log alone.\n";
    seen.after(rt, &live.volume, why).done()
}

pub fn check(rt: &impl Print) -> io::Result<bool> {
    println!(rt; "\nCHECK 3. A page and its backup spoiled together")?;
    let mut live = done(rt)?;
    let mut seen = Seen {
        before: [0; 256],
        after: [0; 256],
    };
    seen.before(rt, &live.volume)?;
    let a = page(rt, &mut live, &mut seen)?;
    let b = slot(rt, &mut live, &mut seen)?;
    Ok(a & b)
}
