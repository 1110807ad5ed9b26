// Check 1: a torn page, and a confirmed write that the disk lost. The torn page is found by its checksum, the lost
// write by its number against the page recovery index.
use checklist_steps::disk::Volume;
use checklist_steps::steps::Live;
use checklist_steps::verdict::Seen;
use checklist_steps::{disk, text};
use std::io;

// Two lines, and the page's image on disk.
fn first(rt: &impl Print) -> io::Result<Live> {
    let mut live = Live::opened(rt, [0; disk::SIZE], [0; 1536]).done()?;
    live.put(rt, 1, 44, b"06:18 bed 4 is free")?;
    live.write(rt, 1)?;
    Ok(live)
}

// A third line, and the page's next image on disk.
fn second(rt: &impl Print, live: &mut Live) -> io::Result<()> {
    live.put(rt, 1, 88, b"06:25 porter takes bed 7 to ward 3 at noon")?;
    live.write(rt, 1)
}

fn torn(rt: &impl Print, live: &mut Live, old: &Volume, seen: &mut Seen) -> io::Result<bool> {
    println!(rt;
        "  Damage: the disk tears the page. Half of the last image arrived, the other half is old. The disk holds:"
    )?;
    disk::give_back(&mut live.volume, old, disk::PAGE + 128, disk::PAGE + 256);
    text::held(rt, &disk::image(&live.volume, disk::PAGE))?;
    let why =
        "  The store takes nothing from an image with a wrong checksum, and replays the log.\n";
    seen.after(rt, &live.volume, why).done()
}

fn lost(rt: &impl Print, live: &mut Live, old: &Volume, seen: &mut Seen) -> io::Result<bool> {
    println!(rt;
        "  Damage: the disk loses the last write, which it had confirmed. It holds the image of before, unhurt:"
    )?;
    disk::give_back(&mut live.volume, old, disk::PAGE, disk::PAGE + 256);
    text::held(rt, &disk::image(&live.volume, disk::PAGE))?;
    let why =
        "  The number is below the last written one in the page recovery index: the store replays what is missing.\n";
    seen.after(rt, &live.volume, why).done()
}

// Loading the page and writing it again puts the disk right.
fn healed(rt: &impl Print, live: &mut Live, seen: &mut Seen) -> io::Result<bool> {
    print!(rt; "  Repair: the server starts again, loads the page and writes it once more.\n   ")?;
    live.restart(rt)?;
    live.load(rt, 1)?;
    live.write(rt, 1)?;
    seen.after(rt, &live.volume, "").done()
}

pub fn check(rt: &impl Print) -> io::Result<bool> {
    println!(rt; "\nCHECK 1. A torn page, and a confirmed write that the disk lost")?;
    let mut live = first(rt)?;
    let old = live.volume;
    second(rt, &mut live)?;
    let mut seen = Seen {
        before: [0; 256],
        after: [0; 256],
    };
    seen.before(rt, &live.volume)?;
    let a = torn(rt, &mut live, &old, &mut seen)?;
    let b = lost(rt, &mut live, &old, &mut seen)?;
    let c = healed(rt, &mut live, &mut seen)?;
    Ok(a & (b & c))
}
