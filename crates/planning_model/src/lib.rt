// Two kinds of reader, played through: a list of events played on a small model of the store.
#![tactic(auto)]

ghost use Rattle.std.specs.Prelude.{◌≡◌, ◌≤◌, length, IfErr};
ghost use Rattle.model.specs.Tables.{first_of};
ghost use Rattle.model.specs.Refused.{refusal_number, error_number};
ghost use Rattle.planning.specs.Rehearsal.{settings, idle, play_from, pages_fit, rehearsal_rows, rehearsal_of};

pub mod figures;
pub mod frames;
pub mod step;

use model::answer::{Answer, Refusal};
use planning::rehearsal::{FrameUse, Rehearsal, Rehearsed, Settings, Victim};

// Every event's page is 1 to 64. (By `all` the check did not find that the tests are the definition's.)
fn pages_fit(events: &[u8]) -> bool
    ensures { result ≡ pages_fit events.now }
{
    for &e in events {
        if !step::fits(e) {
            return false;
        }
    }
    true
}

// 25 over all events, before the first is played.
fn refusal(events: &[u8], t: Settings) -> Result<(), Refusal>
    ensures rows { error_number result ≡ first_of (rehearsal_rows events.now t) }
    ensures only { IfErr result (λ r. refusal_number r ≡ 25) }
{
    let few = events.len() <= 1024;
    let room = (1 <= t.frames) & (t.frames <= 16);
    let often = (1 <= t.every) & (t.every <= 255);
    let inside = pages_fit(events);
    if few & (room & (often & inside)) {
        return Ok(());
    }
    Err(Refusal::BadRehearsal)
}

// The model before the first event.
fn start() -> Rehearsal
    ensures { result ≡ idle }
{
    let frames = [FrameUse {
        page: 0,
        used: 0,
        dirty: false,
    }; 16];
    let pages = [figures::NONE; 64];
    Rehearsal { frames, pages }
}

// All events, one after the other.
fn play(events: &[u8], t: Settings) -> Rehearsal
    requires { (length events.now ≤ 1024)
        × (1 ≤ t.frames) × (t.frames ≤ 16) × (1 ≤ t.every) × (t.every ≤ 255) }
    ensures { result ≡ play_from t 0 idle events.now }
{
    let mut m = start();
    for (i, &e) in events.iter().enumerate() {
        m = step::step(t, i as u32 + 1, m, step::access(e));
    }
    m
}

// Plays the events under the settings: 25, or done, and the figures of every page.
// Ruled out: another page's figure raised; a list cut off at 1,024 events and played (tried).
pub fn rehearse(events: &[u8], frames: u32, every: u32, victim: Victim) -> Rehearsed
    ensures { result ≡ rehearsal_of events.now (settings frames every victim) }
{
    let t = Settings {
        frames,
        every,
        victim,
    };
    match refusal(events, t) {
        Ok(()) => {
            let m = play(events, t);
            let pages = m.pages;
            Rehearsed {
                answer: Answer::Done,
                pages,
            }
        }
        Err(no) => Rehearsed {
            answer: Answer::from(no),
            pages: [figures::NONE; 64],
        },
    }
}
