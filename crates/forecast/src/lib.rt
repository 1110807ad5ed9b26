// The repair forecast of a volume: what Inspect would count for each page, without building a page.
#![tactic(auto)]

ghost use Rattle.std.specs.Prelude.{◌≡◌};
ghost use Rattle.model.specs.Tables.{tabulate};
ghost use Rattle.reports.specs.Forecast as forecasts;
ghost use Rattle.forecast.specs.Figures.{Indexed, figure_as, figure_in};

pub mod face;

use model::answer::Refusal;
use model::state::Entry;
use repair::walk::Walked;
use repair::{Target, walk};
use reports::reading::{Figure, Forecast};
use volume::Volume;

// A row past the last page, and of a refused call: document 02 asks for zeros, so a figure is no Result.
const ZERO: Figure = Figure {
    refusal: 0,
    count: 0,
};

// What a walk comes to: its count, or 23 where it went below the run.
fn figure(w: Walked) -> Figure
    ensures { result ≡ figure_as w }
{
    if walk::below(w.stop) {
        return Figure {
            refusal: u32::from(Refusal::PageLost),
            count: 0,
        };
    }
    Figure {
        refusal: 0,
        count: w.count,
    }
}

// The figures of all pages: each page's walk, its own image and its backup judged.
fn rows(v: &Volume<'_>, first: u64, index: [Entry; 64]) -> [Figure; 64]
    requires { Indexed v.now.bytes.now v.now.geometry first index }
    ensures { result ≡ tabulate 64 (λ i. figure_in v.now.geometry v.now.bytes.now first index i) }
{
    let mut pages = [ZERO; 64];
    let count = v.geometry.pages as usize;
    for i in 0..count {
        let t = Target {
            volume: *v,
            first,
            entry: index[i],
            page: i as u32 + 1,
        };
        pages[i] = figure(walk::follow(&t));
    }
    pages
}

// Forecasts the repairs of a volume.
// Ruled out: a page's 23 told as a count (tried); a page left out (tried); the walk of another page (tried); a refusal
// told as 0 (tried); the count of a backup or an own image that is not valid (tried, in `repair`).
pub fn forecast(volume: &[u8]) -> Forecast
    ensures { result ≡ forecasts.forecast_of volume.now }
{
    match index::scan(volume) {
        Err(refusal) => Forecast {
            refusal: u32::from(refusal),
            pages: [ZERO; 64],
        },
        Ok(scanned) => {
            let v = Volume::of(volume);
            Forecast {
                refusal: 0,
                pages: rows(&v, scanned.first, scanned.index),
            }
        }
    }
}
