// The forecast as numbers: two for each of 64 pages.
ghost use Rattle.std.specs.Prelude.{◌≡◌, length};
ghost use Rattle.reports.specs.Forecast.{figure_numbers, tell_forecast};

use model::answer::Refusal;
use reports::reading::Figure;
use volume::heading;

// Writes the figures page by page.
fn tell(pages: [Figure; 64], figures: &mut [u32])
    requires { length figures.old ≡ 128 }
    ensures { figures.new ≡ figure_numbers pages }
{
    for i in 0..64usize {
        figures[2 * i] = pages[i].refusal;
        figures[2 * i + 1] = pages[i].count;
    }
}

// Forecasts a volume into lent numbers: 0 or the refusal. The heading is compared before a length is looked at.
// Ruled out: refusal and count exchanged (tried); 2 for a volume that is not valid (tried); a refusal that wrote to the
// figures.
pub fn tell_forecast(volume: &[u8], figures: &mut [u32]) -> u32
    ensures answer { result ≡ (tell_forecast volume.now figures.old).refusal }
    ensures figures { figures.new
        ≡ (tell_forecast volume.now figures.old).figures }
{
    if !heading::known(volume) {
        return u32::from(Refusal::BadVolume);
    }
    if figures.len() != 128 {
        let refusal = if heading::valid(volume) {
            Refusal::BadBuffer
        } else {
            Refusal::BadVolume
        };
        return u32::from(refusal);
    }
    let f = crate::forecast(volume);
    if f.refusal == 0 {
        tell(f.pages, figures);
    }
    f.refusal
}
