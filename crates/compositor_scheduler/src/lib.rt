// dew's band scheduler: the regions of a screen that dirty boxes change, band by band from the top, in space that the caller
// lends.
#![tactic(auto)]

ghost use Rattle.std.specs.Prelude.{◌≡◌, true, map, ◌++◌, ◌≤◌, ◌<◌, ◌*◌, ◌/◌, ◌+◌, length, take, drop};
ghost use Rattle.compositor_bands.specs.Bands as Bands;
ghost use Rattle.compositor_bands.specs.Keys as Keys;
ghost use Rattle.base_rect_words.specs.Words as Words;
ghost use Rattle.compositor_screen.specs.Sizes.{fits};
ghost use Rattle.compositor_scheduler.specs.Schedule as Schedule;

use compositor_device::DeviceRegion;
use compositor_screen::Screen;

// How many regions there are, and how many pixels they have together.
#[derive(Clone, Copy, Debug, PartialEq, Eq)]
pub struct Totals {
    pub regions: usize,
    pub pixels: u64,
}

// The band that starts at a row of the screen, cut to the screen.
fn band_at(screen: Screen, row: u32) -> DeviceRegion
    requires { row < screen.height }
    ensures { result ≡ Schedule.band_from screen row }
{
    DeviceRegion {
        x: 0,
        y: row,
        width: screen.width,
        height: screen.band_height.min(screen.height - row),
    }
}

// Writes region number at of out: its four words.
fn put_region(out: &mut [u32], at: usize, r: DeviceRegion)
    requires { 4 * at + 4 ≤ length out.old }
    ensures { out.new ≡ take (4 * at) out.old ++ Schedule.words_of_region r ++ drop (4 * at + 4) out.old }
{
    out[4 * at..4 * at + 4].copy_from_slice(&[r.x, r.y, r.width, r.height]);
}

// Writes the regions of work to the front of out, and counts their pixels. A region's words go by number: `zip` was tried, and
// the proof doesn't close.
fn put_band(work: &[u64], out: &mut [u32]) -> u64
    requires { (length work.now ≤ 32768) × (4 * length work.now ≤ length out.old) }
    ensures value { result ≡ Schedule.pixels_of (map Keys.from_yx work.now) }
    ensures out_after { out.new ≡ Schedule.words_of_regions (map Keys.from_yx work.now) ++ drop (4 * length work.now) out.old }
{
    let mut sum: u64 = 0;
    for (i, key) in work.iter().enumerate() {
        let r = compositor_bands::from_yx(*key);
        put_region(out, i, r);
        sum += r.area();
    }
    sum
}

// The regions of a screen for boxes of four edges each, as words at the front of out: x, y, width and height of each. None where
// out has no room for all of them: what it holds is then left open. The bands go by number, which gives the row that each begins at.
pub fn schedule(rects: &[f64], screen: Screen, work: &mut [u64], out: &mut [u32]) -> Option<Totals>
    requires sizes { fits screen ≡ true }
    requires n_in_bounds { length rects.now / 4 ≤ length work.old }
    ensures { Schedule.Answers (Schedule.schedule screen (Words.boxes_to rects.now (length rects.now / 4))) out.old result out.new }
{
    let room = out.len() / 4;
    let mut count: usize = 0;
    let mut pixels: u64 = 0;
    for j in 0..screen.band_count() {
        let band = band_at(screen, j * screen.band_height);
        let m = compositor_bands::schedule_band(rects, screen, band, work);
        if room - count < m {
            return None;
        }
        pixels += put_band(&work[..m], &mut out[4 * count..]);
        count += m;
    }
    Some(Totals {
        regions: count,
        pixels,
    })
}
