// A screen and the bands that it is drawn in: the three sizes of an input's header.
#![tactic(auto)]

ghost use Rattle.std.specs.Prelude.{◌≡◌, ◌<◌};
ghost use Rattle.compositor_rows.specs.Rows.{row_count};
ghost use Rattle.compositor_screen.specs.Sizes as Sizes;

// How wide and how high a screen is, and how high each of its bands, of which the last may be cut. No invariant: a header may have any
// three sizes, and `fits` tells.
#[derive(Clone, Copy, Debug, PartialEq, Eq)]
pub struct Screen {
    pub width: u32,
    pub height: u32,
    pub band_height: u32,
}

#[tactic(auto, unfolding(crate::specs::Sizes::size_fits))]
fn size_fits(n: u32) -> bool
    ensures { result ≡ Sizes.size_fits n }
{
    n != 0 && n <= 32768
}

impl Screen {
    // Whether each size is from 1 to 32,768.
    pub fn fits(self) -> bool
        ensures { result ≡ Sizes.fits self }
    {
        size_fits(self.width) && size_fits(self.height) && size_fits(self.band_height)
    }

    // How many bands there are.
    pub fn band_count(self) -> u32
        requires { 0 < self.band_height }
        ensures { result ≡ row_count self.height self.band_height }
    {
        self.height.div_ceil(self.band_height)
    }
}
