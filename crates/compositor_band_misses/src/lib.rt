// A box told from a band by its edges as they are: most boxes have no row of most bands, and to convert them only to find
// that out costs more than two comparisons.
#![tactic(auto)]

ghost use Rattle.std.specs.Prelude.{◌≡◌, false};
ghost use Rattle.compositor_device.specs.Region as Region;
ghost use Rattle.compositor_band_misses.specs.Misses.{Misses};

use compositor_device::DeviceRegion;
use kurbo_geometry::Rect;

// False only where no row of the box is one of the band. A box with a NaN for an edge may get true all the same. Both tests are worked out
// and joined without a branch, since boxes come in any order and which of them misses cannot be foreseen.
pub fn meeting(rect: Rect, band: DeviceRegion) -> bool
    requires { Region.Fit band }
    ensures { result ≡ false → Misses rect band }
{
    let end = band.bottom();
    let reaches = f64::from(band.y) < rect.y1;
    let below = f64::from(end) <= rect.y0;
    reaches & !below
}
