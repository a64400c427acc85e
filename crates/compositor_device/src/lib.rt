// Regions in whole device pixels, as dew's compositor has them: the conversion of a box to one, what two have in
// common, the least region over two, and the pixels of one.
#![tactic(auto)]

ghost use Rattle.std.specs.Prelude.{◌≡◌};
ghost use Rattle.compositor_device.specs.Region as Region;

use kurbo_geometry::Rect;

// An axis-aligned region in whole device pixels, x and y at the top left. No invariant: any four numbers make a region, and `Fit` in the
// type would ask it of all who make one.
#[derive(Clone, Copy, PartialEq, Eq, Debug)]
pub struct DeviceRegion {
    pub x: u32,
    pub y: u32,
    pub width: u32,
    pub height: u32,
}

// From column x up to column right and from row y up to row bottom, or nothing where that leaves no pixel.
#[tactic(auto, unfolding(crate::specs::Region::between))]
fn between(x: u32, y: u32, right: u32, bottom: u32) -> Option<DeviceRegion>
    ensures { result ≡ Region.between x y right bottom }
{
    if x < right && y < bottom {
        return Some(DeviceRegion {
            x,
            y,
            width: right - x,
            height: bottom - y,
        });
    }
    None
}

impl DeviceRegion {
    // The first column past the region.
    pub fn right(self) -> u32
        requires { Region.Fit self }
        ensures { result ≡ Region.right self }
    {
        self.x + self.width
    }

    // The first row below the region.
    pub fn bottom(self) -> u32
        requires { Region.Fit self }
        ensures { result ≡ Region.bottom self }
    {
        self.y + self.height
    }

    // The pixels of a screen that a box meets: its edges rounded outward and cut to the screen,
    // nothing where no pixel is left.
    #[tactic(auto, using(crate::proofs::Regions::low_cut))]
    pub fn from_logical(bounds: Rect, screen_width: u32, screen_height: u32) -> Option<DeviceRegion>
        ensures { result ≡ Region.from_logical bounds screen_width screen_height }
    {
        let x = base_floats::floor_to(bounds.x0, screen_width);
        let y = base_floats::floor_to(bounds.y0, screen_height);
        let right = base_floats::ceil_to(bounds.x1, screen_width);
        let bottom = base_floats::ceil_to(bounds.y1, screen_height);
        between(x, y, right, bottom)
    }

    // What both regions cover, or nothing.
    #[tactic(auto, unfolding(crate::specs::Region::intersect))]
    pub fn intersect(self, other: DeviceRegion) -> Option<DeviceRegion>
        requires fit { Region.Fit self }
        requires fit_2 { Region.Fit other }
        ensures { result ≡ Region.intersect self other }
    {
        let x = self.x.max(other.x);
        let y = self.y.max(other.y);
        let right = self.right().min(other.right());
        let bottom = self.bottom().min(other.bottom());
        between(x, y, right, bottom)
    }

    // The least region over both.
    #[tactic(auto, unfolding(crate::specs::Region::union))]
    pub fn union(self, other: DeviceRegion) -> DeviceRegion
        requires fit { Region.Fit self }
        requires fit_2 { Region.Fit other }
        ensures { result ≡ Region.union self other }
    {
        let x = self.x.min(other.x);
        let y = self.y.min(other.y);
        let right = self.right().max(other.right());
        let bottom = self.bottom().max(other.bottom());
        DeviceRegion {
            x,
            y,
            width: right - x,
            height: bottom - y,
        }
    }

    // How many pixels the region covers.
    pub fn area(self) -> u64
        ensures { result ≡ Region.area self }
    {
        self.width as u64 * self.height as u64
    }
}
