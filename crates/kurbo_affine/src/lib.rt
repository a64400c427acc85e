// Affine maps of boxes over f64: kurbo's, with document 01's meanings. Every function has an answer for
// every f64.
#![tactic(auto)]

ghost use Rattle.std.specs.Prelude.{◌≡◌};
ghost use Rattle.kurbo_affine.specs.Affines as Affines;

use kurbo_geometry::Rect;

#[derive(Clone, Copy, PartialEq, Debug)]
pub struct Point {
    pub x: f64,
    pub y: f64,
}

// The affine map of (x, y) to (a x + c y + e, b x + d y + f).
#[derive(Clone, Copy, PartialEq, Debug)]
pub struct Affine {
    pub a: f64,
    pub b: f64,
    pub c: f64,
    pub d: f64,
    pub e: f64,
    pub f: f64,
}

impl From<[f64; 6]> for Affine {
    ghost from_gives = { λ entries affine. affine ≡ Affines.of_entries entries };

    fn from([a, b, c, d, e, f]: [f64; 6]) -> Affine {
        Affine { a, b, c, d, e, f }
    }
}

// Least and greatest are two, as `base_floats::smaller` and `larger` are.
fn least(numbers: [f64; 4]) -> f64
    ensures { result ≡ Affines.of_numbers Affines.least numbers }
{
    let [p, q, r, s] = numbers;
    base_floats::smaller(base_floats::smaller(base_floats::smaller(p, q), r), s)
}

fn greatest(numbers: [f64; 4]) -> f64
    ensures { result ≡ Affines.of_numbers Affines.greatest numbers }
{
    let [p, q, r, s] = numbers;
    base_floats::larger(base_floats::larger(base_floats::larger(p, q), r), s)
}

// The least box over four points.
#[tactic(auto, unfolding(crate::specs::Affines::bounding_box))]
fn bounding_box(corners: [Point; 4]) -> Rect
    ensures { result ≡ Affines.of_points Affines.bounding_box corners }
{
    let xs = corners.map(|p| p.x);
    let ys = corners.map(|p| p.y);
    Rect {
        x0: least(xs),
        y0: least(ys),
        x1: greatest(xs),
        y1: greatest(ys),
    }
}

// Whether four points are finite, by one sum: a number less itself is 0, or a NaN where it is not finite, and a sum keeps a NaN. So
// there is one test, and not eight. The points are tested and not their box, since the larger and the smaller of two can hide a NaN.
#[tactic(auto, using(crate::proofs::Answers::sum_tells))]
fn all_finite(corners: [Point; 4]) -> bool
    ensures { result ≡ Affines.of_points Affines.all_finite corners }
{
    let [p, q, r, s] = corners;
    let x = (p.x - p.x) + (q.x - q.x) + (r.x - r.x) + (s.x - s.x);
    let y = (p.y - p.y) + (q.y - q.y) + (r.y - r.y) + (s.y - s.y);
    x + y == 0.0
}

impl Affine {
    pub fn transform_point(self, x: f64, y: f64) -> Point
        ensures { result ≡ Affines.transform_point self x y }
    {
        Point {
            x: self.a * x + self.c * y + self.e,
            y: self.b * x + self.d * y + self.f,
        }
    }

    // The corners of a box, transformed.
    fn corners(self, rect: Rect) -> [Point; 4]
        ensures { result ≡ Affines.corners self rect }
    {
        [
            self.transform_point(rect.x0, rect.y0),
            self.transform_point(rect.x1, rect.y0),
            self.transform_point(rect.x0, rect.y1),
            self.transform_point(rect.x1, rect.y1),
        ]
    }

    // The least box over the four transformed corners.
    #[tactic(auto, unfolding(crate::specs::Affines::transform_rect_bbox))]
    pub fn transform_rect_bbox(self, rect: Rect) -> Rect
        ensures { result ≡ Affines.transform_rect_bbox self rect }
    {
        bounding_box(self.corners(rect))
    }

    // Whether all four transformed corners are finite, where their box is not wanted.
    #[tactic(auto, unfolding(crate::specs::Affines::finite_corners))]
    pub fn finite_corners(self, rect: Rect) -> bool
        ensures { result ≡ Affines.finite_corners self rect }
    {
        all_finite(self.corners(rect))
    }

    // The same box; none where a corner is infinite or a NaN.
    #[tactic(auto, unfolding(crate::specs::Affines::try_transform, crate::specs::Affines::bound_finite))]
    pub fn try_transform(self, rect: Rect) -> Option<Rect>
        ensures { result ≡ Affines.try_transform self rect }
    {
        let corners = self.corners(rect);
        if all_finite(corners) {
            return Some(bounding_box(corners));
        }
        None
    }
}
