// Dew's `rect_difference`: what one box leaves of another, as at most four boxes.
#![tactic(auto)]

ghost use Rattle.std.specs.Prelude.{◌≡◌};
ghost use Rattle.display_list_differences.specs.Differences as Differences;

use kurbo_geometry::Rect;

// The box, if it has an area.
#[tactic(auto, unfolding(crate::specs::Differences::keep))]
fn keep(rect: Rect) -> Option<Rect>
    ensures { result ≡ Differences.keep rect }
{
    rect.positive_area().then_some(rect)
}

// What is left of a box around an overlap: above it, below it, left of it and right of it.
#[tactic(auto, unfolding(crate::specs::Differences::around))]
fn around(rect: Rect, overlap: Rect) -> [Option<Rect>; 4]
    ensures { result ≡ Differences.around rect overlap }
{
    let top = Rect {
        x0: rect.x0,
        y0: rect.y0,
        x1: rect.x1,
        y1: overlap.y0,
    };
    let bottom = Rect {
        x0: rect.x0,
        y0: overlap.y1,
        x1: rect.x1,
        y1: rect.y1,
    };
    let left = Rect {
        x0: rect.x0,
        y0: overlap.y0,
        x1: overlap.x0,
        y1: overlap.y1,
    };
    let right = Rect {
        x0: overlap.x1,
        y0: overlap.y0,
        x1: rect.x1,
        y1: overlap.y1,
    };
    [keep(top), keep(bottom), keep(left), keep(right)]
}

// What is left of a box outside another; all of it where the two have no area in common. It is dew's list of at
// most four boxes, by value: none is what has no area.
#[tactic(auto, using(crate::proofs::Answers::parted, crate::proofs::Answers::apart))]
pub fn rect_difference(rect: Rect, subtract: Rect) -> [Option<Rect>; 4]
    ensures { Differences.list_of result ≡ Differences.rect_difference rect subtract }
{
    let overlap = rect.intersect(subtract);
    if overlap.positive_area() {
        return around(rect, overlap);
    }
    [keep(rect), None, None, None]
}
