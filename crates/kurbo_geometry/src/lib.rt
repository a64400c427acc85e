// Boxes over f64 and the pixels that they touch: kurbo's rectangles with document 01's meanings. Every
// function has an answer for every f64.
#![tactic(auto)]

ghost use Rattle.std.specs.Prelude.{◌≡◌};
ghost use Rattle.kurbo_geometry.specs.Boxes as Boxes;

// A box: two low edges, two high edges. It may be reversed.
#[derive(Clone, Copy, PartialEq, Debug)]
pub struct Rect {
    pub x0: f64,
    pub y0: f64,
    pub x1: f64,
    pub y1: f64,
}

impl From<[f64; 4]> for Rect {
    ghost from_gives = { λ edges rect. rect ≡ Boxes.of_edges edges };

    fn from([x0, y0, x1, y1]: [f64; 4]) -> Rect {
        Rect { x0, y0, x1, y1 }
    }
}

impl From<Rect> for [f64; 4] {
    ghost from_gives = { λ rect edges. edges ≡ Boxes.edges rect };

    fn from(rect: Rect) -> [f64; 4] {
        [rect.x0, rect.y0, rect.x1, rect.y1]
    }
}

impl Rect {
    // What both boxes cover; an empty box at the larger low edges where that is nothing.
    pub fn intersect(self, other: Rect) -> Rect
        ensures { result ≡ Boxes.intersect self other }
    {
        let x0 = base_floats::larger(self.x0, other.x0);
        let y0 = base_floats::larger(self.y0, other.y0);
        Rect {
            x0,
            y0,
            x1: base_floats::larger(base_floats::smaller(self.x1, other.x1), x0),
            y1: base_floats::larger(base_floats::smaller(self.y1, other.y1), y0),
        }
    }

    // The least box over both, edge by edge.
    pub fn union(self, other: Rect) -> Rect
        ensures { result ≡ Boxes.union self other }
    {
        Rect {
            x0: base_floats::smaller(self.x0, other.x0),
            y0: base_floats::smaller(self.y0, other.y0),
            x1: base_floats::larger(self.x1, other.x1),
            y1: base_floats::larger(self.y1, other.y1),
        }
    }

    // The box grown by width to the left and right and by height above and below.
    pub fn inflate(self, width: f64, height: f64) -> Rect
        ensures { result ≡ Boxes.inflate self width height }
    {
        Rect {
            x0: self.x0 - width,
            y0: self.y0 - height,
            x1: self.x1 + width,
            y1: self.y1 + height,
        }
    }

    #[tactic(auto, unfolding(crate::specs::Boxes::positive_area))]
    pub fn positive_area(self) -> bool
        ensures { result ≡ Boxes.positive_area self }
    {
        self.x0 < self.x1 && self.y0 < self.y1
    }

    // Whether the edges are equal as numbers: 0 and -0 are.
    #[tactic(auto, unfolding(crate::specs::Boxes::same_edges))]
    pub fn same_edges(self, other: Rect) -> bool
        ensures { result ≡ Boxes.same_edges self other }
    {
        self == other
    }
}
