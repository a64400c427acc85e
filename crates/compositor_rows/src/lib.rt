// Band rows: the exact row of a height. Every function has an answer for every f64 and every size.
#![tactic(auto)]

ghost use Rattle.std.specs.Prelude.{◌≡◌};
ghost use Rattle.compositor_rows.specs.Rows.{row_of, final_row};

// A band's height, and how many bands there are: the second is worked out once for all boxes.
#[derive(Clone, Copy, Debug, PartialEq, Eq)]
pub struct Rows {
    pub band_height: u32,
    pub count: u32,
}

impl Rows {
    // The band row that a height y falls in: y divided exactly by the band's height and rounded down, 0
    // where y is negative, at most the last row.
    pub fn row_of(self, y: f64) -> u32
        ensures { result ≡ row_of self.band_height self.count y }
    {
        if self.band_height == 0 || self.count == 0 {
            return 0;
        }
        let row = base_floats::floor_u64(y) / (self.band_height as u64);
        let last = self.count - 1;
        row.min(last as u64) as u32
    }

    // The last band row that a box with the high edge y has: the row of the next lower height.
    pub fn final_row(self, y: f64) -> u32
        ensures { result ≡ final_row self.band_height self.count y }
    {
        self.row_of(base_floats::next_down(y))
    }
}
