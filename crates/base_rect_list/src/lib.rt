// A list of boxes in lent space: four words a box, stored where there is room and always counted, so that a
// list that did not fit says how much room it wants.
#![tactic(auto)]

ghost use Rattle.std.specs.Prelude.{◌≡◌, [], ◌∷◌, ◌+◌, ◌^◌, ◌<◌};
ghost use Rattle.display_list_differences.specs.Differences.{list_of};
ghost use Rattle.base_rect_list.specs.Rects.{AddedTo};

use kurbo_geometry::Rect;

// The lent words, and how many boxes were appended: more than are stored, where they found no room. The count's bound stays a
// `requires`: a push moves it, so that no invariant keeps it.
#[derive(Debug, Drop)]
pub struct RectList<'a> {
    pub words: &'a mut [f64],
    pub count: usize,
}

impl<'a> RectList<'a> {
    // The list that holds nothing yet.
    pub fn new(words: &'a mut [f64]) -> RectList<'a>
        ensures { (result.words ≡ words.entry) × (result.count ≡ 0) }
    {
        RectList { words, count: 0 }
    }

    // Appends a box.
    pub fn push(&mut self, rect: Rect)
        requires { self.old.count < 2 ^ 63 }
        ensures { AddedTo 1 self.old (rect ∷ []) self.new }
    {
        if self.count < self.words.len() / 4 {
            base_rect_words::put_rect(self.words, 4 * self.count, rect);
        }
        self.count += 1;
    }

    // Appends the parts that were kept, in order.
    pub fn extend_parts(&mut self, parts: [Option<Rect>; 4])
        requires { self.old.count + 4 < 2 ^ 63 }
        ensures { AddedTo 4 self.old (list_of parts) self.new }
    {
        for rect in parts.into_iter().flatten() {
            self.push(rect);
        }
    }
}
