// Boxes in lent space: four words a box, its edges in the order x0, y0, x1, y1.
#![tactic(auto)]

ghost use Rattle.std.specs.Prelude.{◌≡◌, ◌+◌, ◌≤◌, length};
ghost use Rattle.base_rect_words.specs.Words as Words;

use kurbo_geometry::Rect;

// The box whose words begin at i.
pub fn rect_from(words: &[f64], i: usize) -> Rect
    requires { i + 4 ≤ length words.now }
    ensures { result ≡ Words.rect_from words.now i }
{
    Rect::from([words[i], words[i + 1], words[i + 2], words[i + 3]])
}

// Stores a box from i on.
#[tactic(auto, using(crate::proofs::Stores::stored_once))]
pub fn put_rect(words: &mut [f64], i: usize, rect: Rect)
    requires { i + 4 ≤ length words.old }
    ensures { words.new ≡ Words.put_rect words.old i rect }
{
    words[i..i + 4].copy_from_slice(&<[f64; 4]>::from(rect));
}
