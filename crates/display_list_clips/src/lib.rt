// Numbered clips in lent space, dew's `Arc<[ClipRegion]>`: a clip is its own box, the box of all clips up to
// it, and the number of the one below. Numbers count from 1; 0 is none, and no Option, since lent words hold numbers alone. Boxes and
// numbers are two slices, as C lends them. A number is bound to a slice that another type holds, so that its bound stays a `requires`.
#![tactic(auto)]

ghost use Rattle.std.specs.Prelude.{◌≡◌, ◌*◌, ◌≤◌, ◌<◌, length, set};
ghost use Rattle.display_list_operand_equality.specs.Operands.{same_clips};
ghost use Rattle.display_list_clips.specs.Chains as Chains;

use kurbo_geometry::Rect;

// The box of all clips up to a number; none where no clip is open.
#[tactic(auto, unfolding(crate::specs::Chains::all_up_to))]
fn box_of_all(boxes: &[f64], number: u64) -> Option<Rect>
    requires { 8 * number ≤ length boxes.now }
    ensures { result ≡ Chains.all_up_to boxes.now number }
{
    match number {
        0 => None,
        x => Some(base_rect_words::rect_from(boxes, 8 * (x as usize - 1) + 4)),
    }
}

// A box cut by all clips up to a number.
#[tactic(auto, unfolding(crate::specs::Chains::clip_rect, crate::specs::Chains::all_up_to))]
pub fn clip_rect(boxes: &[f64], number: u64, rect: Rect) -> Rect
    requires { 8 * number ≤ length boxes.now }
    ensures { result ≡ Chains.clip_rect boxes.now number rect }
{
    box_of_all(boxes, number).map_or(rect, |all| rect.intersect(all))
}

// The box of all clips for one more on top of a number: not `clip_rect`, whose box comes first, since the order decides which zero or NaN stays.
#[tactic(auto, unfolding(crate::specs::Chains::all_with, crate::specs::Chains::all_up_to))]
fn all_with(boxes: &[f64], top: u64, rect: Rect) -> Rect
    requires { 8 * top ≤ length boxes.now }
    ensures { result ≡ Chains.all_with boxes.now top rect }
{
    box_of_all(boxes, top).map_or(rect, |all| all.intersect(rect))
}

// Stores the clip after n others, on top of a number.
#[tactic(auto, unfolding(crate::specs::Chains::put_clip))]
pub fn put_clip(boxes: &mut [f64], below: &mut [u64], n: usize, top: u64, rect: Rect)
    requires { Chains.Room n top boxes.old below.old }
    ensures held { boxes.new ≡ Chains.put_clip boxes.old n top rect }
    ensures under { below.new ≡ set below.old n top }
{
    let at = 8 * n;
    let all = all_with(boxes, top, rect);
    base_rect_words::put_rect(boxes, at, rect);
    base_rect_words::put_rect(boxes, at + 4, all);
    below[n] = top;
}

// Whether the clips up to two numbers are equal as lists of boxes, by value. The walk ends at the first level
// that differs.
pub fn same_clips(boxes: &[f64], below: &[u64], one: u64, other: u64) -> bool
    requires { Chains.Rooted boxes.now below.now one other }
    ensures { result ≡ same_clips (Chains.chain boxes.now below.now one) (Chains.chain boxes.now below.now other) }
{
    // Document 01 names the form: a labelled loop over both chains, broken off at the first unequal level. A clip names the one below it by its
    // number, since lent space holds no pointers.
    let mut x = one as usize;
    let mut y = other as usize;
    'walk: loop {
        if x == 0 || y == 0 {
            break 'walk x == 0 && y == 0;
        }
        let clip = base_rect_words::rect_from(boxes, 8 * (x - 1));
        let other_clip = base_rect_words::rect_from(boxes, 8 * (y - 1));
        if !clip.same_edges(other_clip) {
            break 'walk false;
        }
        x = below[x - 1] as usize;
        y = below[y - 1] as usize;
    }
}
