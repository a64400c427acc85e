// Dew's `DisplayList` as a state by value over lent space: what is pushed is stored where there is room and
// counted everywhere, and each step hands the state back. The slices are those that C lends, one by one: no struct holds them.
#![tactic(auto)]

ghost use Rattle.std.specs.Prelude.{◌≡◌, ◌*◌, ◌^◌, ◌≤◌, ◌<◌, length};
ghost use Rattle.display_list.specs.Lists as Lists;

use kurbo_affine::Affine;
use kurbo_geometry::Rect;

// How many clips and commands were pushed, the number of the innermost open clip (0 is none, as in `display_list_clips`), and how many
// clips are open.
#[derive(Clone, Copy, PartialEq, Eq, Debug)]
pub struct ListState {
    pub clips: usize,
    pub top: u64,
    pub depth: u64,
    pub commands: usize,
}

// A glyph's box in the window: transformed, and cut by the clips up to a number.
#[tactic(auto, unfolding(crate::specs::Lists::window_glyph_bounds))]
pub fn window_glyph_bounds(boxes: &[f64], number: u64, transform: Affine, bounds: Rect) -> Rect
    requires { 8 * number ≤ length boxes.now }
    ensures { result ≡ Lists.window_glyph_bounds boxes.now number transform bounds }
{
    display_list_clips::clip_rect(boxes, number, transform.transform_rect_bbox(bounds))
}

impl ListState {
    // Whether a clip more can be stored, on top of the innermost open one.
    #[tactic(auto, unfolding(crate::specs::Lists::clip_room))]
    fn clip_room(self, boxes: &[f64], below: &[u64]) -> bool
        ensures { result ≡ Lists.clip_room self.clips self.top (length boxes.now) (length below.now) }
    {
        self.top as usize <= self.clips && self.clips < below.len() && self.clips < boxes.len() / 8
    }

    // Whether a command more can be stored.
    #[tactic(auto, unfolding(crate::specs::Lists::command_room))]
    fn command_room(self, items: &[u64], item_boxes: &[f64]) -> bool
        ensures { result ≡ Lists.command_room self.commands (length items.now) (length item_boxes.now) }
    {
        self.commands < items.len() / 2 && self.commands < item_boxes.len() / 4
    }

    // A box cut by the open clips, or as it is where there was no room for them.
    #[tactic(auto, unfolding(crate::specs::Lists::open_rect))]
    pub fn clip_rect(self, boxes: &[f64], rect: Rect) -> Rect
        ensures { result ≡ Lists.open_rect self boxes.now rect }
    {
        if self.top as usize <= boxes.len() / 8 {
            return display_list_clips::clip_rect(boxes, self.top, rect);
        }
        rect
    }

    // Opens a clip.
    #[tactic(auto, using(crate::proofs::Rooms::clip_fits), unfolding(crate::specs::Lists::clip_boxes, crate::specs::Lists::clip_numbers))]
    pub fn push_clip(mut self, boxes: &mut [f64], below: &mut [u64], rect: Rect) -> ListState
        requires { (self.clips < 2 ^ 63) × (self.depth < 2 ^ 63) }
        ensures list { result ≡ Lists.pushed_clip self }
        ensures held { boxes.new ≡ Lists.clip_boxes self boxes.old below.old rect }
        ensures under { below.new ≡ Lists.clip_numbers self boxes.old below.old }
    {
        if self.clip_room(boxes, below) {
            display_list_clips::put_clip(boxes, below, self.clips, self.top, rect);
        }
        self.clips += 1;
        self.top = self.clips as u64;
        self.depth += 1;
        self
    }

    // Closes the innermost clip, where one is open.
    #[tactic(auto, unfolding(crate::specs::Lists::popped_clip))]
    pub fn pop_clip(mut self, below: &[u64]) -> ListState
        ensures { result ≡ Lists.popped_clip self below.now }
    {
        if self.depth == 0 {
            return self;
        }
        self.depth -= 1;
        let top = self.top as usize;
        self.top = if top != 0 && top <= below.len() {
            below[top - 1]
        } else {
            0
        };
        self
    }

    // Appends a command, given by where its bytes begin, under the open clips.
    #[tactic(auto, unfolding(crate::specs::Lists::item_words, crate::specs::Lists::item_boxes, crate::specs::Lists::put_item))]
    pub fn push(
        mut self,
        items: &mut [u64],
        item_boxes: &mut [f64],
        offset: usize,
        bounds: Rect,
    ) -> ListState
        requires { self.commands < 2 ^ 63 }
        ensures list { result ≡ Lists.pushed self }
        ensures held { items.new ≡ Lists.item_words self items.old item_boxes.old offset }
        ensures boxed { item_boxes.new ≡ Lists.item_boxes self items.old item_boxes.old bounds }
    {
        #[tactic(auto, using(crate::proofs::Rooms::command_fits))]
        if self.command_room(items, item_boxes) {
            let m = self.commands;
            items[2 * m] = offset as u64;
            items[2 * m + 1] = self.top;
            base_rect_words::put_rect(item_boxes, 4 * m, bounds);
        }
        self.commands += 1;
        self
    }
}
