// The entries as the two panels call them: what a call answers and leaves in its slices is what the planner of crate `panels` says, for which both
// panels are proved to agree.
#![tactic(auto)]

ghost use Rattle.planner.specs.Calls.{slices};
ghost use Rattle.panels_calls.specs.Calls.{CalledAs};

use base_refusals::Refusal;
use plan_answers::Plan;
use planner::Entry;

// A first frame, header and strip, or a frame after an accepted one: header, last accepted strip and strip. Any bytes and any lent
// space will do. The slices are parameters as those of `planner::plan` are.
pub fn frame(
    entry: Entry,
    input: &[u8],
    rects: &mut [f64],
    regions: &mut [u32],
    words: &mut [u32],
    boxes: &mut [f64],
    below: &mut [u64],
    items: &mut [u64],
    item_boxes: &mut [f64],
    glyph_items: &mut [u64],
    draft_rects: &mut [f64],
    work: &mut [u64],
    spare: &mut [u64],
    draft_regions: &mut [u32],
    draft_words: &mut [u32],
) -> Result<Plan, Refusal>
    ensures { CalledAs entry input.now
        (slices
        rects.old regions.old words.old
        boxes.old below.old items.old item_boxes.old glyph_items.old draft_rects.old work.old spare.old draft_regions.old draft_words.old)
        (slices
        rects.new regions.new words.new
        boxes.new below.new items.new item_boxes.new glyph_items.new draft_rects.new work.new spare.new draft_regions.new draft_words.new)
        result }
{
    planner::plan(
        entry,
        input,
        rects,
        regions,
        words,
        boxes,
        below,
        items,
        item_boxes,
        glyph_items,
        draft_rects,
        work,
        spare,
        draft_regions,
        draft_words,
    )
}
