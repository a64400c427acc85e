// The planner for C and Rust: `planner`'s two entries and `candidates`, exported under C's names. A slice passes as a pointer and a
// length; an answer is document 01's number, with the rest of it as words in lent space. bindings/c/sovdringa.h declares these
// functions for C. The two entries stay two functions, and each slice a parameter, since these are C's names and C lends each alone.
#![tactic(auto)]

ghost use Rattle.std.specs.Prelude.{◌≡◌};
ghost use Rattle.plan_answers.specs.Drafts.{first_outcome, next_outcome};
ghost use Rattle.planner.specs.Calls.{slices};
ghost use Rattle.compositor_candidates.specs.Table as Table;
ghost use Rattle.plan_answer_words.specs.Words.{overwritten, part_words};
ghost use Rattle.sovdringa.specs.Calls.{Exported};
ghost use Rattle.compositor_screen.specs.Sizes as Sizes;

use compositor_screen::Screen;
use planner::Entry;

// A first frame: header and one strip. Any bytes and any lent space will do.
#[unsafe(no_mangle)]
pub extern "C" fn sovdringa_plan_first(
    input: &[u8],
    rects: &mut [f64],
    regions: &mut [u32],
    words: &mut [u32],
    boxes: &mut [f64],
    below: &mut [u64],
    items: &mut [u64],
    item_boxes: &mut [f64],
    glyph_items: &mut [u64],
    draft_rects: &mut [f64],
    work: &mut [u64],
    spare: &mut [u64],
    draft_regions: &mut [u32],
    draft_words: &mut [u32],
    answer: &mut [u64],
) -> u32
    ensures { Exported (first_outcome input.now)
        (slices
        rects.old regions.old words.old
        boxes.old below.old items.old item_boxes.old glyph_items.old draft_rects.old work.old spare.old draft_regions.old draft_words.old)
        (slices
        rects.new regions.new words.new
        boxes.new below.new items.new item_boxes.new glyph_items.new draft_rects.new work.new spare.new draft_regions.new draft_words.new)
        answer.old answer.new result }
{
    let plan = planner::plan(
        Entry::First,
        input,
        rects,
        regions,
        words,
        boxes,
        below,
        items,
        item_boxes,
        glyph_items,
        draft_rects,
        work,
        spare,
        draft_regions,
        draft_words,
    );
    plan_answer_words::put_plan(plan, answer)
}

// A frame after another: header, the last accepted strip and the new one. Any bytes and any lent space will do.
#[unsafe(no_mangle)]
pub extern "C" fn sovdringa_plan_next(
    input: &[u8],
    rects: &mut [f64],
    regions: &mut [u32],
    words: &mut [u32],
    boxes: &mut [f64],
    below: &mut [u64],
    items: &mut [u64],
    item_boxes: &mut [f64],
    glyph_items: &mut [u64],
    draft_rects: &mut [f64],
    work: &mut [u64],
    spare: &mut [u64],
    draft_regions: &mut [u32],
    draft_words: &mut [u32],
    answer: &mut [u64],
) -> u32
    ensures { Exported (next_outcome input.now)
        (slices
        rects.old regions.old words.old
        boxes.old below.old items.old item_boxes.old glyph_items.old draft_rects.old work.old spare.old draft_regions.old draft_words.old)
        (slices
        rects.new regions.new words.new
        boxes.new below.new items.new item_boxes.new glyph_items.new draft_rects.new work.new spare.new draft_regions.new draft_words.new)
        answer.old answer.new result }
{
    let plan = planner::plan(
        Entry::Next,
        input,
        rects,
        regions,
        words,
        boxes,
        below,
        items,
        item_boxes,
        glyph_items,
        draft_rects,
        work,
        spare,
        draft_regions,
        draft_words,
    );
    plan_answer_words::put_plan(plan, answer)
}

// Where the row of region y begins and ends among the index words. Any numbers and any words will do.
#[unsafe(no_mangle)]
pub extern "C" fn sovdringa_candidates(
    width: u32,
    height: u32,
    band_height: u32,
    y: u32,
    words: &[u32],
    part: &mut [u64],
) -> u32
    ensures number { result ≡ Table.refusal (Sizes.screen width height band_height) y words.now }
    ensures row { part.new ≡ overwritten (part_words (Table.find (Sizes.screen width height band_height) y words.now)) part.old }
{
    let screen = Screen {
        width,
        height,
        band_height,
    };
    let found = compositor_candidates::find(screen, y, words);
    plan_answer_words::put_part(found, part)
}
