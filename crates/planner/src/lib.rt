// The planner: a plan of the first frame, or of what changed since the last one. Everything is worked out in scratch, published only
// where the whole plan fits, and the scratch is cleared. What is lent stays slices throughout, for the reason that stands at `plan`.
#![tactic(auto)]

ghost use Rattle.std.specs.Prelude.{◌≡◌, ◌++◌, ◌/◌, min, length, take, drop};
ghost use Rattle.plan_answers.specs.Space.{lent_of};
ghost use Rattle.plan_answers.specs.Answers as Answers;
ghost use Rattle.plan_answers.specs.Drafts.{outcome};
ghost use Rattle.planner.specs.Calls.{slices, Promise, rect_count, region_count, word_count, Copies, Zeros, ZeroFloats};

use base_refusals::Refusal;
use plan_answers::{Plan, Room};
pub use strip_frame::Entry;

// How many rectangles are lent, in the output and in scratch, with a working region each.
fn rect_room(rects: &[f64], draft_rects: &[f64], work: &[u64], spare: &[u64]) -> usize
    ensures { result ≡ min (min (length rects.now / 4) (length draft_rects.now / 4)) (min (length work.now) (length spare.now)) }
{
    let listed = (rects.len() / 4).min(draft_rects.len() / 4);
    let worked = work.len().min(spare.len());
    listed.min(worked)
}

// Copies a plan that was accepted from scratch to the output, each three slices as they were lent.
fn publish(
    plan: Result<Plan, Refusal>,
    draft_rects: &[f64],
    draft_regions: &[u32],
    draft_words: &[u32],
    rects: &mut [f64],
    regions: &mut [u32],
    words: &mut [u32],
)
    requires { Copies plan draft_rects.now draft_regions.now draft_words.now rects.old regions.old words.old }
    ensures rectangles { rects.new ≡ take (rect_count plan) draft_rects.now ++ drop (rect_count plan) rects.old }
    ensures scheduled { regions.new ≡ take (region_count plan) draft_regions.now ++ drop (region_count plan) regions.old }
    ensures index { words.new ≡ take (word_count plan) draft_words.now ++ drop (word_count plan) words.old }
{
    let Ok(accepted) = plan else {
        return;
    };
    let region_count = accepted.work.regions_transferred as usize;
    base_lists::copy_front(draft_rects, 4 * accepted.rects, rects);
    base_lists::copy_front(draft_regions, 4 * region_count, regions);
    base_lists::copy_front(draft_words, accepted.words, words);
}

// The scratch is cleared in two functions of five slices, of which no two lists are alike.
fn clear_lists(
    boxes: &mut [f64],
    below: &mut [u64],
    items: &mut [u64],
    item_boxes: &mut [f64],
    glyph_items: &mut [u64],
)
    ensures { (ZeroFloats boxes.old boxes.new) × (Zeros below.old below.new) × (Zeros items.old items.new) × (ZeroFloats item_boxes.old item_boxes.new)
        × (Zeros glyph_items.old glyph_items.new) }
{
    boxes.fill(0.0);
    below.fill(0);
    items.fill(0);
    item_boxes.fill(0.0);
    glyph_items.fill(0);
}

fn clear_draft(
    rects: &mut [f64],
    work: &mut [u64],
    spare: &mut [u64],
    regions: &mut [u32],
    words: &mut [u32],
)
    ensures { (ZeroFloats rects.old rects.new) × (Zeros work.old work.new) × (Zeros spare.old spare.new) × (Zeros regions.old regions.new)
        × (Zeros words.old words.new) }
{
    rects.fill(0.0);
    work.fill(0);
    spare.fill(0);
    regions.fill(0);
    words.fill(0);
}

// The plan that the entry makes of its input: of a first frame, header and one strip; of a frame after another, header, the last accepted
// strip and the new one. Any bytes and any lent space will do. The thirteen lent slices stay parameters: C lends them one by one, and a
// slice of a Vec that is put in a struct, or lent through one of several `&mut` fields, loses its elements for the prover.
#[tactic(auto, using(plan_answers::proofs::Answers::answered))]
pub fn plan(
    entry: Entry,
    input: &[u8],
    rects: &mut [f64],
    regions: &mut [u32],
    words: &mut [u32],
    boxes: &mut [f64],
    below: &mut [u64],
    items: &mut [u64],
    item_boxes: &mut [f64],
    glyph_items: &mut [u64],
    draft_rects: &mut [f64],
    work: &mut [u64],
    spare: &mut [u64],
    draft_regions: &mut [u32],
    draft_words: &mut [u32],
) -> Result<Plan, Refusal>
    ensures { Promise (outcome entry input.now)
        (slices
        rects.old regions.old words.old
        boxes.old below.old items.old item_boxes.old glyph_items.old draft_rects.old work.old spare.old draft_regions.old draft_words.old)
        (slices
        rects.new regions.new words.new
        boxes.new below.new items.new item_boxes.new glyph_items.new draft_rects.new work.new spare.new draft_regions.new draft_words.new)
        result }
{
    let room = Room {
        rects: rect_room(rects, draft_rects, work, spare),
        regions: (regions.len() / 4).min(draft_regions.len() / 4),
        words: words.len().min(draft_words.len()),
    };
    let plan = plan_frame_drafts::draft_frame(
        entry,
        input,
        room,
        boxes,
        below,
        items,
        item_boxes,
        glyph_items,
        draft_rects,
        work,
        draft_regions,
        draft_words,
    );
    publish(
        plan,
        draft_rects,
        draft_regions,
        draft_words,
        rects,
        regions,
        words,
    );
    clear_lists(boxes, below, items, item_boxes, glyph_items);
    clear_draft(draft_rects, work, spare, draft_regions, draft_words);
    plan
}
