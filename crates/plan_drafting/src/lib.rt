// A draft in scratch: once its rectangles stand there, their regions and the index of the new strip's commands.
#![tactic(auto)]

ghost use Rattle.std.specs.Prelude.{◌≡◌, ◌/◌, ◌≤◌, length, true};
ghost use Rattle.compositor_screen.specs.Sizes.{fits};
ghost use Rattle.compositor_band_index.specs.Answer.{index_of, stored};
ghost use Rattle.plan_drafting.specs.Drafted.{draft_in, rooms, indexed, judged, WrittenIf, Ready};

use base_refusals::{Fault, Refusal};
use compositor_scheduler::Totals;
use compositor_screen::Screen;
use plan_answers::{Plan, Room};
use runtime::FrameWork;

// The index of the commands that have these boxes, for a frame whose regions are scheduled. `spans` is scratch, a number for
// each command. What a plan counts, and the spaces lent for the index, are of kinds of their own: a struct of them would serve this call
// alone.
fn index_draft(
    screen: Screen,
    room: usize,
    boxes: &[f64],
    rects: usize,
    totals: Totals,
    spans: &mut [u64],
    words: &mut [u32],
) -> Result<Plan, Refusal>
    requires { (fits screen ≡ true) × (length boxes.now / 4 ≤ 4096) × (room ≤ length words.old) × (length boxes.now / 4 ≤ length spans.old) }
    ensures answer { result ≡ indexed (index_of boxes.now (length boxes.now / 4) screen) room rects (length boxes.now / 4) totals.regions totals.pixels }
    ensures held { words.new ≡ stored (index_of boxes.now (length boxes.now / 4) screen) words.old }
{
    let count = compositor_band_index::build(boxes, screen, spans, words).ok_or(Fault::NoRoom.at(
        0,
    ))?;
    if room < count {
        return Err(Fault::NoRoom.at(0));
    }
    Ok(Plan {
        rects,
        words: count,
        work: FrameWork::of(boxes.len() / 4, totals.regions, totals.pixels),
    })
}

// The plan of the first n rectangles and of the commands that have these boxes, in scratch: regions and index words in front of the
// space lent for them; `work` and `spans` are scratch, all slices as C lends them. The rectangles keep their number beside them: where they do not fit,
// there are more than the slice holds.
pub fn draft(
    screen: Screen,
    room: Room,
    boxes: &[f64],
    rects: &[f64],
    n: usize,
    work: &mut [u64],
    spans: &mut [u64],
    regions: &mut [u32],
    words: &mut [u32],
) -> Result<Plan, Refusal>
    requires { Ready screen rects.now (length boxes.now / 4) work.old spans.old regions.old words.old (rooms room.rects room.regions room.words) }
    ensures answer { result ≡ judged (rooms room.rects room.regions room.words) (draft_in screen rects.now n boxes.now 0 (length boxes.now / 4)) }
    ensures stands { WrittenIf result (draft_in screen rects.now n boxes.now 0 (length boxes.now / 4)) rects.now regions.new words.new }
{
    if room.rects < n {
        return Err(Fault::NoRoom.at(0));
    }
    let scheduled = compositor_scheduler::schedule(&rects[..4 * n], screen, work, regions);
    let totals = scheduled.ok_or(Fault::NoRoom.at(0))?;
    if room.regions < totals.regions {
        return Err(Fault::NoRoom.at(0));
    }
    index_draft(screen, room.words, boxes, n, totals, spans, words)
}
