// A whole input drafted in scratch: header and strips are read, the items they take are judged, and what changed, its regions and
// its index are worked out.
#![tactic(auto)]

ghost use Rattle.std.specs.Prelude.{◌≡◌, ℕ, min};
ghost use Rattle.strip_recording.specs.Recorded.{space};
ghost use Rattle.strip_frame.specs.Frame.{strips_of};
ghost use Rattle.plan_answers.specs.Drafts.{screen_rect, on_strips, outcome};
ghost use Rattle.plan_answers.specs.Answers.{items_fit, answer_of};
ghost use Rattle.plan_frame_drafts.specs.Scratch.{lent_scratch, Roomy, WrittenFor};
ghost use Rattle.plan_frame_drafts.specs.Listing.{Lists};
ghost use Rattle.plan_frame_drafts.specs.Counts.{counted};

use base_rect_list::RectList;
use base_refusals::{Fault, Refusal};
use compositor_screen::Screen;
use kurbo_geometry::Rect;
use plan_answers::{Plan, Room};
use runtime::ListSpace;
use strip_frame::{Entry, Strips};

// How many items the strips of an input have.
#[derive(Clone, Copy, Debug, PartialEq, Eq)]
pub struct Items {
    pub commands: u64,
    pub glyphs: u64,
    pub clips: u64,
}

// What both strips have together. A strip that was read has at most 4,096 commands, 4,096 clips and 16,384 glyphs, so that no sum saturates.
impl From<Strips> for Items {
    ghost from_gives = { λ strips items. items ≡ counted strips };

    fn from(strips: Strips) -> Items {
        let Strips { old, new } = strips;
        Items {
            commands: old.commands.saturating_add(new.commands),
            glyphs: old.glyphs.saturating_add(new.glyphs),
            clips: old.clips.saturating_add(new.clips),
        }
    }
}

// What a draft is made of: the new strip's commands, from place `first` on, and the first n rectangles of scratch, of which there may be
// more than it holds.
#[derive(Clone, Copy, Debug, PartialEq, Eq)]
struct Changed {
    first: usize,
    commands: usize,
    n: usize,
}

// Whether scratch holds so many items. Its slices stay slices, as C lends them.
#[tactic(auto, unfolding(plan_answers::specs::Answers::items_fit))]
fn items_fit(
    count: Items,
    boxes: &[f64],
    below: &[u64],
    items: &[u64],
    item_boxes: &[f64],
    glyph_items: &[u64],
) -> bool
    ensures { result
        ≡ items_fit (lent_scratch boxes.now below.now items.now item_boxes.now glyph_items.now 0 0 0)
        (record { commands = count.commands; glyphs = count.glyphs; clips = count.clips }) }
{
    let command_room = (items.len() / 2).min(item_boxes.len() / 4) as u64;
    let glyph_room = glyph_items.len() as u64;
    let clip_room = (boxes.len() / 8).min(below.len()) as u64;
    count.commands <= command_room && count.glyphs <= glyph_room && count.clips <= clip_room
}

fn screen_rect(screen: Screen) -> Rect
    ensures { result ≡ screen_rect screen }
{
    Rect {
        x0: 0.0,
        y0: 0.0,
        x1: f64::from(screen.width),
        y1: f64::from(screen.height),
    }
}

// The new strip's commands stand behind the old one's, of which a first frame has none. Its one rectangle is the whole screen, and a later
// frame's are what changed between the two strips. The slices stay slices, for `draft_frame`'s reason.
fn list_frame(
    entry: Entry,
    s: &[u8],
    screen: Screen,
    boxes: &mut [f64],
    below: &mut [u64],
    items: &mut [u64],
    item_boxes: &mut [f64],
    glyph_items: &[u64],
    rects: &mut [f64],
) -> Result<Changed, Refusal>
    ensures { Lists screen (on_strips entry screen s.now (strips_of entry s.now)) (space boxes.old below.old items.old item_boxes.old) glyph_items.now rects.old
        rects.new items.new item_boxes.new result }
{
    let both = strip_recording::record_strips(entry, s, boxes, below, items, item_boxes)?;
    let count = Items::from(both);
    if !items_fit(count, boxes, below, items, item_boxes, glyph_items) {
        return Err(Fault::NoRoom.at(0));
    }
    let first = both.old.commands as usize;
    let commands = both.new.commands as usize;
    let n = match entry {
        Entry::First => {
            let mut list = RectList::new(rects);
            list.push(screen_rect(screen));
            list.count
        }
        Entry::Next => {
            let lists = ListSpace {
                bytes: s,
                boxes,
                below,
                items,
                item_boxes,
            };
            lists.diff_dirty(first, commands, rects)
        }
    };
    Ok(Changed { first, commands, n })
}

// Header and strips, and their draft. The scratch stays slices: a struct of several that are lent anew at once is not covered by the
// prover.
pub fn draft_frame(
    entry: Entry,
    s: &[u8],
    room: Room,
    boxes: &mut [f64],
    below: &mut [u64],
    items: &mut [u64],
    item_boxes: &mut [f64],
    glyph_items: &[u64],
    rects: &mut [f64],
    work: &mut [u64],
    regions: &mut [u32],
    words: &mut [u32],
) -> Result<Plan, Refusal>
    requires { Roomy rects.old work.old regions.old words.old room.rects room.regions room.words }
    ensures answer { result
        ≡ answer_of (lent_scratch boxes.old below.old items.old item_boxes.old glyph_items.now room.rects room.regions room.words) (outcome entry s.now) }
    ensures stands { WrittenFor result (outcome entry s.now) rects.new regions.new words.new }
{
    let screen = strip_frame::read_header(s)?;
    let changed = list_frame(
        entry,
        s,
        screen,
        boxes,
        below,
        items,
        item_boxes,
        glyph_items,
        rects,
    )?;
    let end = changed.first + changed.commands;
    let new_boxes = &item_boxes[4 * changed.first..4 * end];
    // The comparison was the last to read the items: their space can hold the rows of the commands.
    plan_drafting::draft(
        screen, room, new_boxes, rects, changed.n, work, items, regions, words,
    )
}
