// Dew's frame comparison, `changed_bounds` and `diff_dirty`, over two display lists in one lent space. Boxes of
// what changed are appended to a list of their own; nothing else is stored. That places lie within a list's slices, and that clip numbers stand on
// one another (`Rooted`), is asked of callers: the slices are as they were lent, and any five make a `ListSpace`.
#![tactic(auto)]

ghost use Rattle.std.specs.Prelude.{◌≡◌, true, [], ◌+◌, ◌*◌, ◌^◌, ◌≤◌, ◌<◌, length, drop};
ghost use Rattle.display_list_commands.specs.Bounds.{glyph_count};
ghost use Rattle.display_list_operand_equality.specs.Operands.{same_clips};
ghost use Rattle.display_list_clips.specs.Chains.{chain, Rooted};
ghost use Rattle.display_list_differences.specs.Differences.{rect_symmetric_difference};
ghost use Rattle.display_list.specs.Lists.{offset_at, clip_number_at};
ghost use Rattle.strip_format.specs.Format.{command_at};
ghost use Rattle.strip_format.specs.Limits as Limits;
ghost use Rattle.strip.specs.Reading.{command_of};
ghost use Rattle.display_list_changes.specs.Changes.{rects_of, diff_dirty};
ghost use Rattle.display_list_stored.specs.Stored.{Stored, command_in, commands_in};
ghost use Rattle.base_rect_list.specs.Rects.{AddedTo, Listed};
ghost use Rattle.display_list_glyph_changes.specs.Runs.{most_boxes};
ghost use Rattle.runtime.specs.Placed as Placed;
ghost use Rattle.runtime.specs.Placed.{Both, whole_length, AlikeClips, SameRun, Tells};
ghost use Rattle.runtime.specs.Work.{work_of};
ghost use Rattle.base_rect_words.specs.Words.{box_at, boxes_to};

use base_rect_list::RectList;
use display_list_changes::Change;
use display_list_glyph_changes::Run;
use kurbo_geometry::Rect;
use strip_format::{Kind, layout};

// The counts that dew keeps of a frame, as far as a plan tells them.
#[derive(Clone, Copy, Debug, PartialEq, Eq)]
pub struct FrameWork {
    pub commands_emitted: u64,
    pub pixels_transferred: u64,
    pub regions_transferred: u64,
}

impl FrameWork {
    // The counts of a frame of `new` commands.
    pub fn of(new: usize, regions: usize, pixels: u64) -> FrameWork
        ensures { result ≡ work_of new regions pixels }
    {
        FrameWork {
            commands_emitted: new as u64,
            pixels_transferred: pixels,
            regions_transferred: regions as u64,
        }
    }
}

// The lent space of two display lists, one behind the other: the bytes of their strips, their clips, and for each command where its
// bytes begin, its clip number and its box: five slices, as C lends them.
#[derive(Clone, Copy, Debug, PartialEq)]
pub struct ListSpace<'a> {
    pub bytes: &'a [u8],
    pub boxes: &'a [f64],
    pub below: &'a [u64],
    pub items: &'a [u64],
    pub item_boxes: &'a [f64],
}

// How many glyphs the command at an offset has: none where it is no RUN.
fn glyph_count_at(s: &[u8], at: usize) -> u32
    ensures { result ≡ glyph_count (command_at s.now at) }
{
    if !strip_command_bounds::stands(s, at, Kind::Run) {
        return 0;
    }
    u32::from(strip_format::glyph_count_at(s, at))
}

// Whether two commands differ in an operand, and the first is no RUN: then what changed is the union of their boxes, and neither need be
// decoded. RUNs may be alike though their boxes differ.
#[tactic(auto, unfolding(crate::specs::Placed::apart))]
fn apart(s: &[u8], at: usize, other: usize) -> bool
    ensures { result ≡ Placed.apart s.now at other }
{
    Kind::try_from(base_little_endian::byte_at(s, at)) != Ok(Kind::Run)
        && !strip_equality::same_drawing_at(s, at, other)
}

// True only where the same RUN stands at both offsets, but for its glyphs: its bytes are the same.
fn same_run(s: &[u8], at: usize, other: usize) -> bool
    ensures { result ≡ true → SameRun s.now at other }
{
    strip_command_bounds::stands(s, at, Kind::Run)
        && strip_command_bounds::stands(s, other, Kind::Run)
        && base_little_endian::same_bytes(s, at, other, layout::RUN_LENGTH)
}

// The length of the command at an offset, with its glyphs.
#[tactic(auto, unfolding(crate::specs::Placed::whole_length))]
fn whole_length(s: &[u8], at: usize) -> usize
    requires { at < length s.now }
    ensures { result ≡ whole_length s.now at }
{
    let byte = s[at];
    if Kind::try_from(byte) == Ok(Kind::Run) {
        return layout::RUN_LENGTH
            + layout::GLYPH_LENGTH * usize::from(strip_format::glyph_count_at(s, at));
    }
    strip_format::length_of(byte)
}

// True only where the same command stands at both offsets, with the same glyphs: their bytes are the same, and nothing is
// decoded.
fn unchanged(s: &[u8], at: usize, other: usize) -> bool
    requires { (at < length s.now) × (other < length s.now) }
    ensures { result ≡ true → command_of s.now at [] ≡ command_of s.now other [] }
{
    let n = whole_length(s, at);
    n <= s.len() - at && n <= s.len() - other && base_little_endian::same_bytes(s, at, other, n)
}

// Appends what the old box has beside the new one, and then what the new one has beside the old.
fn rect_symmetric_difference(old: Rect, new: Rect, rects: &mut RectList)
    requires { rects.old.count + 8 < 2 ^ 63 }
    ensures { AddedTo 8 rects.old (rect_symmetric_difference old new) rects.new }
{
    rects.extend_parts(display_list_differences::rect_difference(old, new));
    rects.extend_parts(display_list_differences::rect_difference(new, old));
}

impl ListSpace<'_> {
    // Where the bytes of a command begin.
    fn offset_at(self, i: usize) -> usize
        requires { 2 * i + 2 ≤ length self.items.now }
        ensures { result ≡ offset_at self.entry.items.now i }
    {
        self.items[2 * i] as usize
    }

    // The word behind it, with a definition of its own.
    fn clip_number_at(self, i: usize) -> u64
        requires { 2 * i + 2 ≤ length self.items.now }
        ensures { result ≡ clip_number_at self.entry.items.now i }
    {
        self.items[2 * i + 1]
    }

    fn box_at(self, i: usize) -> Rect
        requires { 4 * i + 4 ≤ length self.item_boxes.now }
        ensures { result ≡ box_at self.entry.item_boxes.now i }
    {
        base_rect_words::rect_from(self.item_boxes, 4 * i)
    }

    // The glyphs of the command at a place.
    fn run_at(self, i: usize) -> Run
        requires { (2 * i + 2 ≤ length self.items.now) × (offset_at self.items.now i ≤ length self.bytes.now) }
        ensures { result ≡ Placed.run_at self.entry.bytes.now self.entry.items.now i }
    {
        let at = self.offset_at(i);
        Run {
            glyphs: at + layout::RUN_GLYPHS,
            count: glyph_count_at(self.bytes, at),
            transform: strip_command_bounds::transform_at(self.bytes, at),
            clip: self.clip_number_at(i),
        }
    }

    // Whether the clips up to two numbers are equal, where those up to two that are known are: most commands stand under the
    // same clips as the one before, and then no clip is compared again.
    fn clips_alike(self, numbers: (u64, u64), known: (u64, u64)) -> bool
        requires { Rooted self.boxes.now self.below.now numbers.0 numbers.1 × AlikeClips self.boxes.now self.below.now known.0 known.1 }
        ensures { result ≡ same_clips (chain self.entry.boxes.now self.entry.below.now numbers.0) (chain self.entry.boxes.now self.entry.below.now numbers.1) }
    {
        numbers == known
            || display_list_clips::same_clips(self.boxes, self.below, numbers.0, numbers.1)
    }

    // How the command at place i became the one at place j, by their decoded operands, glyphs and clips. FILLs alike are drawn alike, so of what is
    // not only RUNs can be alike. Clips, which take the longest walk, are compared last, and once.
    fn change_decoded(self, i: usize, j: usize) -> Change
        requires { Both i j self.bytes.now self.boxes.now self.below.now self.items.now self.item_boxes.now }
        ensures { Tells result (command_in self.entry.bytes.now self.entry.boxes.now self.entry.below.now self.entry.items.now i)
            (command_in self.entry.bytes.now self.entry.boxes.now self.entry.below.now self.entry.items.now j) }
    {
        let old = strip_format::command_at(self.bytes, self.offset_at(i));
        let new = strip_format::command_at(self.bytes, self.offset_at(j));
        let clip = self.clip_number_at(i);
        let other_clip = self.clip_number_at(j);
        if display_list_equality::same_drawing(old, new)
            && display_list_glyph_changes::equal_glyphs(
                self.bytes,
                self.run_at(i),
                self.run_at(j),
            )
        {
            if display_list_clips::same_clips(self.boxes, self.below, clip, other_clip) {
                return Change::Same;
            }
            if display_list_equality::fills_alike(old, new) {
                return Change::Fills;
            }
            return Change::Other;
        }
        if display_list_equality::runs_alike(old, new)
            && display_list_clips::same_clips(self.boxes, self.below, clip, other_clip)
        {
            return Change::Runs;
        }
        Change::Other
    }

    // The same over bytes, where clips up to two numbers are known to be alike: most commands have the bytes of those before them, most that changed
    // differ in an operand or are RUNs of which only glyphs changed, and none of these is decoded. Whether glyphs changed is not asked: equal ones
    // list nothing.
    fn change(self, i: usize, j: usize, known: (u64, u64)) -> Change
        requires { Both i j self.bytes.now self.boxes.now self.below.now self.items.now self.item_boxes.now
            × AlikeClips self.boxes.now self.below.now known.0 known.1 }
        ensures { Tells result (command_in self.entry.bytes.now self.entry.boxes.now self.entry.below.now self.entry.items.now i)
            (command_in self.entry.bytes.now self.entry.boxes.now self.entry.below.now self.entry.items.now j) }
    {
        let at = self.offset_at(i);
        let other = self.offset_at(j);
        let numbers = (self.clip_number_at(i), self.clip_number_at(j));
        if unchanged(self.bytes, at, other) {
            if self.clips_alike(numbers, known) {
                return Change::Same;
            }
            if strip_command_bounds::stands(self.bytes, at, Kind::Fill) {
                return Change::Fills;
            }
            return Change::Other;
        }
        if apart(self.bytes, at, other) {
            return Change::Other;
        }
        if same_run(self.bytes, at, other) && self.clips_alike(numbers, known) {
            return Change::Runs;
        }
        self.change_decoded(i, j)
    }

    // Appends the rectangles of a case: those of what changed from the command at place i to the one at place j.
    fn append_change(self, change: Change, i: usize, j: usize, rects: &mut RectList)
        requires { Both i j self.bytes.now self.boxes.now self.below.now self.items.now self.item_boxes.now × (rects.old.count + most_boxes < 2 ^ 63) }
        ensures { AddedTo most_boxes rects.old
            (rects_of change (command_in self.entry.bytes.now self.entry.boxes.now self.entry.below.now self.entry.items.now i)
            (command_in self.entry.bytes.now self.entry.boxes.now self.entry.below.now self.entry.items.now j))
            rects.new }
    {
        match change {
            Change::Same => {}
            Change::Fills => rect_symmetric_difference(self.box_at(i), self.box_at(j), rects),
            Change::Runs => {
                let old = self.run_at(i);
                let new = self.run_at(j);
                display_list_glyph_changes::changed_glyph_bounds(
                    self.bytes, self.boxes, old, new, rects,
                );
            }
            Change::Other => rects.push(self.box_at(i).union(self.box_at(j))),
        }
    }

    // Appends the boxes of the commands from a place on.
    fn append_bounds(self, first: usize, count: usize, rects: &mut RectList)
        requires { (4 * (first + count) ≤ length self.item_boxes.now) × (rects.old.count + count < 2 ^ 63) }
        ensures { AddedTo count rects.old (boxes_to (drop (4 * first) self.entry.item_boxes.now) count) rects.new }
    {
        let boxes = &self.item_boxes[4 * first..4 * (first + count)];
        for edges in boxes.as_chunks::<4>().0 {
            rects.push(Rect::from(*edges));
        }
    }

    // Lists the boxes of what changed from a display list to another, and answers how many they are. The old list is the
    // first `old` commands of the space, the new one the `new` commands behind them. Where `rects` is too short the number is
    // still right.
    // It takes words and makes the list itself: a `RectList` lent to it would have to hold no box, which asks more of a caller.
    // By number, since each step compares two places of one list.
    pub fn diff_dirty(self, old: usize, new: usize, rects: &mut [f64]) -> usize
        requires { Stored (old + new) self.bytes.now self.boxes.now self.below.now self.items.now self.item_boxes.now × (old ≤ Limits.most_commands)
            × (new ≤ Limits.most_commands) }
        ensures { Listed rects.old
            (diff_dirty (commands_in self.entry.bytes.now self.entry.boxes.now self.entry.below.now self.entry.items.now 0 old)
            (commands_in self.entry.bytes.now self.entry.boxes.now self.entry.below.now self.entry.items.now old new))
            rects.new result }
    {
        let mut list = RectList::new(rects);
        let common = old.min(new);
        let mut known = (0, 0);
        for i in 0..common {
            let j = old + i;
            match self.change(i, j, known) {
                Change::Same => known = (self.clip_number_at(i), self.clip_number_at(j)),
                change => self.append_change(change, i, j, &mut list),
            }
        }
        self.append_bounds(common, old - common, &mut list);
        self.append_bounds(old + common, new - common, &mut list);
        list.count
    }
}
