// Two runs of glyphs compared place by place: dew's `glyphs_eq` and `changed_glyph_bounds`. Of a glyph only what is
// compared or placed is read, from the strip where it stands.
#![tactic(auto)]

ghost use Rattle.std.specs.Prelude.{◌≡◌, map, ◌+◌, ◌-◌, ◌*◌, ◌^◌, ◌≤◌, ◌<◌, length};
ghost use Rattle.display_list_operand_equality.specs.Operands.{same_glyph, equal_glyph, equal_glyphs};
ghost use Rattle.display_list_changes.specs.Changes.{changed_at, changed_glyphs};
ghost use Rattle.strip_format.specs.Format.{glyph_at, glyphs_from};
ghost use Rattle.strip_format.specs.Layout as Layout;
ghost use Rattle.base_rect_list.specs.Rects.{AddedTo};
ghost use Rattle.display_list_glyph_changes.specs.Runs.{glyphs_of, Inside, most_boxes, windowed};

use base_rect_list::RectList;
use kurbo_affine::Affine;
use kurbo_geometry::Rect;
use strip_format::layout::{GLYPH_BOX, GLYPH_ID, GLYPH_LENGTH, GLYPH_X, GLYPH_Y};
use strip_format::rect_inside;

// A run's glyphs: where the bytes of the first one begin, how many there are, and the transform and the clip
// number, of which 0 is none as in `display_list_clips`, that bring them to the window.
#[derive(Clone, Copy, Debug, PartialEq)]
pub struct Run {
    pub glyphs: usize,
    pub count: u32,
    pub transform: Affine,
    pub clip: u64,
}

// Whether the glyphs at two offsets are painted alike, read where they stand. The number, in which most glyphs that
// changed differ, comes first.
fn glyph_eq(s: &[u8], p: usize, q: usize) -> bool
    requires { (p + Layout.glyph_length ≤ length s.now) × (q + Layout.glyph_length ≤ length s.now) }
    ensures { result ≡ same_glyph (glyph_at s.now p) (glyph_at s.now q) }
{
    base_little_endian::u32_inside(s, p + GLYPH_ID)
        == base_little_endian::u32_inside(s, q + GLYPH_ID)
        && base_little_endian::f32_at(s, p + GLYPH_X) == base_little_endian::f32_at(s, q + GLYPH_X)
        && base_little_endian::f32_at(s, p + GLYPH_Y) == base_little_endian::f32_at(s, q + GLYPH_Y)
}

// Whether the glyphs at two offsets are equal, with equal boxes. Most have the same bytes, and then none is decoded.
#[tactic(auto, unfolding(display_list_operand_equality::specs::Operands::equal_glyph))]
fn equal_at(s: &[u8], p: usize, q: usize) -> bool
    requires { (p + Layout.glyph_length ≤ length s.now) × (q + Layout.glyph_length ≤ length s.now) }
    ensures { result ≡ equal_glyph (glyph_at s.now p) (glyph_at s.now q) }
{
    base_little_endian::same_bytes(s, p, q, GLYPH_LENGTH)
        || (glyph_eq(s, p, q)
            && rect_inside(s, p + GLYPH_BOX).same_edges(rect_inside(s, q + GLYPH_BOX)))
}

// Whether two runs have equal glyphs, with equal boxes, and as many. By number, since both runs' glyphs stand in one strip, at offsets.
pub fn equal_glyphs(s: &[u8], old: Run, new: Run) -> bool
    requires { Inside s.now old.glyphs old.count × Inside s.now new.glyphs new.count }
    ensures { result ≡ equal_glyphs (glyphs_of s.now old) (glyphs_of s.now new) }
{
    if old.count != new.count {
        return false;
    }
    // No `all`: tried, and the proof doesn't close, since its closure calls a function that asks something.
    for k in 0..old.count as usize {
        if !equal_at(
            s,
            old.glyphs + GLYPH_LENGTH * k,
            new.glyphs + GLYPH_LENGTH * k,
        ) {
            return false;
        }
    }
    true
}

// The box on the window of the glyph at an offset.
#[tactic(auto, unfolding(crate::specs::Runs::windowed))]
fn window_at(s: &[u8], boxes: &[f64], run: Run, at: usize) -> Rect
    requires { (8 * run.clip ≤ length boxes.now) × (at + Layout.glyph_length ≤ length s.now) }
    ensures { result ≡ windowed boxes.now run (glyph_at s.now at) }
{
    let number = run.clip;
    let transform = run.transform;
    let bounds = rect_inside(s, at + GLYPH_BOX);
    display_list::window_glyph_bounds(boxes, number, transform, bounds)
}

// Appends the boxes of a run's glyphs from the one of a number on. By number, which gives the offset in the strip of each.
fn append_glyph_bounds(s: &[u8], boxes: &[f64], run: Run, first: usize, rects: &mut RectList)
    requires { (8 * run.clip ≤ length boxes.now) × Inside s.now run.glyphs run.count × (first ≤ run.count) × (rects.old.count + (run.count - first) < 2 ^ 63) }
    ensures { AddedTo (run.count - first) rects.old
        (map (windowed boxes.now run) (glyphs_from s.now (run.glyphs + Layout.glyph_length * first) (run.count - first))) rects.new }
{
    for k in first..run.count as usize {
        rects.push(window_at(s, boxes, run, run.glyphs + GLYPH_LENGTH * k));
    }
}

// Appends what changed from the glyph at an offset to the one at another: nothing where they are painted alike, and
// else the union of both boxes. Most have the same bytes, and then none is decoded. A run with an offset as one struct would be made anew
// for each glyph, for this call alone.
fn append_changed(
    s: &[u8],
    boxes: &[f64],
    old: Run,
    new: Run,
    at: usize,
    other: usize,
    rects: &mut RectList,
)
    requires { (8 * old.clip ≤ length boxes.now) × (8 * new.clip ≤ length boxes.now) × (at + Layout.glyph_length ≤ length s.now)
        × (other + Layout.glyph_length ≤ length s.now) × (rects.old.count + 1 < 2 ^ 63) }
    ensures { AddedTo 1 rects.old (changed_at (windowed boxes.now old) (windowed boxes.now new) (glyph_at s.now at) (glyph_at s.now other)) rects.new }
{
    if base_little_endian::same_bytes(s, at, other, GLYPH_LENGTH) || glyph_eq(s, at, other) {
        return;
    }
    let b = window_at(s, boxes, old, at);
    let c = window_at(s, boxes, new, other);
    rects.push(b.union(c));
}

// Appends the boxes of what changed from a run to another: at each common place whose glyphs are painted
// differently the union of both boxes, and then the boxes of the glyphs that only one of them has. By number, which gives both offsets.
pub fn changed_glyph_bounds(s: &[u8], boxes: &[f64], old: Run, new: Run, rects: &mut RectList)
    requires { (8 * old.clip ≤ length boxes.now) × (8 * new.clip ≤ length boxes.now) × Inside s.now old.glyphs old.count × Inside s.now new.glyphs new.count
        × (rects.old.count + most_boxes < 2 ^ 63) }
    ensures { AddedTo most_boxes rects.old (changed_glyphs (windowed boxes.now old) (windowed boxes.now new) (glyphs_of s.now old) (glyphs_of s.now new))
        rects.new }
{
    let common = old.count.min(new.count) as usize;
    for k in 0..common {
        let p = old.glyphs + GLYPH_LENGTH * k;
        let q = new.glyphs + GLYPH_LENGTH * k;
        append_changed(s, boxes, old, new, p, q, rects);
    }
    append_glyph_bounds(s, boxes, old, common, rects);
    append_glyph_bounds(s, boxes, new, common, rects);
}
