// Drawing commands of a strip compared where they stand, as `display_list_equality::same_drawing` compares them once they are decoded. No
// command is built for it, and a float that has the bits of the other is not decoded either.
#![tactic(auto)]

ghost use Rattle.std.specs.Prelude.{◌≡◌, ◌+◌, ◌*◌, ◌≤◌, length};
ghost use Rattle.std.specs.Float.Ieee.{eq};
ghost use Rattle.base_little_endian.specs.Words.{f64_at};
ghost use Rattle.display_list_equality.specs.Drawings.{same_drawing};
ghost use Rattle.strip_format.specs.Layout as Layout;
ghost use Rattle.strip_format.specs.Format.{rect_at, affine_at, fill_at, stroke_path_at, scene_at, command_at};
ghost use Rattle.strip_equality.specs.Places.{same_floats, same_path_at};

use display_list_operand_equality::stroke_eq;
use strip_format::{Kind, layout, stroke_at};

// Whether the f64 at two offsets are equal. Most have the same bits, and what is decoded is finite, so it equals itself. By itself, so that what calls it only
// where bytes differ stays small.
#[inline(never)]
fn same_f64(s: &[u8], p: usize, q: usize) -> bool
    requires { (p + 8 ≤ length s.now) × (q + 8 ≤ length s.now) }
    ensures { result ≡ eq (f64_at s.now p) (f64_at s.now q) }
{
    if base_little_endian::u64_inside(s, p) == base_little_endian::u64_inside(s, q) {
        return true;
    }
    base_little_endian::f64_at(s, p) == base_little_endian::f64_at(s, q)
}

// Whether the N f64 at two offsets are equal: a box's four, an affine's six. Most have the same bytes, and then none is looked at by itself.
// By number, since both stand in one strip, at offsets.
fn same_floats<const N: usize>(s: &[u8], p: usize, q: usize) -> bool
    requires { (p + 8 * N ≤ length s.now) × (q + 8 * N ≤ length s.now) }
    ensures { result ≡ same_floats s.now p q N }
{
    if base_little_endian::same_bytes(s, p, q, 8 * N) {
        return true;
    }
    for i in 0..N {
        if !same_f64(s, p + 8 * i, q + 8 * i) {
            return false;
        }
    }
    true
}

// The operands that a FILL and a STROKE share. The numbers come first: where they differ no float is looked at.
#[tactic(auto, unfolding(display_list_operand_equality::specs::Operands::same_path), using(crate::proofs::Places::four_same, crate::proofs::Places::six_same))]
fn same_path(s: &[u8], p: usize, q: usize) -> bool
    requires { (p + Layout.fill_length ≤ length s.now) × (q + Layout.fill_length ≤ length s.now) }
    ensures { result ≡ same_path_at s.now p q }
{
    base_little_endian::u64_inside(s, p + layout::FILL_PATH)
        == base_little_endian::u64_inside(s, q + layout::FILL_PATH)
        && base_little_endian::u64_inside(s, p + layout::FILL_BRUSH)
            == base_little_endian::u64_inside(s, q + layout::FILL_BRUSH)
        && same_floats::<4>(s, p + layout::FILL_BOX, q + layout::FILL_BOX)
        && same_floats::<6>(s, p + layout::FILL_AFFINE, q + layout::FILL_AFFINE)
}

#[tactic(auto, unfolding(display_list_equality::specs::Drawings::same_drawing, display_list_equality::specs::Drawings::same_stroked))]
fn same_stroked(s: &[u8], p: usize, q: usize) -> bool
    requires { (p + Layout.stroke_length ≤ length s.now) × (q + Layout.stroke_length ≤ length s.now) }
    ensures { result ≡ same_drawing (stroke_path_at s.now p) (stroke_path_at s.now q) }
{
    same_path(s, p, q)
        && stroke_eq(
            stroke_at(s, p + layout::STROKE_STYLE),
            stroke_at(s, q + layout::STROKE_STYLE),
        )
}

#[tactic(auto, unfolding(display_list_equality::specs::Drawings::same_drawing, display_list_equality::specs::Drawings::same_scene), using(crate::proofs::Places::four_same, crate::proofs::Places::six_same))]
fn same_scene(s: &[u8], p: usize, q: usize) -> bool
    requires { (p + Layout.scene_length ≤ length s.now) × (q + Layout.scene_length ≤ length s.now) }
    ensures { result ≡ same_drawing (scene_at s.now p) (scene_at s.now q) }
{
    base_little_endian::u64_inside(s, p + layout::SCENE_CONTENT)
        == base_little_endian::u64_inside(s, q + layout::SCENE_CONTENT)
        && base_little_endian::u64_inside(s, p + layout::SCENE_GENERATION)
            == base_little_endian::u64_inside(s, q + layout::SCENE_GENERATION)
        && base_little_endian::u64_inside(s, p + layout::SCENE_TARGET)
            == base_little_endian::u64_inside(s, q + layout::SCENE_TARGET)
        && same_floats::<6>(s, p + layout::SCENE_AFFINE, q + layout::SCENE_AFFINE)
        && same_floats::<4>(s, p + layout::SCENE_BOX, q + layout::SCENE_BOX)
}

fn same_decoded(s: &[u8], p: usize, q: usize) -> bool
    ensures { result ≡ same_drawing (command_at s.now p) (command_at s.now q) }
{
    display_list_equality::same_drawing(
        strip_format::command_at(s, p),
        strip_format::command_at(s, q),
    )
}

// Whether the drawing commands at two offsets have equal operands, but for clips and glyphs. Any offsets will do. RUNs, and what
// is no drawing command, are decoded: those are compared by the way, not in a loop.
pub fn same_drawing_at(s: &[u8], p: usize, q: usize) -> bool
    ensures { result ≡ same_drawing (command_at s.now p) (command_at s.now q) }
{
    let Some(kind) = strip_command_bounds::kind_at(s, p) else {
        return same_decoded(s, p, q);
    };
    if !strip_command_bounds::stands(s, q, kind) {
        return same_decoded(s, p, q);
    }
    match kind {
        Kind::Fill => same_path(s, p, q),
        Kind::Stroke => same_stroked(s, p, q),
        Kind::Scene => same_scene(s, p, q),
        _ => same_decoded(s, p, q),
    }
}
