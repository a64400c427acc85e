// Whether the operands of a command pass: codes first, then every float, used or not. Any offset will do; past the end every
// byte counts as 0.
#![tactic(auto)]

ghost use Rattle.std.specs.Prelude.{◌≡◌, ◌+◌, ◌*◌, ◌≤◌, ◌<◌, ◌^◌, length};
ghost use Rattle.strip_format.specs.Layout as Layout;
ghost use Rattle.strip_format.specs.Kinds.{code};
ghost use Rattle.strip_operand_checks.specs.Operands as Operands;

use base_refusals::Fault;
use strip_format::{Kind, layout};

// Whether the n f64 from an offset on are finite: those that stand whole, and the one that the end cuts. Past it all are 0.
fn finite_from(s: &[u8], at: usize, n: usize) -> bool
    requires { at + 8 * n < 2 ^ 64 }
    ensures { result ≡ Operands.finite_from s.now at n }
{
    if at + 8 * n <= s.len() {
        return strip_format::all_finite(s, at, n);
    }
    if s.len() <= at {
        return true;
    }
    let whole = (s.len() - at) / 8;
    strip_format::all_finite(s, at, whole)
        && base_little_endian::finite64(base_little_endian::u64_at(s, at + 8 * whole))
}

fn finite_f32(s: &[u8], at: usize) -> bool
    ensures { result ≡ Operands.finite_f32 s.now at }
{
    base_little_endian::finite32(base_little_endian::u32_at(s, at))
}

// Each kind's floats are the format's own row of places, with its own definition, here and below.
#[tactic(auto, unfolding(crate::specs::Operands::finite_stroke))]
fn finite_stroke(s: &[u8], at: usize) -> bool
    requires { at + Layout.stroke_length < 2 ^ 64 }
    ensures { result ≡ Operands.finite_stroke s.now at }
{
    finite_from(s, at + layout::FILL_BOX, 10)
        && finite_from(s, at + layout::STROKE_STYLE, 1)
        && finite_from(s, at + layout::STROKE_MITER_LIMIT, 1)
}

#[tactic(auto, unfolding(crate::specs::Operands::finite_run))]
fn finite_run(s: &[u8], at: usize) -> bool
    requires { at + Layout.run_length < 2 ^ 64 }
    ensures { result ≡ Operands.finite_run s.now at }
{
    finite_f32(s, at + layout::RUN_SIZE)
        && finite_from(s, at + layout::RUN_AFFINE, 6)
        && finite_from(s, at + layout::RUN_BOX, 4)
}

#[tactic(auto, unfolding(crate::specs::Operands::codes_fit))]
fn codes_fit(join: u8, start: u8, end: u8) -> bool
    ensures { result ≡ Operands.codes_fit join start end }
{
    join <= 2 && start <= 2 && end <= 2
}

fn floats_pass(pass: bool) -> Result<(), Fault>
    ensures { result ≡ Operands.floats_pass pass }
{
    if pass { Ok(()) } else { Err(Fault::NotFinite) }
}

#[tactic(auto, unfolding(crate::specs::Operands::operands_at))]
fn operands_inside(s: &[u8], at: usize, kind: Kind) -> Result<(), Fault>
    requires { at < length s.now }
    ensures { result ≡ Operands.operands_at s.now at (code kind) }
{
    match kind {
        Kind::End | Kind::Pop => Ok(()),
        Kind::Clip => floats_pass(finite_from(s, at + layout::CLIP_BOX, 4)),
        Kind::Fill => floats_pass(finite_from(s, at + layout::FILL_BOX, 10)),
        Kind::Stroke => {
            let join = base_little_endian::byte_at(s, at + layout::STROKE_JOIN);
            let start = base_little_endian::byte_at(s, at + layout::STROKE_START_CAP);
            let end = base_little_endian::byte_at(s, at + layout::STROKE_END_CAP);
            if codes_fit(join, start, end) {
                floats_pass(finite_stroke(s, at))
            } else {
                Err(Fault::UnknownCode)
            }
        }
        Kind::Run => floats_pass(finite_run(s, at)),
        Kind::Glyph => floats_pass(glyph_passes(s, at)),
        Kind::Scene => floats_pass(finite_from(s, at + layout::SCENE_AFFINE, 10)),
    }
}

// Whether the operands of the command at an offset pass, by its byte, or what is wrong with them. A byte that is no command's has none.
// Not by a `Kind`, which would ask more of callers.
pub fn operands(s: &[u8], at: usize, byte: u8) -> Result<(), Fault>
    ensures { result ≡ Operands.operands_at s.now at byte }
{
    if s.len() <= at {
        return Ok(());
    }
    match Kind::try_from(byte) {
        Ok(kind) => operands_inside(s, at, kind),
        Err(_) => Ok(()),
    }
}

// Whether the floats of the GLYPH at an offset are finite.
#[tactic(auto, unfolding(crate::specs::Operands::finite_glyph), using(crate::proofs::Past::glyph_past))]
pub fn glyph_passes(s: &[u8], at: usize) -> bool
    ensures { result ≡ Operands.finite_glyph s.now at }
{
    if s.len() <= at {
        return true;
    }
    finite_f32(s, at + layout::GLYPH_X)
        && finite_f32(s, at + layout::GLYPH_Y)
        && finite_from(s, at + layout::GLYPH_BOX, 4)
}
