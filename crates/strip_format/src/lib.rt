// The strip's bytes: how long each command is, and the drawing command or glyph that stands at
// an offset, whatever the offset: past the end every byte counts as 0. What is compared later is decoded here again, so it
// is what was read. That bytes are all there, or floats finite, is asked of an offset and the slice beside it, here and in the crates above: no type
// of one of the two could say it.
#![tactic(auto)]

ghost use Rattle.std.specs.Prelude.{◌≡◌, ◌+◌, ◌*◌, ◌%◌, ◌^◌, ◌≤◌, ◌<◌, ltb, length, true};
ghost use Rattle.base_little_endian.specs.Words.{u16_at, u64_at};
ghost use Rattle.strip_format.specs.Layout as Layout;
ghost use Rattle.strip_format.specs.Format as Format;
ghost use Rattle.strip_format.specs.Kinds.{code, Decodes};
ghost use Rattle.strip_format.specs.Finite.{AllFinite, FloatsFrom, FourFinite, near_bits, FourNear};

use display_list_commands::{Cap, DrawCommand, Join, Stroke};
use kurbo_affine::Affine;
use kurbo_geometry::Rect;

pub mod layout;
pub mod limits;

// What a command is, by its byte.
#[derive(Clone, Copy, Debug, PartialEq, Eq)]
pub enum Kind {
    End = 0,
    Clip = 1,
    Pop = 2,
    Fill = 3,
    Stroke = 4,
    Run = 5,
    Glyph = 6,
    Scene = 7,
}

// A byte that is no command's is the error.
impl TryFrom<u8> for Kind {
    type Error = u8;

    ghost try_from_gives = { Decodes };

    fn try_from(byte: u8) -> Result<Kind, u8> {
        match byte {
            0 => Ok(Kind::End),
            1 => Ok(Kind::Clip),
            2 => Ok(Kind::Pop),
            3 => Ok(Kind::Fill),
            4 => Ok(Kind::Stroke),
            5 => Ok(Kind::Run),
            6 => Ok(Kind::Glyph),
            7 => Ok(Kind::Scene),
            _ => Err(byte),
        }
    }
}

impl Kind {
    // The length of a command with its operands.
    #[tactic(auto, unfolding(crate::specs::Format::length_of))]
    pub fn length(self) -> usize
        ensures { result ≡ Format.length_of (code self) }
    {
        match self {
            Kind::End | Kind::Pop => layout::CODE_LENGTH,
            Kind::Clip => layout::CLIP_LENGTH,
            Kind::Fill => layout::FILL_LENGTH,
            Kind::Stroke => layout::STROKE_LENGTH,
            Kind::Run => layout::RUN_LENGTH,
            Kind::Glyph => layout::GLYPH_LENGTH,
            Kind::Scene => layout::SCENE_LENGTH,
        }
    }
}

// The length of a command with its operands, by its byte; one byte for those that are no command's. Not by a `Kind`, which would ask more of callers.
pub fn length_of(byte: u8) -> usize
    ensures { result ≡ Format.length_of byte }
{
    match Kind::try_from(byte) {
        Ok(kind) => kind.length(),
        Err(_) => layout::CODE_LENGTH,
    }
}

// Where the affine of a drawing command stands, and where its box does: two functions, since each is the format's own row of three places.
#[tactic(auto, unfolding(crate::specs::Format::affine_offset))]
pub fn affine_offset(at: usize, kind: Kind) -> usize
    requires { at + Layout.fill_affine < 2 ^ 64 }
    ensures { result ≡ Format.affine_offset at (code kind) }
{
    match kind {
        Kind::Run => at + layout::RUN_AFFINE,
        Kind::Scene => at + layout::SCENE_AFFINE,
        _ => at + layout::FILL_AFFINE,
    }
}

#[tactic(auto, unfolding(crate::specs::Format::rect_offset))]
pub fn rect_offset(at: usize, kind: Kind) -> usize
    requires { at + Layout.scene_box < 2 ^ 64 }
    ensures { result ≡ Format.rect_offset at (code kind) }
{
    match kind {
        Kind::Run => at + layout::RUN_BOX,
        Kind::Scene => at + layout::SCENE_BOX,
        _ => at + layout::FILL_BOX,
    }
}

// The N f64 from an offset on, as many as a box or an affine has. By itself, so that what calls it only for floats that are not finite stays small. A
// loop, for `floats_finite`'s reason.
#[inline(never)]
fn floats_at<const N: usize>(s: &[u8], at: usize) -> [f64; N]
    requires { N ≤ 6 }
    ensures { FloatsFrom s.now at N result }
{
    let mut floats = [0.0; N];
    if at < s.len() {
        for i in 0..N {
            floats[i] = base_little_endian::f64_at(s, at + 8 * i);
        }
    }
    floats
}

// Whether the n f64 from an offset on, whose bytes are all there, are finite: none is asked for its place. A loop: tried as
// `(0..n).all(..)`, and the proof doesn't close.
pub fn all_finite(s: &[u8], at: usize, n: usize) -> bool
    requires { at + 8 * n ≤ length s.now }
    ensures passes { result ≡ true → AllFinite s.now at n }
    ensures all { AllFinite s.now at n → result ≡ true }
{
    for i in 0..n {
        if !base_little_endian::finite64_inside(s, at + 8 * i) {
            return false;
        }
    }
    true
}

// The N f64 from an offset on, whose bytes are all there and which were found to be finite: none is tested again. Beside `floats_at`, which asks of each
// whether it is there. A loop in both: what `array::from_fn` asks of its closure it asks for any values captured, and so neither the offsets nor the bytes
// that the closure reads could be shown to fit.
fn floats_finite<const N: usize>(s: &[u8], at: usize) -> [f64; N]
    requires { (at + 8 * N ≤ length s.now) × AllFinite s.now at N }
    ensures { FloatsFrom s.now at N result }
{
    let mut floats = [0.0; N];
    for i in 0..N {
        floats[i] = base_little_endian::f64_inside(s, at + 8 * i);
    }
    floats
}

// The N f64 from an offset on, whose bytes are all there. They are tested together, so that none is tested where it is used.
fn floats_inside<const N: usize>(s: &[u8], at: usize) -> [f64; N]
    requires { (N ≤ 6) × (at + 8 * N ≤ length s.now) }
    ensures { FloatsFrom s.now at N result }
{
    if all_finite(s, at, N) {
        return floats_finite(s, at);
    }
    floats_at::<N>(s, at)
}

// A box and an affine are read in one line each, here and below, by the readers above: each has the format's own definition in its contract. A box whose
// bytes are all there and whose floats were found to be finite: none is tested again.
pub fn rect_finite(s: &[u8], at: usize) -> Rect
    requires { (at + 32 ≤ length s.now) × FourFinite s.now at }
    ensures { result ≡ Format.rect_at s.now at }
{
    Rect::from(floats_finite(s, at))
}

// A box whose bytes are all there.
pub fn rect_inside(s: &[u8], at: usize) -> Rect
    requires { at + 32 ≤ length s.now }
    ensures { result ≡ Format.rect_at s.now at }
{
    Rect::from(floats_inside(s, at))
}

// An affine whose bytes are all there and whose floats were found to be finite.
pub fn affine_finite(s: &[u8], at: usize) -> Affine
    requires { (at + 48 ≤ length s.now) × FourFinite s.now at × FourFinite s.now (at + 16) }
    ensures { result ≡ Format.affine_at s.now at }
{
    Affine::from(floats_finite(s, at))
}

// An affine whose bytes are all there.
pub fn affine_inside(s: &[u8], at: usize) -> Affine
    requires { at + 48 ≤ length s.now }
    ensures { result ≡ Format.affine_at s.now at }
{
    Affine::from(floats_inside(s, at))
}

// Whether the f64 at an offset is below 2^500 in size, by its exponent: another bound than `finite64`'s, for floats that stand in bytes.
fn near_at(s: &[u8], at: usize) -> bool
    requires { at + 8 ≤ length s.now }
    ensures { result ≡ ltb (u64_at s.now at % 2 ^ 63) near_bits }
{
    base_little_endian::u64_inside(s, at) % 0x8000_0000_0000_0000 < 0x5f30_0000_0000_0000
}

// True only where the four f64 from an offset on are below 2^500 in size. The product of two such is finite, and a sum of a few
// products too: what an affine with such entries makes of such a box needs no test.
pub fn near_rect(s: &[u8], at: usize) -> bool
    requires { at + 32 ≤ length s.now }
    ensures { result ≡ true → FourNear s.now at }
{
    near_at(s, at) && near_at(s, at + 8) && near_at(s, at + 16) && near_at(s, at + 24)
}

// The codes are the strip's own: as `From<u8>` of the enums they would stand in `display_list_commands`, where no byte is read, and every code over 1
// be Round there too.
#[tactic(auto, unfolding(crate::specs::Format::join_of))]
fn join_of(code: u8) -> Join
    ensures { result ≡ Format.join_of code }
{
    match code {
        0 => Join::Bevel,
        1 => Join::Miter,
        _ => Join::Round,
    }
}

#[tactic(auto, unfolding(crate::specs::Format::cap_of))]
fn cap_of(code: u8) -> Cap
    ensures { result ≡ Format.cap_of code }
{
    match code {
        0 => Cap::Butt,
        1 => Cap::Square,
        _ => Cap::Round,
    }
}

pub fn stroke_at(s: &[u8], at: usize) -> Stroke
    ensures { result ≡ Format.stroke_at s.now at }
{
    if s.len() <= at {
        return Stroke {
            width: 0.0,
            join: Join::Bevel,
            miter_limit: 0.0,
            start_cap: Cap::Butt,
            end_cap: Cap::Butt,
            dash: 0,
        };
    }
    Stroke {
        width: base_little_endian::f64_at(s, at),
        join: join_of(base_little_endian::byte_at(s, at + layout::STYLE_JOIN)),
        miter_limit: base_little_endian::f64_at(s, at + layout::STYLE_MITER_LIMIT),
        start_cap: cap_of(base_little_endian::byte_at(s, at + layout::STYLE_START_CAP)),
        end_cap: cap_of(base_little_endian::byte_at(s, at + layout::STYLE_END_CAP)),
        dash: base_little_endian::u64_at(s, at + layout::STYLE_DASH),
    }
}

// A FILL and a STROKE by themselves, and the others below: each is the format's own row of places, with its own definition.
fn fill_at(s: &[u8], at: usize) -> DrawCommand
    requires { at + Layout.fill_length ≤ length s.now }
    ensures { result ≡ Format.fill_at s.now at }
{
    DrawCommand::FillPath {
        path: base_little_endian::u64_at(s, at + layout::FILL_PATH),
        bounds: rect_inside(s, at + layout::FILL_BOX),
        transform: affine_inside(s, at + layout::FILL_AFFINE),
        brush: base_little_endian::u64_at(s, at + layout::FILL_BRUSH),
    }
}

fn stroke_path_at(s: &[u8], at: usize) -> DrawCommand
    requires { at + Layout.stroke_length ≤ length s.now }
    ensures { result ≡ Format.stroke_path_at s.now at }
{
    DrawCommand::StrokePath {
        path: base_little_endian::u64_at(s, at + layout::FILL_PATH),
        bounds: rect_inside(s, at + layout::FILL_BOX),
        transform: affine_inside(s, at + layout::FILL_AFFINE),
        stroke: stroke_at(s, at + layout::STROKE_STYLE),
        brush: base_little_endian::u64_at(s, at + layout::FILL_BRUSH),
    }
}

// How many glyphs the RUN at an offset announces.
pub fn glyph_count_at(s: &[u8], at: usize) -> u16
    requires { at + Layout.run_count < 2 ^ 64 }
    ensures { result ≡ u16_at s.now (at + Layout.run_count) }
{
    base_little_endian::u16_at(s, at + layout::RUN_COUNT)
}

fn run_at(s: &[u8], at: usize) -> DrawCommand
    requires { at + Layout.run_length ≤ length s.now }
    ensures { result ≡ Format.run_at s.now at }
{
    DrawCommand::GlyphRun {
        font: base_little_endian::u64_at(s, at + layout::RUN_FONT),
        font_size: base_little_endian::f32_at(s, at + layout::RUN_SIZE),
        transform: affine_inside(s, at + layout::RUN_AFFINE),
        brush: base_little_endian::u64_at(s, at + layout::RUN_BRUSH),
        bounds: rect_inside(s, at + layout::RUN_BOX),
        glyphs: u32::from(glyph_count_at(s, at)),
    }
}

fn scene_at(s: &[u8], at: usize) -> DrawCommand
    requires { at + Layout.scene_length ≤ length s.now }
    ensures { result ≡ Format.scene_at s.now at }
{
    DrawCommand::Scene {
        content: base_little_endian::u64_at(s, at + layout::SCENE_CONTENT),
        generation: base_little_endian::u64_at(s, at + layout::SCENE_GENERATION),
        target: base_little_endian::u64_at(s, at + layout::SCENE_TARGET),
        transform: affine_inside(s, at + layout::SCENE_AFFINE),
        bounds: rect_inside(s, at + layout::SCENE_BOX),
    }
}

fn blank() -> DrawCommand
    ensures { result ≡ Format.blank }
{
    DrawCommand::Scene {
        content: 0,
        generation: 0,
        target: 0,
        transform: Affine {
            a: 0.0,
            b: 0.0,
            c: 0.0,
            d: 0.0,
            e: 0.0,
            f: 0.0,
        },
        bounds: Rect {
            x0: 0.0,
            y0: 0.0,
            x1: 0.0,
            y1: 0.0,
        },
    }
}

// The drawing command at an offset, and one without content where none stands whole. No Option: who calls knows that one stands there, and would have
// to take it apart.
pub fn command_at(s: &[u8], at: usize) -> DrawCommand
    ensures { result ≡ Format.command_at s.now at }
{
    if s.len() <= at {
        return blank();
    }
    let Ok(kind) = Kind::try_from(s[at]) else {
        return blank();
    };
    if s.len() - at < kind.length() {
        return blank();
    }
    match kind {
        Kind::Fill => fill_at(s, at),
        Kind::Stroke => stroke_path_at(s, at),
        Kind::Run => run_at(s, at),
        Kind::Scene => scene_at(s, at),
        _ => blank(),
    }
}
