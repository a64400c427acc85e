// Dew's draw commands and the boxes that they cover: display_list.rs with document 01's operands. Every
// function has an answer for every f64.
#![tactic(auto)]

ghost use Rattle.std.specs.Prelude.{◌≡◌};
ghost use Rattle.display_list_commands.specs.Strokes as Strokes;
ghost use Rattle.display_list_commands.specs.Bounds as Bounds;

use kurbo_affine::Affine;
use kurbo_geometry::Rect;

#[derive(Clone, Copy, PartialEq, Eq, Debug)]
pub enum Join {
    Bevel,
    Miter,
    Round,
}

#[derive(Clone, Copy, PartialEq, Eq, Debug)]
pub enum Cap {
    Butt,
    Square,
    Round,
}

// How a path is stroked; `dash` numbers a dash pattern with its offset.
#[derive(Clone, Copy, PartialEq, Debug)]
pub struct Stroke {
    pub width: f64,
    pub join: Join,
    pub miter_limit: f64,
    pub start_cap: Cap,
    pub end_cap: Cap,
    pub dash: u64,
}

// A shaped glyph of a run, with its ink box in the run's coordinates.
#[derive(Clone, Copy, PartialEq, Debug)]
pub struct Glyph {
    pub id: u32,
    pub x: f32,
    pub y: f32,
    pub bounds: Rect,
}

// One draw operation. Paths, brushes, fonts, scenes and targets are numbers, equal for equal things. The
// clips and a run's glyphs are kept elsewhere.
#[derive(Clone, Copy, Debug)]
pub enum DrawCommand {
    FillPath {
        path: u64,
        bounds: Rect,
        transform: Affine,
        brush: u64,
    },
    StrokePath {
        path: u64,
        bounds: Rect,
        transform: Affine,
        stroke: Stroke,
        brush: u64,
    },
    GlyphRun {
        font: u64,
        font_size: f32,
        transform: Affine,
        brush: u64,
        bounds: Rect,
        glyphs: u32,
    },
    Scene {
        content: u64,
        generation: u64,
        target: u64,
        transform: Affine,
        bounds: Rect,
    },
}

// How far joins reach, in half widths of the stroke.
fn join_scale(join: Join, miter_limit: f64) -> f64
    ensures { result ≡ Strokes.join_scale join miter_limit }
{
    match join {
        Join::Miter => base_floats::larger(miter_limit, 1.0),
        Join::Bevel | Join::Round => 1.0,
    }
}

// How far one cap reaches, unless that of the other end, `rest`, reaches farther.
fn cap_scale(cap: Cap, rest: f64) -> f64
    ensures { result ≡ Strokes.cap_scale cap rest }
{
    match cap {
        Cap::Square => std::f64::consts::SQRT_2,
        Cap::Butt | Cap::Round => rest,
    }
}

// How far a stroke reaches beyond the box of its path.
#[tactic(auto, unfolding(crate::specs::Strokes::stroke_bounds_inflation))]
pub fn stroke_bounds_inflation(stroke: Stroke) -> f64
    ensures { result ≡ Strokes.stroke_bounds_inflation stroke }
{
    let joins = join_scale(stroke.join, stroke.miter_limit);
    let caps = cap_scale(stroke.start_cap, cap_scale(stroke.end_cap, 1.0));
    stroke.width / 2.0 * base_floats::larger(joins, caps)
}

impl DrawCommand {
    pub fn transform(self) -> Affine
        ensures { result ≡ Bounds.transform_of self }
    {
        match self {
            DrawCommand::FillPath { transform, .. }
            | DrawCommand::StrokePath { transform, .. }
            | DrawCommand::GlyphRun { transform, .. }
            | DrawCommand::Scene { transform, .. } => transform,
        }
    }
}
