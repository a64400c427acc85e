// Draw commands compared as dew's `DrawCommand::eq` and `changed_bounds` do. Clips and lists of glyphs are
// compared apart, so no equality is derived: it would compare the counts of glyphs.
#![tactic(auto)]

ghost use Rattle.std.specs.Prelude.{◌≡◌};
ghost use Rattle.display_list_equality.specs.Drawings as Drawings;

use display_list_commands::DrawCommand;
use display_list_operand_equality::{same_bits, stroke_eq};

// Whether all operands are equal: dew's equality of commands, but for clips and glyphs.
#[tactic(auto, unfolding(crate::specs::Drawings::same_drawing, crate::specs::Drawings::same_fill, crate::specs::Drawings::same_stroked, crate::specs::Drawings::same_run, crate::specs::Drawings::same_scene, display_list_operand_equality::specs::Operands::same_path, display_list_operand_equality::specs::Operands::same_affine, kurbo_geometry::specs::Boxes::same_edges,))]
pub fn same_drawing(old: DrawCommand, new: DrawCommand) -> bool
    ensures { result ≡ Drawings.same_drawing old new }
{
    match (old, new) {
        (
            DrawCommand::FillPath {
                path,
                bounds,
                transform,
                brush,
            },
            DrawCommand::FillPath {
                path: p,
                bounds: b,
                transform: t,
                brush: c,
            },
        ) => (path, bounds, transform, brush) == (p, b, t, c),
        (
            DrawCommand::StrokePath {
                path,
                bounds,
                transform,
                stroke,
                brush,
            },
            DrawCommand::StrokePath {
                path: p,
                bounds: b,
                transform: t,
                stroke: s,
                brush: c,
            },
        ) => (path, bounds, transform, brush) == (p, b, t, c) && stroke_eq(stroke, s),
        (
            DrawCommand::GlyphRun {
                font,
                font_size,
                transform,
                brush,
                bounds,
                glyphs: _,
            },
            DrawCommand::GlyphRun {
                font: f,
                font_size: s,
                transform: t,
                brush: c,
                bounds: b,
                glyphs: _,
            },
        ) => (font, font_size, transform, brush, bounds) == (f, s, t, c, b),
        (
            DrawCommand::Scene {
                content,
                generation,
                target,
                transform,
                bounds,
            },
            DrawCommand::Scene {
                content: p,
                generation: g,
                target: q,
                transform: t,
                bounds: b,
            },
        ) => (content, generation, target, transform, bounds) == (p, g, q, t, b),
        _ => false,
    }
}

// Whether both are fills of one path, affine and brush.
#[tactic(auto, unfolding(crate::specs::Drawings::fills_alike, crate::specs::Drawings::same_drawing))]
pub fn fills_alike(old: DrawCommand, new: DrawCommand) -> bool
    ensures { result ≡ Drawings.fills_alike old new }
{
    matches!(old, DrawCommand::FillPath { .. }) && same_drawing(old, new)
}

// Whether both are runs of one font, size in bits, affine and brush; the clips are compared apart.
#[tactic(auto, unfolding(crate::specs::Drawings::runs_alike, crate::specs::Drawings::run_alike, display_list_operand_equality::specs::Operands::same_affine))]
pub fn runs_alike(old: DrawCommand, new: DrawCommand) -> bool
    ensures { result ≡ Drawings.runs_alike old new }
{
    match (old, new) {
        (
            DrawCommand::GlyphRun {
                font,
                font_size,
                transform,
                brush,
                ..
            },
            DrawCommand::GlyphRun {
                font: f,
                font_size: s,
                transform: t,
                brush: c,
                ..
            },
        ) => font == f && same_bits(font_size, s) && transform == t && brush == c,
        _ => false,
    }
}
