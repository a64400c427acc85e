// Document 01's table of the strip in code: where each operand stands behind its command's first byte, and the commands' lengths. `specs/Layout` says
// the same for contracts; the commands' bytes are those of `Kind`. No other code writes these numbers.

// The byte itself: all that there is of a command without operands, and of a byte that is no command's.
pub const CODE_LENGTH: usize = 1;

// END and POP: no operands.
pub const END_LENGTH: usize = CODE_LENGTH;

pub const POP_LENGTH: usize = CODE_LENGTH;

// CLIP: box.
pub const CLIP_BOX: usize = 1;

pub const CLIP_LENGTH: usize = 33;

// FILL: path, box, affine, brush.
pub const FILL_PATH: usize = 1;

pub const FILL_BOX: usize = 9;

pub const FILL_AFFINE: usize = 41;

pub const FILL_BRUSH: usize = 89;

pub const FILL_LENGTH: usize = 97;

// STROKE: as FILL, then its style: width, join, miter limit, start cap, end cap, dash. Those behind the width are counted from the style on.
pub const STROKE_STYLE: usize = 97;

pub const STYLE_JOIN: usize = 8;

pub const STYLE_MITER_LIMIT: usize = 9;

pub const STYLE_START_CAP: usize = 17;

pub const STYLE_END_CAP: usize = 18;

pub const STYLE_DASH: usize = 19;

pub const STROKE_JOIN: usize = STROKE_STYLE + STYLE_JOIN;

pub const STROKE_MITER_LIMIT: usize = STROKE_STYLE + STYLE_MITER_LIMIT;

pub const STROKE_START_CAP: usize = STROKE_STYLE + STYLE_START_CAP;

pub const STROKE_END_CAP: usize = STROKE_STYLE + STYLE_END_CAP;

pub const STROKE_LENGTH: usize = 124;

// RUN: font, size, affine, brush, box, glyph count. Its first glyph stands right behind it.
pub const RUN_FONT: usize = 1;

pub const RUN_SIZE: usize = 9;

pub const RUN_AFFINE: usize = 13;

pub const RUN_BRUSH: usize = 61;

pub const RUN_BOX: usize = 69;

pub const RUN_COUNT: usize = 101;

pub const RUN_LENGTH: usize = 103;

pub const RUN_GLYPHS: usize = RUN_LENGTH;

// GLYPH: id, x, y, box.
pub const GLYPH_ID: usize = 1;

pub const GLYPH_X: usize = 5;

pub const GLYPH_Y: usize = 9;

pub const GLYPH_BOX: usize = 13;

pub const GLYPH_LENGTH: usize = 45;

// SCENE: content, generation, target, affine, box.
pub const SCENE_CONTENT: usize = 1;

pub const SCENE_GENERATION: usize = 9;

pub const SCENE_TARGET: usize = 17;

pub const SCENE_AFFINE: usize = 25;

pub const SCENE_BOX: usize = 73;

pub const SCENE_LENGTH: usize = 105;
