// What a frame may have at most: clips open at once, clips, drawing commands and glyphs. `specs/Limits` says the same for contracts.

pub const MOST_DEPTH: u64 = 32;

pub const MOST_CLIPS: u64 = 4096;

pub const MOST_COMMANDS: u64 = 4096;

pub const MOST_GLYPHS: u64 = 16384;
