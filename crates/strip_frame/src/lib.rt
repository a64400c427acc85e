// A whole input: its header, and the strips behind it, or the first refusal. Any bytes will do, an empty input too.
#![tactic(auto)]

ghost use Rattle.std.specs.Prelude.{◌≡◌, ◌≤◌, length};
ghost use Rattle.strip_frame.specs.Frame as Frame;
ghost use Rattle.strip.specs.Reading.{read_strip};

use base_refusals::{Fault, Refusal};
use compositor_screen::Screen;
use strip::Cursor;

// How many bytes the header has.
pub const HEADER_LENGTH: usize = 12;

// Which frame a call plans: a first one, or one after another.
#[derive(Clone, Copy, Debug, PartialEq, Eq)]
pub enum Entry {
    First,
    Next,
}

// Where the old strip ended, and where the new one. A first frame's old strip is nothing, ended where it would begin.
#[derive(Clone, Copy, Debug, PartialEq)]
pub struct Strips {
    pub old: Cursor,
    pub new: Cursor,
}

// The sizes that a header has, whatever they are.
pub fn sizes_at(s: &[u8]) -> Screen
    ensures { result ≡ Frame.sizes_at s.now }
{
    Screen {
        width: base_little_endian::u32_at(s, 0),
        height: base_little_endian::u32_at(s, 4),
        band_height: base_little_endian::u32_at(s, 8),
    }
}

pub fn read_header(s: &[u8]) -> Result<Screen, Refusal>
    ensures { result ≡ Frame.header_of s.now }
{
    if s.len() < HEADER_LENGTH {
        return Err(Fault::CutOff.at(0));
    }
    let screen = sizes_at(s);
    if !screen.fits() {
        return Err(Fault::Size.at(0));
    }
    Ok(screen)
}

// The end of an input's last strip, unless a byte follows.
pub fn at_end(s: &[u8], last: Cursor) -> Result<Cursor, Refusal>
    ensures { result ≡ Frame.ended s.now last }
{
    if last.at < s.len() {
        return Err(Fault::TrailingByte.at(last.at));
    }
    Ok(last)
}

// The new strip, read from where the old one ended, and nothing behind it.
fn new_strip(s: &[u8], old: Cursor) -> Result<Strips, Refusal>
    ensures { result ≡ Frame.then_new s.now old (read_strip s.now old.at) }
{
    let last = strip_reader::read_behind(s, old)?;
    let new = at_end(s, last)?;
    Ok(Strips { old, new })
}

// The strips behind the header, and nothing behind them. `strip_recording` has the same two for strips that are stored: this reading
// stores nothing and asks for no space, and one function over both would be handed the step as a closure.
pub fn read_strips(entry: Entry, s: &[u8]) -> Result<Strips, Refusal>
    ensures { result ≡ Frame.strips_of entry s.now }
{
    let old = match entry {
        Entry::First => Cursor::start(HEADER_LENGTH),
        Entry::Next => strip::read_strip(s, HEADER_LENGTH)?,
    };
    new_strip(s, old)
}
