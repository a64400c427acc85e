// A strip held together with the offset at which it is read, above the cursor's functions; and two functions for callers that have a strip and a place in
// it: `cursor_at`, from which strips are recorded, and `read_behind`. A crate of its own, so that its edits need not check all of `strip`.
#![tactic(auto)]

ghost use Rattle.std.specs.Prelude.{◌≡◌};
ghost use Rattle.strip.specs.Reading as Reading;
ghost use Rattle.strip.specs.Steps as Steps;

use base_refusals::Refusal;
use strip::Cursor;

#[derive(Clone, Copy, Debug)]
pub struct Reader<'a> {
    pub src: &'a [u8],
    pub at: usize,
}

impl<'a> Reader<'a> {
    // At the first byte.
    pub fn new(src: &'a [u8]) -> Reader<'a>
        ensures { (result.src ≡ src.entry) × (result.at ≡ 0) }
    {
        Reader { src, at: 0 }
    }

    // At another offset of the same bytes.
    pub fn moved(self, at: usize) -> Reader<'a>
        ensures { (result.src ≡ self.entry.src) × (result.at ≡ at) }
    {
        Reader { src: self.src, at }
    }

    // The strip that begins at the offset.
    pub fn read(self) -> Result<Cursor, Refusal>
        ensures { result ≡ Reading.read_strip self.entry.src.now self.entry.at }
    {
        strip::read_strip(self.src, self.at)
    }

    // The cursor at the offset, before anything is read of the strip that begins there.
    pub fn cursor(self) -> Cursor
        ensures { result ≡ Steps.start_at self.entry.at }
    {
        Cursor::start(self.at)
    }
}

// The cursor at an offset of a strip. Every strip that is planned from is read from here, a command at a time.
pub fn cursor_at(s: &[u8], at: usize) -> Cursor
    ensures { result ≡ Steps.start_at at }
{
    Reader::new(s).moved(at).cursor()
}

// The strip behind one that was read.
pub fn read_behind(s: &[u8], old: Cursor) -> Result<Cursor, Refusal>
    ensures { result ≡ Reading.read_strip s.now old.at }
{
    Reader::new(s).moved(old.at).read()
}
