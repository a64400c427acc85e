// Why a call is turned away, and where.
#![tactic(auto)]

ghost use Rattle.std.specs.Prelude.{◌≡◌};
ghost use Rattle.base_refusals.specs.Table as Table;

use std::fmt;

// The cases of document 01's table, each with a number of its own.
#[derive(Clone, Copy, Debug, PartialEq, Eq)]
pub enum Fault {
    // A width, height or band height is 0 or too large.
    Size = 1,
    // The bytes end within the header, before a command or within one.
    CutOff = 2,
    // A byte is no command's, or a code no join's or cap's.
    UnknownCode = 3,
    // A float is infinite or a NaN.
    NotFinite = 4,
    // A clip is closed where none is open.
    NoOpenClip = 5,
    // One clip, drawing command or glyph more than a frame may have.
    TooMany = 6,
    // A glyph where none is due, or another command while glyphs are due.
    GlyphOrder = 7,
    // A byte follows the end.
    TrailingByte = 8,
    // An inflated edge or a transformed corner of a box is not finite.
    BoxNotFinite = 9,
    // The space lent is too small.
    NoRoom = 10,
    // The index words do not have the region's row.
    NoRow = 11,
}

// A fault, and the byte of the input at which it was found.
#[derive(Clone, Copy, Debug, PartialEq, Eq)]
pub struct Refusal {
    pub fault: Fault,
    pub position: usize,
}

impl Fault {
    // The number that callers in other languages get.
    pub fn number(self) -> u32
        ensures { result ≡ Table.number self }
    {
        self as u32
    }

    // The fault at a byte.
    pub fn at(self, position: usize) -> Refusal
        ensures { result ≡ Table.refusal self position }
    {
        Refusal {
            fault: self,
            position,
        }
    }
}

impl fmt::Display for Refusal {
    ghost use Rattle.std.specs.Prelude.{Some};
    ghost use Rattle.base_refusals.specs.Table.{line};

    ghost output = { λ r. Some (line r) };

    fn fmt<W: fmt::Write>(&self, f: &mut fmt::Formatter<W>) -> fmt::Result {
        let (number, position) = (self.fault.number(), self.position);
        write!(f, "refused {number} at {position}")
    }
}
