// What the programs' lines are made of. A line is written by `writeln!`, and these stand in it.
#![tactic(auto)]

use runtime::FrameWork;
use std::fmt;

// Each number after a blank.
#[derive(Clone, Copy, Debug, PartialEq, Eq)]
pub struct Numbers<'a>(pub &'a [u32]);

impl fmt::Display for Numbers<'_> {
    ghost use Rattle.std.specs.Prelude.{Some};
    ghost use Rattle.plan_printing.specs.Lines.{numbers};

    ghost output = { λ n. Some (numbers n.0.now) };

    fn fmt<W: fmt::Write>(&self, f: &mut fmt::Formatter<W>) -> fmt::Result {
        for n in self.0 {
            write!(f, " {n}")?;
        }
        Ok(())
    }
}

// A plan's totals.
#[derive(Clone, Copy, Debug, PartialEq, Eq)]
pub struct Totals(pub FrameWork);

impl fmt::Display for Totals {
    ghost use Rattle.std.specs.Prelude.{Some};
    ghost use Rattle.plan_printing.specs.Lines.{totals};

    ghost output = { λ t. Some (totals t.0.regions_transferred t.0.pixels_transferred) };

    fn fmt<W: fmt::Write>(&self, f: &mut fmt::Formatter<W>) -> fmt::Result {
        let work = self.0;
        let (regions, pixels) = (work.regions_transferred, work.pixels_transferred);
        write!(f, "regions {regions} pixels {pixels}")
    }
}
