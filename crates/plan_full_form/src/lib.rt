// Answers in the oracle's full form: everything that a call says, an edge as its bits. A plan is not taken at its word
// here: what it counts past the words given is left out, so that a wrong count shows as a difference of the text.
#![tactic(auto)]

ghost use Rattle.std.specs.Prelude.{OnOk, IfSome};
ghost use Rattle.std.specs.Io.KnownBytes.{Appends};
ghost use Rattle.compositor_candidates.specs.Table.{find};
ghost use Rattle.plan_full_form.specs.Texts.{refused_line, row_line};

use base_refusals::Refusal;
use compositor_screen::Screen;
use plan_answers::Plan;
use plan_entry_calls::{Entry, Space};
use plan_frame_drafts::Items;
use plan_printing::{Numbers, Totals};
use runtime::FrameWork;
use std::io::Write;
use std::{fmt, io};

// The bits of an edge, a zero without its sign: only that sign is open.
#[derive(Clone, Copy, Debug, PartialEq)]
struct Edge(f64);

impl fmt::Display for Edge {
    fn fmt<W: fmt::Write>(&self, f: &mut fmt::Formatter<W>) -> fmt::Result {
        let edge = self.0;
        if edge.is_nan() {
            return write!(f, "no number");
        }
        let bits = if edge == 0.0 { 0 } else { edge.to_bits() };
        write!(f, "{bits:016x}")
    }
}

// What the strips of a call have; nothing where the input is refused. They are read as the planner reads them, into no space at all: where a program
// holds two functions that read, the compiler leaves the steps of both by themselves, and `replay` then takes twice the time.
fn items_of(entry: Entry, input: &[u8]) -> Option<Items> {
    strip_recording::record_strips(entry, input, &mut [], &mut [], &mut [], &mut [])
        .ok()
        .map(Items::from)
}

// How many starts the index of an input has: one a row, and the end of the last. Nothing without a header.
fn start_count(input: &[u8]) -> Option<usize> {
    let screen = strip_frame::read_header(input).ok()?;
    Some(screen.band_count() as usize + 1)
}

fn write_rects(out: &mut impl Write, rects: &[f64]) -> io::Result<()> {
    for [left, top, right, bottom] in rects.as_chunks::<4>().0 {
        writeln!(
            out,
            "rectangle {} {} {} {}",
            Edge(*left),
            Edge(*top),
            Edge(*right),
            Edge(*bottom)
        )?;
    }
    Ok(())
}

fn write_regions(out: &mut impl Write, regions: &[u32]) -> io::Result<()> {
    for region in regions.chunks_exact(4) {
        writeln!(out, "region{}", Numbers(region))?;
    }
    Ok(())
}

// The starts, and the entries behind them.
fn write_index(out: &mut impl Write, starts: usize, words: &[u32]) -> io::Result<()> {
    let (starts, entries) = words.split_at(starts.min(words.len()));
    writeln!(out, "starts{}", Numbers(starts))?;
    writeln!(out, "entries{}", Numbers(entries))
}

// As much of the output as is counted, if there is so much.
fn front<T>(words: &[T], count: usize) -> &[T] {
    words.get(..count).unwrap_or(words)
}

fn write_plan(
    out: &mut impl Write,
    entry: Entry,
    input: &[u8],
    plan: Plan,
    space: &Space,
) -> io::Result<()> {
    let Plan { rects, words, work } = plan;
    let FrameWork {
        commands_emitted,
        regions_transferred: regions,
        ..
    } = work;
    writeln!(
        out,
        "accepted\ncommands {commands_emitted}\nrectangles {rects}"
    )?;
    write_rects(out, front(&space.rects, rects.saturating_mul(4)))?;
    writeln!(out, "{}", Totals(work))?;
    write_regions(
        out,
        front(&space.regions, (regions as usize).saturating_mul(4)),
    )?;
    if let Some(starts) = start_count(input) {
        writeln!(out, "words {words}")?;
        write_index(out, starts, front(&space.words, words))?;
    }
    // The least space that would have done: what was counted in the strips, then what the plan counts.
    if let Some(items) = items_of(entry, input) {
        let Items {
            commands,
            glyphs,
            clips,
        } = items;
        writeln!(
            out,
            "space {commands} {glyphs} {clips} {rects} {regions} {words}"
        )?;
    }
    Ok(())
}

// The answer of an entry, whose plan stands in the space.
pub fn write_answer<W: Write>(
    out: &mut W,
    entry: Entry,
    input: &[u8],
    plan: Result<Plan, Refusal>,
    space: &Space,
) -> io::Result<()>
    ensures { OnOk result (IfSome (refused_line plan) (Appends (W.contents out.old) (W.contents out.new))) }
{
    match plan {
        Ok(accepted) => write_plan(out, entry, input, accepted, space),
        Err(why) => writeln!(out, "{why}"),
    }
}

// The answer of `candidates`.
pub fn write_candidates<W: Write>(
    out: &mut W,
    screen: Screen,
    y: u32,
    words: &[u32],
) -> io::Result<()>
    ensures { OnOk result (Appends (W.contents out.old) (W.contents out.new) (row_line (find screen y words.now) words.now)) }
{
    if let Err(why) = compositor_candidates::find(screen, y, words) {
        return writeln!(out, "{why}");
    }
    let row = compositor_candidates::candidates(screen, y, words);
    writeln!(out, "draw{}", Numbers(row))
}
