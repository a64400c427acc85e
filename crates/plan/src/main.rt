// The plan program: reads a header and two strips from standard input, and prints what has to be drawn anew, or why the
// input is turned away.
#![tactic(auto)]

ghost use Rattle.std.specs.Prelude.{◌*◌, ◌≤◌, vec_len};

use base_refusals::Fault;
use plan_answers::Plan;
use plan_entry_calls::{Entry, Limits, Space};
use plan_printing::{Numbers, Totals};
use std::io;
use std::io::{BufWriter, Read, Write};

// The longest input that is planned.
const LONGEST_INPUT: usize = 65536;

// The space that document 01 names: 2,048 rectangles, 4,096 regions and 16,384 index words, and more commands, glyphs
// and clips than 65,536 bytes can carry. The shortest drawing command has 97 bytes, so that there are 675 at most; a glyph
// has 45 (1,456 at most) and a clip 33 (1,985).
const LENT: Limits = Limits {
    commands: 1024,
    glyphs: 2048,
    clips: 2048,
    rectangles: 2048,
    regions: 4096,
    index_words: 16384,
};

// The whole plan: the number of rectangles, the regions, each with the candidates that the plan's own words give, and the totals. An
// input that has a plan has its three sizes.
fn write_plan(
    out: &mut impl Write,
    input: &[u8],
    plan: Plan,
    regions: &[u32],
    words: &[u32],
) -> io::Result<()> {
    let Ok(screen) = strip_frame::read_header(input) else {
        return Ok(());
    };
    let Plan { rects, work, .. } = plan;
    writeln!(out, "dirty {rects}")?;
    let (regions, _) = regions.as_chunks::<4>();
    for [x, y, wide, high] in regions {
        let row = compositor_candidates::candidates(screen, *y, words);
        writeln!(out, "region {x} {y} {wide} {high} draw{}", Numbers(row))?;
    }
    writeln!(out, "{}", Totals(work))
}

// The part of the output that a plan counts.
fn write_planned(out: &mut impl Write, input: &[u8], plan: Plan, space: &Space) -> io::Result<()>
    requires regions { 4 * plan.work.regions_transferred ≤ vec_len space.now.regions }
    requires words { plan.words ≤ vec_len space.now.words }
{
    let regions = &space.regions[..4 * plan.work.regions_transferred as usize];
    let words = &space.words[..plan.words];
    write_plan(out, input, plan, regions, words)
}

fn answer(out: &mut impl Write, space: &mut Space, input: &[u8]) -> io::Result<()> {
    match space.plan(Entry::Next, input) {
        Ok(plan) => write_planned(out, input, plan, space),
        Err(why) => writeln!(out, "{why}"),
    }
}

// One byte more than an input may have shows that it is too long.
fn main(rt: HostRuntime) -> io::Result<()> {
    let alloc = rt.alloc();
    let mut input = Vec::with_capacity(alloc, LONGEST_INPUT + 1)?;
    let most = LONGEST_INPUT as u64 + 1;
    if let Err(error) = rt.stdin().take(most).read_to_end(&mut input) {
        eprintln!(rt; "plan: standard input could not be read to its end")?;
        return Err(error);
    }
    let mut out = BufWriter::new(alloc, io::writer(&rt))?;
    if input.len() > LONGEST_INPUT {
        writeln!(out, "{}", Fault::NoRoom.at(0))?;
    } else {
        let mut space = Space::new(alloc, LENT)?;
        answer(&mut out, &mut space, &input)?;
    }
    out.flush()
}
