// Answers a batch of calls in the oracle's framing, so that the entries and `candidates` can be held to stored answers. A
// call stands behind its length; its first byte says which function is called, and a frame's next six words how much space
// is lent. Each answer is followed by a line with a single dot.
#![tactic(auto)]

use base_little_endian::u32_at;
use plan_entry_calls::{Entry, Limits, Space};
use std::alloc::Global;
use std::io;
use std::io::{BufWriter, Read, Write};

// The longest call has two strips at every limit.
const LONGEST_CALL: usize = 1572864;

// More of everything than two strips at every limit need. A call is lent as much of it as it names.
const MOST: Limits = Limits {
    commands: 8256,
    glyphs: 32832,
    clips: 8256,
    rectangles: 8256,
    regions: 32832,
    index_words: 65664,
};

// What a call's first byte asks for.
#[derive(Clone, Copy, Debug, PartialEq, Eq)]
enum Function {
    Plan(Entry),
    Candidates,
}

impl From<u8> for Function {
    fn from(byte: u8) -> Function {
        match byte {
            1 => Function::Plan(Entry::First),
            3 => Function::Candidates,
            _ => Function::Plan(Entry::Next),
        }
    }
}

// Fills the room from the input, and says whether the input had so many bytes.
fn read_whole(input: &mut impl Read, room: &mut [u8]) -> io::Result<bool> {
    match input.read_exact(room) {
        Ok(()) => Ok(true),
        Err(error) if error.kind() == io::ErrorKind::UnexpectedEof => Ok(false),
        Err(error) => Err(error),
    }
}

// Reads the next call; nothing where there is none, or none that is whole. A call without a byte ends them too.
fn read_call<'a>(
    rt: &impl Eprint,
    input: &mut impl Read,
    room: &'a mut [u8],
) -> io::Result<Option<&'a [u8]>> {
    let mut length = [0u8; 4];
    if !read_whole(input, &mut length)? {
        return Ok(None);
    }
    let length = u32::from_le_bytes(length) as usize;
    if length == 0 {
        return Ok(None);
    }
    let Some(call) = room.get_mut(..length) else {
        eprintln!(rt; "replay: a call is too long")?;
        return Ok(None);
    };
    if !read_whole(input, call)? {
        eprintln!(rt; "replay: the last call is cut off")?;
        return Ok(None);
    }
    Ok(Some(call))
}

// A frame: six words that say how much space is lent, then the entry's input.
fn answer_frame(out: &mut impl Write, alloc: Global, entry: Entry, call: &[u8]) -> io::Result<()> {
    let Some((lent, input)) = call.split_at_checked(24) else {
        return writeln!(out, "the space lent is cut off");
    };
    let limits = Limits {
        commands: u32_at(lent, 0),
        glyphs: u32_at(lent, 4),
        clips: u32_at(lent, 8),
        rectangles: u32_at(lent, 12),
        regions: u32_at(lent, 16),
        index_words: u32_at(lent, 20),
    };
    let mut space = Space::new(alloc, limits.at_most(MOST))?;
    let plan = space.plan(entry, input);
    plan_full_form::write_answer(out, entry, input, plan, &space)
}

// Header, y and words. The header may have any sizes: those that do not fit are refused where the row is looked up.
fn answer_candidates(out: &mut impl Write, alloc: Global, call: &[u8]) -> io::Result<()> {
    let Some((numbers, words)) = call.split_at_checked(16) else {
        return writeln!(out, "header or y is cut off");
    };
    let words = words
        .chunks_exact(4)
        .take(MOST.index_words as usize)
        .map(|word| u32_at(word, 0))
        .collect::<Vec<u32>>(alloc)?;
    let screen = strip_frame::sizes_at(numbers);
    plan_full_form::write_candidates(out, screen, u32_at(numbers, 12), &words)
}

// The answer to a call, and the dot behind it.
fn answer(out: &mut impl Write, alloc: Global, call: &[u8]) -> io::Result<()> {
    if let Some((first, rest)) = call.split_first() {
        match Function::from(*first) {
            Function::Plan(entry) => answer_frame(out, alloc, entry, rest)?,
            Function::Candidates => answer_candidates(out, alloc, rest)?,
        }
    }
    writeln!(out, ".")
}

// All calls of standard input.
fn answer_calls(
    rt: &impl Eprint,
    input: &mut impl Read,
    out: &mut impl Write,
    alloc: Global,
) -> io::Result<()> {
    let mut room = vec![in alloc; 0u8; LONGEST_CALL]?;
    // A proved loop ends: it has more turns than any batch uses up.
    for _ in 0..u64::MAX {
        let Some(call) = read_call(rt, input, &mut room)? else {
            break;
        };
        answer(out, alloc, call)?;
    }
    Ok(())
}

fn main(rt: HostRuntime) -> io::Result<()> {
    let alloc = rt.alloc();
    let mut out = BufWriter::new(alloc, io::writer(&rt))?;
    if let Err(error) = answer_calls(&rt, &mut rt.stdin(), &mut out, alloc) {
        // Where reading or writing fails, what was gathered by then is lost.
        let _ = out.into_parts();
        return Err(error);
    }
    out.flush()
}
