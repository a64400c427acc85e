// Strips read into lent space: dew's display lists, built while their bytes are checked. What does not fit is counted
// on, so that every refusal of the strips is found before space is judged.
#![tactic(auto)]

ghost use Rattle.std.specs.Prelude.{◌≡◌, ◌≤◌};
ghost use Rattle.strip_format.specs.Limits as Limits;
ghost use Rattle.strip_frame.specs.Frame as Frame;
ghost use Rattle.strip.specs.Reading.{read_strip};
ghost use Rattle.strip_recording.specs.Recorded.{space, SameLengths, Records, RecordsNew, RecordsStrips};

use base_refusals::Refusal;
use display_list::ListState;
use strip::{Cursor, Step};
use strip_frame::{Entry, HEADER_LENGTH, Strips};

// The strip at an offset, recorded behind so many clips and commands.
// The four lent slices stay parameters, here and below: tried as fields of a struct, and the proof doesn't close, since a call
// that lends several fields which are `&mut` slices themselves isn't covered.
fn record_strip(
    s: &[u8],
    at: usize,
    clips: usize,
    commands: usize,
    boxes: &mut [f64],
    below: &mut [u64],
    items: &mut [u64],
    item_boxes: &mut [f64],
) -> Result<Cursor, Refusal>
    requires { (clips ≤ Limits.most_clips) × (commands ≤ Limits.most_commands) }
    ensures answer { result ≡ read_strip s.now at }
    ensures lengths { SameLengths (space boxes.old below.old items.old item_boxes.old) (space boxes.new below.new items.new item_boxes.new) }
    ensures lists { Records s.now at clips commands (space boxes.old below.old items.old item_boxes.old)
        (space boxes.new below.new items.new item_boxes.new) result }
{
    let mut st = strip_reader::cursor_at(s, at);
    let mut list = ListState {
        clips,
        top: 0,
        depth: 0,
        commands,
    };
    loop {
        match strip::take_step(s, st)? {
            Step::Next(t) => {
                st = strip::pass_glyphs(s, t);
            }
            Step::Clip(t, rect) => {
                st = t;
                list = list.push_clip(boxes, below, rect);
            }
            Step::Pop(t) => {
                st = t;
                list = list.pop_clip(below);
            }
            Step::Draw(t, offset, rect) => {
                st = t;
                let bounds = list.clip_rect(boxes, rect);
                list = list.push(items, item_boxes, offset, bounds);
            }
            Step::End(t) => {
                return Ok(t);
            }
        }
    }
}

// The new strip, recorded behind the old one, and nothing behind it.
fn record_new(
    s: &[u8],
    old: Cursor,
    boxes: &mut [f64],
    below: &mut [u64],
    items: &mut [u64],
    item_boxes: &mut [f64],
) -> Result<Strips, Refusal>
    requires { (old.clips ≤ Limits.most_clips) × (old.commands ≤ Limits.most_commands) }
    ensures answer { result ≡ Frame.then_new s.now old (read_strip s.now old.at) }
    ensures lengths { SameLengths (space boxes.old below.old items.old item_boxes.old) (space boxes.new below.new items.new item_boxes.new) }
    ensures lists { RecordsNew s.now old (space boxes.old below.old items.old item_boxes.old)
        (space boxes.new below.new items.new item_boxes.new) result }
{
    let from = old.at;
    let clips = old.clips as usize;
    let commands = old.commands as usize;
    let last = record_strip(s, from, clips, commands, boxes, below, items, item_boxes)?;
    let new = strip_frame::at_end(s, last)?;
    Ok(Strips { old, new })
}

// The strips behind the header, and nothing behind them. Of a first frame's old strip there is nothing to record.
pub fn record_strips(
    entry: Entry,
    s: &[u8],
    boxes: &mut [f64],
    below: &mut [u64],
    items: &mut [u64],
    item_boxes: &mut [f64],
) -> Result<Strips, Refusal>
    ensures answer { result ≡ Frame.strips_of entry s.now }
    ensures lengths { SameLengths (space boxes.old below.old items.old item_boxes.old) (space boxes.new below.new items.new item_boxes.new) }
    ensures lists { RecordsStrips entry s.now (space boxes.new below.new items.new item_boxes.new) result }
{
    let old = match entry {
        Entry::First => Cursor::start(HEADER_LENGTH),
        Entry::Next => record_strip(s, HEADER_LENGTH, 0, 0, boxes, below, items, item_boxes)?,
    };
    record_new(s, old, boxes, below, items, item_boxes)
}
