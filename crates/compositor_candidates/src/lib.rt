// dew's BandIndex::candidates: the commands that may touch a region's band row, out of the index words.
// There is an answer for any numbers and any words.
#![tactic(auto)]

ghost use Rattle.std.specs.Prelude.{◌≡◌, ◌≤◌};
ghost use Rattle.compositor_candidates.specs.Table as Table;

use base_refusals::{Fault, Refusal};
use compositor_screen::Screen;

// The part of the words that has a row's entries: from `start` on, up to `end`.
#[derive(Clone, Copy, Debug, PartialEq, Eq)]
pub struct Part {
    pub start: usize,
    pub end: usize,
}

// Row `row` of an index with `row_count` rows.
#[tactic(auto, unfolding(crate::specs::Table::find_row, crate::specs::Table::bad_row))]
fn find_row(row_count: usize, row: usize, words: &[u32]) -> Result<Part, Refusal>
    requires { row_count ≤ 65536 }
    ensures { result ≡ Table.find_row row_count row words.now }
{
    if row_count <= row || words.len() <= row_count {
        return Err(Fault::NoRow.at(0));
    }
    let start = words[row] as usize;
    let end = words[row + 1] as usize;
    let entries = row_count + 1;
    if end < start || words.len() - entries < end {
        return Err(Fault::NoRow.at(0));
    }
    Ok(Part {
        start: entries + start,
        end: entries + end,
    })
}

// Where the words have the row of region y, or why there is none; its position is 0 either way.
pub fn find(screen: Screen, y: u32, words: &[u32]) -> Result<Part, Refusal>
    ensures row { result ≡ Table.find screen y words.now }
    ensures position { Table.position_of result ≡ 0 }
{
    if !screen.fits() {
        return Err(Fault::Size.at(0));
    }
    let row = y / screen.band_height;
    find_row(screen.band_count() as usize, row as usize, words)
}

// The row of region y itself; no word where it is refused.
pub fn candidates<'a>(screen: Screen, y: u32, words: &'a [u32]) -> &'a [u32]
    ensures { result.now ≡ Table.candidates screen y words.now }
{
    match find(screen, y, words) {
        Ok(part) => &words[part.start..part.end],
        Err(_) => &words[0..0],
    }
}
