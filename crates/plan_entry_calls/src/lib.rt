// Calls of the planner with space of their own: `Space` holds the thirteen slices that a call is lent.
#![tactic(auto)]

ghost use Rattle.std.specs.Prelude.{◌≡◌, IfOk};
ghost use Rattle.planner.specs.Calls.{Promise};
ghost use Rattle.plan_answers.specs.Space.{lent_of};
ghost use Rattle.plan_entry_calls.specs.Lending.{at_most, lent_for, slices_of};
ghost use Rattle.plan_answers.specs.Drafts.{outcome};

use base_refusals::Refusal;
use plan_answers::Plan;
pub use planner::Entry;
use std::alloc::{AllocError, Global};

// How many items of each kind are lent.
#[derive(Clone, Copy, Debug, PartialEq, Eq)]
pub struct Limits {
    pub commands: u32,
    pub glyphs: u32,
    pub clips: u32,
    pub rectangles: u32,
    pub regions: u32,
    pub index_words: u32,
}

impl Limits {
    // The same, but no more of any kind than there is.
    pub fn at_most(self, most: Limits) -> Limits
        ensures { result ≡ at_most self most }
    {
        Limits {
            commands: self.commands.min(most.commands),
            glyphs: self.glyphs.min(most.glyphs),
            clips: self.clips.min(most.clips),
            rectangles: self.rectangles.min(most.rectangles),
            regions: self.regions.min(most.regions),
            index_words: self.index_words.min(most.index_words),
        }
    }
}

// Space to lend: a call leaves its plan in `rects`, `regions` and `words`; the rest is scratch.
#[derive(Drop)]
pub struct Space {
    pub rects: Vec<f64>,
    pub regions: Vec<u32>,
    pub words: Vec<u32>,
    pub boxes: Vec<f64>,
    pub below: Vec<u64>,
    pub items: Vec<u64>,
    pub item_boxes: Vec<f64>,
    pub glyph_items: Vec<u64>,
    pub draft_rects: Vec<f64>,
    pub work: Vec<u64>,
    pub spare: Vec<u64>,
    pub draft_regions: Vec<u32>,
    pub draft_words: Vec<u32>,
}

impl Space {
    // Space for so many items of each kind.
    pub fn new(alloc: Global, limits: Limits) -> Result<Space, AllocError>
        ensures { IfOk result (λ space. lent_of (slices_of space) ≡ lent_for limits) }
    {
        let commands = limits.commands as usize;
        let clips = limits.clips as usize;
        let rectangles = limits.rectangles as usize;
        let region_words = 4 * limits.regions as usize;
        let index_words = limits.index_words as usize;
        Ok(Space {
            rects: vec![in alloc; 0.0; 4 * rectangles]?,
            regions: vec![in alloc; 0; region_words]?,
            words: vec![in alloc; 0; index_words]?,
            boxes: vec![in alloc; 0.0; 8 * clips]?,
            below: vec![in alloc; 0; clips]?,
            items: vec![in alloc; 0; 2 * commands]?,
            item_boxes: vec![in alloc; 0.0; 4 * commands]?,
            glyph_items: vec![in alloc; 0; limits.glyphs as usize]?,
            draft_rects: vec![in alloc; 0.0; 4 * rectangles]?,
            work: vec![in alloc; 0; rectangles]?,
            spare: vec![in alloc; 0; rectangles]?,
            draft_regions: vec![in alloc; 0; region_words]?,
            draft_words: vec![in alloc; 0; index_words]?,
        })
    }

    // The plan that the entry makes of its input, or its refusal.
    pub fn plan(&mut self, entry: Entry, input: &[u8]) -> Result<Plan, Refusal>
        ensures promise { Promise (outcome entry input.now) (slices_of self.old) (slices_of self.new) result }
        ensures space { lent_of (slices_of self.new) ≡ lent_of (slices_of self.old) }
    {
        planner::plan(
            entry,
            input,
            &mut self.rects,
            &mut self.regions,
            &mut self.words,
            &mut self.boxes,
            &mut self.below,
            &mut self.items,
            &mut self.item_boxes,
            &mut self.glyph_items,
            &mut self.draft_rects,
            &mut self.work,
            &mut self.spare,
            &mut self.draft_regions,
            &mut self.draft_words,
        )
    }
}

#[cfg(test)]
mod tests;
