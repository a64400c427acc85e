// Reads a strip: a cursor by value, a step for each command, and the first refusal.
#![tactic(auto)]

ghost use Rattle.std.specs.Prelude.{◌≡◌, true, ◌+◌, ◌≤◌, ◌<◌, ◌^◌, length};
ghost use Rattle.display_list_commands.specs.Bounds.{transform_of};
ghost use Rattle.strip_format.specs.Format.{length_of, command_at};
ghost use Rattle.strip_format.specs.Kinds.{code};
ghost use Rattle.strip_format.specs.Layout as Layout;
ghost use Rattle.strip_format.specs.Limits as Limits;
ghost use Rattle.strip_format.specs.Finite.{FourFinite};
ghost use Rattle.strip.specs.Steps as Steps;
ghost use Rattle.strip.specs.Reading as Reading;
ghost use Rattle.strip.specs.Effects as Effects;
ghost use Rattle.strip.specs.Effects.{settled, drawn_or_many, last_effect, CommandChecked, DrawsAt, OwnBounds};
ghost use Rattle.strip.specs.Effects.{GlyphDue, GoesOn, NearGoesOn, NearRun, GlyphPlaced, OnlyMoves, Passes};

use base_refusals::{Fault, Refusal};
use kurbo_affine::Affine;
use kurbo_geometry::Rect;
use strip_format::limits::{MOST_CLIPS, MOST_COMMANDS, MOST_DEPTH, MOST_GLYPHS};
use strip_format::{Kind, layout};

// Where reading stands: the offset, how many clips are open, what has been counted, how many glyphs are due of the run at
// `run`, and the union of its glyph boxes so far. Where none is due both stay what they were, and nothing reads them: an Option of the run would
// be taken apart and put together again at each glyph.
#[derive(Clone, Copy, Debug, PartialEq)]
pub struct Cursor {
    pub at: usize,
    pub depth: u64,
    pub clips: u64,
    pub commands: u64,
    pub glyphs: u64,
    pub due: u64,
    pub run: usize,
    pub united: Rect,
}

// What the command at the cursor does, unless it is turned away. `Draw` says that a drawing command is whole, with its offset and
// its transformed box; `Next` that only the cursor moves.
#[derive(Clone, Copy, Debug, PartialEq)]
pub enum Step {
    Next(Cursor),
    Clip(Cursor, Rect),
    Pop(Cursor),
    Draw(Cursor, usize, Rect),
    End(Cursor),
}

// What a command does, before the box of what it draws is transformed: a drawing command that is whole, with the cursor behind it,
// its offset, where the command that completes it stands, its affine and its box; or all that there is to say. All boxes are then
// transformed in one place, so that this is compiled into the loop that reads.
#[derive(Clone, Copy, Debug, PartialEq)]
enum Effect {
    Drawn {
        next: Cursor,
        offset: usize,
        at: usize,
        transform: Affine,
        bounds: Rect,
    },
    Done(Step),
}

impl Cursor {
    pub fn start(at: usize) -> Cursor
        ensures { result ≡ Steps.start_at at }
    {
        Cursor {
            at,
            depth: 0,
            clips: 0,
            commands: 0,
            glyphs: 0,
            due: 0,
            run: 0,
            united: Rect {
                x0: 0.0,
                y0: 0.0,
                x1: 0.0,
                y1: 0.0,
            },
        }
    }

    fn clip(mut self, s: &[u8]) -> Result<Step, Refusal>
        requires { (self.at + Layout.clip_length ≤ length s.now) × FourFinite s.now (self.at + Layout.clip_box) }
        ensures { result ≡ Steps.clip_step s.now self }
    {
        let at = self.at;
        if MOST_DEPTH <= self.depth || MOST_CLIPS <= self.clips {
            return Err(Fault::TooMany.at(at));
        }
        let bounds = strip_format::rect_finite(s, at + layout::CLIP_BOX);
        self.at += layout::CLIP_LENGTH;
        self.depth += 1;
        self.clips += 1;
        Ok(Step::Clip(self, bounds))
    }

    fn pop(mut self) -> Result<Step, Refusal>
        requires { self.at + Layout.pop_length < 2 ^ 64 }
        ensures { result ≡ Steps.pop_step self }
    {
        if self.depth == 0 {
            return Err(Fault::NoOpenClip.at(self.at));
        }
        self.at += layout::POP_LENGTH;
        self.depth -= 1;
        Ok(Step::Pop(self))
    }

    // Past a drawing command of this length that announces so many glyphs.
    fn drawn(mut self, len: usize, due: u64) -> Result<Cursor, Refusal>
        requires { self.at + len < 2 ^ 64 }
        ensures { result ≡ drawn_or_many self len due }
    {
        let at = self.at;
        if MOST_COMMANDS <= self.commands {
            return Err(Fault::TooMany.at(at));
        }
        self.at += len;
        self.commands += 1;
        self.due = due;
        self.run = at;
        Ok(self)
    }

    // Any drawing command. One that announces no glyph is drawn, a RUN too: in one place, so that it is compiled into its caller.
    fn draw_or_run(self, s: &[u8], kind: Kind) -> Result<Effect, Refusal>
        requires { DrawsAt s.now self.at (code kind) }
        ensures { settled result ≡ Steps.effect_of s.now self (code kind) }
    {
        let at = self.at;
        let due = announced(s, at, kind);
        if due == 0 {
            let transform = drawn_transform(s, at, kind);
            let bounds = drawn_bounds(s, at, kind);
            let next = self.drawn(kind.length(), 0)?;
            return Ok(Effect::Drawn {
                next,
                offset: at,
                at,
                transform,
                bounds,
            });
        }
        Ok(Effect::Done(Step::Next(self.drawn(layout::RUN_LENGTH, due)?)))
    }

    // The boxes of the run's glyphs up to this one, united. The first glyph stands right behind its RUN.
    fn unite(self, bounds: Rect) -> Rect
        ensures { result ≡ Steps.unite self bounds }
    {
        if self.run <= self.at && self.at - self.run == layout::RUN_GLYPHS {
            return bounds;
        }
        self.united.union(bounds)
    }

    // Past a glyph with this box.
    fn past_glyph(mut self, bounds: Rect) -> Cursor
        requires { (self.at + Layout.glyph_length < 2 ^ 64) × (0 < self.due) × (self.glyphs < Limits.most_glyphs) }
        ensures { result ≡ Steps.glyph_read self bounds }
    {
        self.united = self.unite(bounds);
        self.at += layout::GLYPH_LENGTH;
        self.glyphs += 1;
        self.due -= 1;
        self
    }

    // The glyph with this box, once its own corners are known to be finite by the run's affine.
    fn last(self, transform: Affine, bounds: Rect) -> Effect
        requires { (self.at + Layout.glyph_length < 2 ^ 64) × (0 < self.due) × (self.glyphs < Limits.most_glyphs) }
        ensures { result ≡ last_effect self transform bounds }
    {
        let next = self.past_glyph(bounds);
        if self.due == 1 {
            Effect::Drawn {
                next,
                offset: self.run,
                at: self.at,
                transform,
                bounds: next.united,
            }
        } else {
            Effect::Done(Step::Next(next))
        }
    }

    fn glyph(self, s: &[u8]) -> Result<Effect, Refusal>
        requires { (self.at + Layout.glyph_length ≤ length s.now) × (0 < self.due) × FourFinite s.now (self.at + Layout.glyph_box) }
        ensures { settled result ≡ Steps.glyph_step s.now self }
    {
        let at = self.at;
        if MOST_GLYPHS <= self.glyphs {
            return Err(Fault::TooMany.at(at));
        }
        let bounds = strip_format::rect_finite(s, at + layout::GLYPH_BOX);
        let transform = strip_command_bounds::transform_at(s, self.run);
        if transform.finite_corners(bounds) {
            Ok(self.last(transform, bounds))
        } else {
            Err(Fault::BoxNotFinite.at(at))
        }
    }
}

// The affine of a drawing command. Its floats are known to be finite, since its operands passed: no float is tested twice.
fn drawn_transform(s: &[u8], at: usize, kind: Kind) -> Affine
    requires { DrawsAt s.now at (code kind) }
    ensures { result ≡ transform_of (command_at s.now at) }
{
    strip_format::affine_finite(s, strip_format::affine_offset(at, kind))
}

// The box of a drawing command that announces no glyph, before its transform. A STROKE's is inflated.
fn drawn_bounds(s: &[u8], at: usize, kind: Kind) -> Rect
    requires { DrawsAt s.now at (code kind) × (Steps.announced s.now at (code kind) ≡ 0) }
    ensures { OwnBounds s.now at result }
{
    let bounds = strip_format::rect_finite(s, strip_format::rect_offset(at, kind));
    match kind {
        Kind::Stroke => {
            let inflation = display_list_commands::stroke_bounds_inflation(strip_format::stroke_at(
                s,
                at + layout::STROKE_STYLE,
            ));
            bounds.inflate(inflation, inflation)
        }
        _ => bounds,
    }
}

// How many glyphs the command at an offset announces.
fn announced(s: &[u8], at: usize, kind: Kind) -> u64
    requires { at + length_of (code kind) ≤ length s.now }
    ensures { result ≡ Steps.announced s.now at (code kind) }
{
    match kind {
        Kind::Run => u64::from(strip_format::glyph_count_at(s, at)),
        _ => 0,
    }
}

#[tactic(auto, unfolding(crate::specs::Steps::due_fits))]
fn due_fits(kind: Kind, due: u64) -> bool
    ensures { result ≡ Steps.due_fits (code kind) due }
{
    match kind {
        Kind::Glyph => 0 < due,
        _ => due == 0,
    }
}

// The kind is handed on as it is written, not as it was read: the compiler then makes code of its own for each kind, in which all offsets stand.
fn effect_of(s: &[u8], st: Cursor, kind: Kind) -> Result<Effect, Refusal>
    requires { CommandChecked s.now st.at (code kind) × (Steps.due_fits (code kind) st.due ≡ true) }
    ensures { settled result ≡ Steps.effect_of s.now st (code kind) }
{
    match kind {
        Kind::End => {
            let mut end = st;
            end.at += layout::END_LENGTH;
            Ok(Effect::Done(Step::End(end)))
        }
        Kind::Clip => Ok(Effect::Done(st.clip(s)?)),
        Kind::Pop => Ok(Effect::Done(st.pop()?)),
        Kind::Fill => st.draw_or_run(s, Kind::Fill),
        Kind::Stroke => st.draw_or_run(s, Kind::Stroke),
        Kind::Run => st.draw_or_run(s, Kind::Run),
        Kind::Glyph => st.glyph(s),
        Kind::Scene => st.draw_or_run(s, Kind::Scene),
    }
}

// The step, once the box of what is drawn is transformed.
fn settle(effect: Effect) -> Result<Step, Refusal>
    ensures { result ≡ Effects.settle effect }
{
    match effect {
        Effect::Drawn {
            next,
            offset,
            at,
            transform,
            bounds,
        } => {
            // A `match`: by `ok_or(..)?` the step goes through memory once more, and reading takes 6 per cent more instructions.
            match transform.try_transform(bounds) {
                Some(transformed) => Ok(Step::Draw(next, offset, transformed)),
                None => Err(Fault::BoxNotFinite.at(at)),
            }
        }
        Effect::Done(step) => Ok(step),
    }
}

// One command: turned away, or read. Any cursor will do; one past the end is a refusal too. Compiled into its caller, for a program has one loop that
// reads: left to the compiler, whether all of a step is goes by what else it compiles, and then a page turn takes 3 per cent more instructions.
#[inline(always)]
pub fn take_step(s: &[u8], st: Cursor) -> Result<Step, Refusal>
    ensures { result ≡ Steps.step_at s.now st }
{
    let at = st.at;
    if s.len() <= at {
        return Err(Fault::CutOff.at(s.len()));
    }
    let byte = s[at];
    let Ok(kind) = Kind::try_from(byte) else {
        return Err(Fault::UnknownCode.at(at));
    };
    if !due_fits(kind, st.due) {
        return Err(Fault::GlyphOrder.at(at));
    }
    if s.len() - at < kind.length() {
        return Err(Fault::CutOff.at(at));
    }
    // A `match`: `?` alone could not say where the fault is, and `map_err` would be handed the place in a closure.
    match strip_operand_checks::operands(s, at, byte) {
        Ok(()) => settle(effect_of(s, st, kind)?),
        Err(fault) => Err(fault.at(at)),
    }
}

// True only where a glyph that is due stands whole at the cursor, and is not the last of its run.
fn glyph_due(s: &[u8], st: Cursor) -> bool
    ensures { result ≡ true → GlyphDue s.now st }
{
    2 <= st.due && st.glyphs < MOST_GLYPHS && strip_command_bounds::stands(s, st.at, Kind::Glyph)
}

// True only where the place of such a glyph is finite. Tested here and not by `strip_operand_checks::glyph_passes`, which asks for each float
// whether it stands whole.
#[tactic(auto, using(crate::proofs::Due::due_inside))]
fn glyph_placed(s: &[u8], st: Cursor) -> bool
    ensures { result ≡ true → GlyphPlaced s.now st }
{
    glyph_due(s, st)
        && base_little_endian::finite32_inside(s, st.at + layout::GLYPH_X)
        && base_little_endian::finite32_inside(s, st.at + layout::GLYPH_Y)
}

// True only where such a glyph passes, by the run's affine.
#[tactic(auto, using(crate::proofs::Due::placed_inside, crate::proofs::Due::placed_goes_on, strip_format::proofs::Floats::four_finite))]
fn glyph_goes_on(s: &[u8], st: Cursor, transform: Affine) -> bool
    ensures { result ≡ true → GoesOn s.now st transform }
{
    glyph_placed(s, st)
        && strip_format::all_finite(s, st.at + layout::GLYPH_BOX, 4)
        && transform.finite_corners(strip_format::rect_finite(s, st.at + layout::GLYPH_BOX))
}

// True only where the floats of such a glyph are finite, and those of its box below 2^500.
#[tactic(auto, using(crate::proofs::Due::placed_inside))]
fn near_goes_on(s: &[u8], st: Cursor) -> bool
    ensures { result ≡ true → NearGoesOn s.now st }
{
    glyph_placed(s, st) && strip_format::near_rect(s, st.at + layout::GLYPH_BOX)
}

// True only where a RUN stands at an offset whose affine's entries are below 2^500.
#[tactic(auto, using(crate::proofs::Due::run_inside))]
fn near_run(s: &[u8], at: usize) -> bool
    ensures { result ≡ true → NearRun s.now at }
{
    strip_command_bounds::stands(s, at, Kind::Run)
        && strip_format::near_rect(s, at + layout::RUN_AFFINE)
        && strip_format::near_rect(s, at + layout::RUN_AFFINE + 16)
}

// Past the glyphs at the cursor that only move it, as long as a test that tells such a glyph finds one.
fn pass_while<F: Fn(Cursor) -> bool>(s: &[u8], st: Cursor, goes_on: F) -> Cursor
    requires callable { F.IsAlwaysCallable goes_on }
    requires told { (c : Cursor) → c.run ≡ st.run → F.post goes_on c true → OnlyMoves s.now c }
    ensures { (result.run ≡ st.run) × Passes s.now st result }
{
    let mut next = st;
    while goes_on(next) {
        let bounds = strip_format::rect_finite(s, next.at + layout::GLYPH_BOX);
        next = next.past_glyph(bounds);
    }
    next
}

// Past the glyphs at the cursor that only move it: as many steps at once, with the run's affine read once for all of them. As far as they
// and their run are near no corner is computed: such an affine takes no corner of such a box out of range. Not compiled into its caller, which
// would leave its loops fewer registers: reading a glyph takes a fifth less so.
#[inline(never)]
pub fn pass_glyphs(s: &[u8], st: Cursor) -> Cursor
    ensures { Passes s.now st result }
{
    if st.due < 2 {
        return st;
    }
    let mut near = st;
    if near_run(s, st.run) {
        near = pass_while(s, st, |c| near_goes_on(s, c));
        if near.due < 2 {
            return near;
        }
    }
    let transform = strip_command_bounds::transform_at(s, st.run);
    pass_while(s, near, |c| glyph_goes_on(s, c, transform))
}

// Reads a strip from an offset to its END, and answers where it ended.
pub fn read_strip(s: &[u8], at: usize) -> Result<Cursor, Refusal>
    ensures { result ≡ Reading.read_strip s.now at }
{
    let mut st = Cursor::start(at);
    loop {
        match take_step(s, st)? {
            Step::Next(t) | Step::Clip(t, _) | Step::Pop(t) | Step::Draw(t, _, _) => {
                st = t;
            }
            Step::End(t) => {
                return Ok(t);
            }
        }
    }
}
