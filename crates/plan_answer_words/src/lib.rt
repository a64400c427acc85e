// An answer as words, for callers in other languages: as many of them as the caller has lent room for.
#![tactic(auto)]

ghost use Rattle.std.specs.Prelude.{◌≡◌};
ghost use Rattle.compositor_candidates.specs.Table as Table;
ghost use Rattle.plan_answers.specs.Answers as Answers;
ghost use Rattle.plan_answer_words.specs.Words.{overwritten, refusal_words, answer_words, no_part_words, part_words};

use base_refusals::Refusal;
use compositor_candidates::Part;
use plan_answers::Plan;

// Writes as many of the words as fit to the front of `out`, and leaves the rest of it as it is. Two calls, by a test: where all of them fit their
// number is a constant of the caller, and writing them is a store or two; by `min` it is a call of memcpy, which takes longer than the row's look-up.
fn overwrite(words: &[u64], out: &mut [u64])
    ensures { out.new ≡ overwritten words.now out.old }
{
    if words.len() <= out.len() {
        base_lists::copy_front(words, words.len(), out);
    } else {
        base_lists::copy_front(words, out.len(), out);
    }
}

// Writes a refusal's seven words, whatever its number is, and hands the number back.
pub fn put_refusal(number: u32, position: usize, answer: &mut [u64]) -> u32
    ensures number { result ≡ number }
    ensures words { answer.new ≡ overwritten (refusal_words number position) answer.old }
{
    overwrite(&[number as u64, position as u64, 0, 0, 0, 0, 0], answer);
    number
}

// Writes a plan's seven words, and hands back its number.
pub fn put_plan(plan: Result<Plan, Refusal>, answer: &mut [u64]) -> u32
    ensures number { result ≡ Answers.number_of plan }
    ensures words { answer.new ≡ overwritten (answer_words plan) answer.old }
{
    match plan {
        Ok(accepted) => {
            let words = [
                0,
                0,
                accepted.rects as u64,
                accepted.work.regions_transferred,
                accepted.words as u64,
                accepted.work.pixels_transferred,
                accepted.work.commands_emitted,
            ];
            overwrite(&words, answer);
            0
        }
        Err(why) => put_refusal(why.fault.number(), why.position, answer),
    }
}

// Writes that there is no row, and hands back why, whatever number that is.
pub fn put_no_part(why: u32, part: &mut [u64]) -> u32
    ensures number { result ≡ why }
    ensures words { part.new ≡ overwritten no_part_words part.old }
{
    overwrite(&[0, 0], part);
    why
}

// Writes where a row's entries begin and end, and hands back the number.
pub fn put_part(found: Result<Part, Refusal>, part: &mut [u64]) -> u32
    ensures number { result ≡ Table.number_of found }
    ensures words { part.new ≡ overwritten (part_words found) part.old }
{
    match found {
        Ok(row) => {
            overwrite(&[row.start as u64, row.end as u64], part);
            0
        }
        Err(why) => put_no_part(why.fault.number(), part),
    }
}
