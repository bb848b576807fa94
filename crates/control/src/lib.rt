// The calls that are no timer's and no pin's: the clock tree, an enable word, a pending clear, and the queries (document 01, "Queries
// give"). None makes an entry. Each answers and leaves what `step` does.
#![tactic(auto)]

ghost use Rattle.std.specs.Prelude.{List, Float};
ghost use Rattle.answer.specs.Promise.{Answers, AnswersLent, Tells};
ghost use Rattle.answer.specs.Refused.{told};
ghost use Rattle.machine.specs.Call as C;
ghost use Rattle.machine.specs.Step.{step};
ghost use Rattle.state.specs.Lent.{lent_board, seen_board, SameLoan};
ghost use Rattle.state.specs.View.{view};

use answer::{Answer, Refusal};
use clk::ClockTree;
use state::{LentBoard, SeenBoard, WORDS};

// A timer's booked cycle, 2^64 - 1 if it has none.
pub fn booked(words: &[u64; WORDS], timer: u32) -> Result<Answer, Refusal>
    ensures { (x : List Float) → Answers (step (view words.now x) (C.query_booked timer)) (told result) words.now words.now x x }
{
    let i = state::timer(words, timer).ok_or(Refusal::NoSuchIndex)?;
    let cycle = state::booked(words, i);
    Ok(answer::served(cycle))
}

// The least booked cycle, 2^64 - 1 if there is none. No board refuses it: a bare answer.
pub fn next_booked(words: &[u64; WORDS]) -> Answer
    ensures { (x : List Float) → Answers (step (view words.now x) C.query_next) result words.now words.now x x }
{
    let next = state::next_booked(words);
    answer::served(next)
}

// A pin's level, and above it who holds it: level + 2 × source. The call's own form: nobody is 4 here, and 0 in a word of the state.
pub fn level(board: SeenBoard<'_>, pin: u32) -> Result<Answer, Refusal>
    ensures { Tells (step (seen_board board.entry) (C.query_level pin)) (told result) board.entry }
{
    let i = state::pin(board.words, pin).ok_or(Refusal::NoSuchIndex)?;
    let g = board.load_gpio(i);
    Ok(answer::served(g.pin.level as u64 + 2 * g.pin.source.number() as u64))
}

// The bits of a pin's volts.
pub fn volts(board: SeenBoard<'_>, pin: u32) -> Result<Answer, Refusal>
    ensures { Tells (step (seen_board board.entry) (C.query_volts pin)) (told result) board.entry }
{
    let p = state::pin(board.words, pin).ok_or(Refusal::NoSuchIndex)?;
    let g = board.load_gpio(p);
    Ok(answer::served(real::bits(g.pin.volts)))
}

// 1 if interrupt line irq is high plus 2 if it is pending; 0 without such a line. No board refuses it: a bare answer.
pub fn line(words: &[u64; WORDS], irq: u32) -> Answer
    ensures { (x : List Float) → Answers (step (view words.now x) (C.query_line irq)) result words.now words.now x x }
{
    let s = state::line_state(words, irq);
    answer::served(s)
}

// The bits of the time at a cycle.
pub fn time(board: SeenBoard<'_>, cycle: u64) -> Result<Answer, Refusal>
    ensures { Tells (step (seen_board board.entry) (C.query_time cycle)) (told result) board.entry }
{
    if answer::is_astray(board.words, cycle) {
        return Err(Refusal::ClockAstray);
    }
    let k = board.clock();
    Ok(answer::served(real::bits(k.time_at(cycle))))
}

// Clears the pending flag of interrupt line irq. No board refuses it: a bare answer.
pub fn clear_pending(words: &mut [u64; WORDS], irq: u32) -> Answer
    ensures { (x : List Float) → Answers (step (view words.old x) (C.clear_pending irq)) result words.old words.new x x }
{
    state::clear_pending(words, irq);
    answer::served(0)
}

// Writes an enable word.
pub fn enable(words: &mut [u64; WORDS], word: u32, value: u32) -> Result<Answer, Refusal>
    ensures { (x : List Float) → Answers (step (view words.old x) (C.enable word value)) (told result) words.old words.new x x }
{
    let w = word as usize;
    if w >= 9 {
        return Err(Refusal::NoSuchIndex);
    }
    state::set_enr(words, w, value);
    Ok(answer::served(0))
}

// ---- the clock tree

pub fn set_clock_tree(
    board: &mut LentBoard<'_>,
    t: ClockTree,
    cycle: u64,
) -> Result<Answer, Refusal>
    ensures same_loan { SameLoan board.old board.new }
    ensures answers { AnswersLent (step (lent_board board.old) (C.clock_tree t cycle)) (told result) board.old board.new }
{
    if !t.is_good() {
        return Err(Refusal::BadClock);
    }
    if answer::is_astray(board.words, cycle) {
        return Err(Refusal::ClockAstray);
    }
    context::set_clock_tree(board, t, cycle);
    state::set_last(board.words, cycle);
    Ok(answer::served(0))
}
