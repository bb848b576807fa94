// A timer's calls over the lent board (bus.rs, `Mmio`): read, peek, reset, deliver. Crate write has the writes.
// A cycle below 2^63 and a size of at most 4 bytes are plain numbers: they are compared, summed and stored, and a type would be put together and taken
// apart at each call.
#![tactic(auto)]

ghost use Rattle.std.specs.Prelude.{◌≡◌, cond, List, ◌+◌, ◌<◌, ◌≤◌, Float};
ghost use Rattle.tim.specs.Count.{cnt_at};
ghost use Rattle.regs.specs.Regs as R;
ghost use Rattle.periph.specs.Lane.{lane_read};
ghost use Rattle.state.specs.Lent.{lent_board, SameLoan};
ghost use Rattle.state.specs.View.{view};
ghost use Rattle.book.specs.Book.{places, Holds, Room};
ghost use Rattle.book.specs.Lent.{slices_of, filled, SameSlices};
ghost use Rattle.machine.specs.Board.{timer_at};
ghost use Rattle.machine.specs.Call as Call;
ghost use Rattle.machine.specs.Deliver.{line_settled, rebooked};
ghost use Rattle.machine.specs.Step.{step, register, timer_reset};
ghost use Rattle.answer.specs.Promise.{Answers, AnswersLent};
ghost use Rattle.answer.specs.Refused.{told};
ghost use Rattle.mmio.specs.Leaves.{Leaves, DrivenIf, after};

use answer::{Answer, Refusal};
use book::LentBook;
use state::{LentBoard, TimerIndex, WORDS};

// ---- reads

// Timer i's register at a cycle.
fn value_of(words: &[u64; WORDS], i: TimerIndex, off: u32, cycle: u64) -> u32
    requires { cycle < 9223372036854775808 }
    ensures { (x : List Float) → result ≡ R.reg_read (timer_at (view words.now x) i.n) off cycle }
{
    let t = state::load_timer(words, i);
    regs::read_reg(t, off, cycle)
}

// Timer i's counter at a cycle: a second way of what lane_of does by value, which takes more than the Rust's time. A reload of 0, which may block the
// counter, goes the general way: so, for speed, the compiler leaves out the test for the block in what follows.
pub fn count_of(words: &[u64; WORDS], i: TimerIndex, cycle: u64) -> u32
    requires { cycle < 9223372036854775808 }
    ensures { (x : List Float) → result ≡ cnt_at (timer_at (view words.now x) i.n) cycle }
{
    let t = state::load_timer(words, i);
    if t.count.arr_act == 0 {
        return lane_of(words, i, 0x24, 4, cycle);
    }
    t.cnt_at(cycle)
}

// The lane of timer i's register at the offset. It has several callers, so it is not compiled into them: a read of the counter,
// which goes without it, stays short.
pub fn lane_of(words: &[u64; WORDS], i: TimerIndex, offset: u32, size: u32, cycle: u64) -> u32
    requires { (size ≤ 4) × (cycle < 9223372036854775808) }
    ensures { (x : List Float) → result ≡ lane_read (R.reg_read (timer_at (view words.now x) i.n) (register offset) cycle) offset size }
{
    let reg = value_of(words, i, offset / 4 * 4, cycle);
    periph::lane_read(reg, offset, size as u8)
}

// The whole of timer i's register at the offset. The counter has a short way, which is compiled into a read; every other goes the general one.
// Offsets are such numbers to C and to the manual: crate regs has the table.
#[inline(always)]
fn whole_of(words: &[u64; WORDS], i: TimerIndex, offset: u32, cycle: u64) -> u32
    requires { cycle < 9223372036854775808 }
    ensures { (x : List Float) → result ≡ lane_read (R.reg_read (timer_at (view words.now x) i.n) (register offset) cycle) offset 4 }
{
    let off = offset / 4 * 4;
    match off {
        0x24 => count_of(words, i, cycle),
        _ => lane_of(words, i, offset, 4, cycle),
    }
}

// A read of so many bytes: 0 while the timer's clock is off. A whole register, the most common read, has the counter's short way.
#[inline(always)]
fn read_sized(
    words: &[u64; WORDS],
    timer: u32,
    offset: u32,
    size: u32,
    cycle: u64,
) -> Result<Answer, Refusal>
    ensures { (x : List Float) → Answers (step (view words.now x) (Call.read timer offset size cycle)) (told result) words.now words.now x x }
{
    let i = answer::check_timer(words, timer, size, cycle)?;
    if !context::clock_on(words, i) {
        return Ok(answer::served(0));
    }
    if size == 4 {
        let whole = whole_of(words, i, offset, cycle);
        return Ok(answer::served(whole as u64));
    }
    let lane = lane_of(words, i, offset, size, cycle);
    Ok(answer::served(lane as u64))
}

// A read. That of 4 bytes is compiled for itself, so that its size is asked once: a read of the counter takes a sixth less.
#[inline(always)]
pub fn read(
    words: &[u64; WORDS],
    timer: u32,
    offset: u32,
    size: u32,
    cycle: u64,
) -> Result<Answer, Refusal>
    ensures { (x : List Float) → Answers (step (view words.now x) (Call.read timer offset size cycle)) (told result) words.now words.now x x }
{
    if size == 4 {
        return read_sized(words, timer, offset, 4, cycle);
    }
    read_sized(words, timer, offset, size, cycle)
}

// A peek: the whole register, clock or not.
pub fn peek(words: &[u64; WORDS], timer: u32, offset: u32, cycle: u64) -> Result<Answer, Refusal>
    ensures { (x : List Float) → Answers (step (view words.now x) (Call.peek timer offset cycle)) (told result) words.now words.now x x }
{
    let i = answer::check_timer(words, timer, 4, cycle)?;
    let reg = lane_of(words, i, offset, 4, cycle);
    Ok(answer::served(reg as u64))
}

// ---- what follows from a write or a reset

// Drives timer i's outputs at a count if there is one, and writes their changes to the book.
fn drive_if(
    board: &mut LentBoard<'_>,
    book: &mut LentBook<'_>,
    drive: Option<u32>,
    i: TimerIndex,
    cycle: u64,
)
    requires room { Room (book.old.count + 4) (slices_of book.old) }
    ensures same_loan { SameLoan board.old board.new }
    ensures same_slices { SameSlices book.old book.new }
    ensures driven_if { DrivenIf drive (timer_at (lent_board board.old) i.n) cycle (lent_board board.old) (lent_board board.new) (filled book.old) (filled book.new) }
    ensures at_most_four { book.new.count ≤ book.old.count + 4 }
{
    if let Some(cnt) = drive {
        outputs::drive_outputs(board, book, i, cnt, cycle);
    }
}

fn settle_line_if(words: &mut [u64; WORDS], on: bool, i: TimerIndex)
    ensures { (x : List Float) → view words.new x ≡ cond on (line_settled i.n (timer_at (view words.old x) i.n) (view words.old x)) (view words.old x) }
{
    if on {
        context::settle_line_at(words, i);
    }
}

fn rebook_if(words: &mut [u64; WORDS], on: bool, i: TimerIndex, cycle: u64)
    ensures { (x : List Float) → view words.new x ≡ cond on (rebooked i.n (timer_at (view words.old x) i.n) cycle (view words.old x)) (view words.old x) }
{
    if on {
        context::rebook(words, i, cycle);
    }
}

// What follows where timer i was stored: its outputs driven at the count if there is one, its line settled, its next event booked, each if asked for.
// Seven parameters: what follows a write or a reset, by itself. Made by its two kinds of caller, a struct of them would be taken apart here.
pub fn follow(
    board: &mut LentBoard<'_>,
    book: &mut LentBook<'_>,
    i: TimerIndex,
    drive: Option<u32>,
    lined: bool,
    booked: bool,
    cycle: u64,
)
    requires room { Room (book.old.count + 4) (slices_of book.old) }
    ensures same_loan { SameLoan board.old board.new }
    ensures same_slices { SameSlices book.old book.new }
    ensures leaves { Leaves (after (lent_board board.old) i.n cycle drive lined booked) (lent_board board.new) (filled book.old) (filled book.new) }
    ensures at_most_four { book.new.count ≤ book.old.count + 4 }
{
    drive_if(board, book, drive, i, cycle);
    settle_line_if(board.words, lined, i);
    rebook_if(board.words, booked, i, cycle);
    state::set_last(board.words, cycle);
}

// ---- reset

// Timer i at its reset values, its outputs and line settled; it is stopped, so booked for never.
fn reset_timer(board: &mut LentBoard<'_>, book: &mut LentBook<'_>, i: TimerIndex, cycle: u64)
    requires room { Room (book.old.count + 4) (slices_of book.old) }
    ensures same_loan { SameLoan board.old board.new }
    ensures same_slices { SameSlices book.old book.new }
    ensures leaves { Leaves (timer_reset (lent_board board.old) i.n cycle) (lent_board board.new) (filled book.old) (filled book.new) }
    ensures at_most_four { book.new.count ≤ book.old.count + 4 }
{
    let t = state::load_timer(board.words, i);
    let div = context::divider(board.seen(), t);
    let s = t.reset(div);
    state::store_timer(board.words, i, s);
    follow(board, book, i, Some(0), true, true, cycle);
}

// A timer's reset.
pub fn reset(
    board: &mut LentBoard<'_>,
    book: &mut LentBook<'_>,
    timer: u32,
    cycle: u64,
) -> Result<Answer, Refusal>
    ensures same_loan { SameLoan board.old board.new }
    ensures same_slices { SameSlices book.old book.new }
    ensures answers { AnswersLent (step (lent_board board.old) (Call.reset_timer timer cycle (places (slices_of book.old)))) (told result) board.old board.new }
    ensures holds { Holds (step (lent_board board.old) (Call.reset_timer timer cycle (places (slices_of book.old)))).entries (slices_of book.old) (slices_of book.new) (told result).count }
{
    book.count = 0;
    let i = answer::check_timer_and_book(board.words, timer, 4, cycle, book)?;
    reset_timer(board, book, i, cycle);
    Ok(answer::entered(book))
}

// ---- events

// Delivers the timer's events that are due.
#[inline(always)]
pub fn deliver(
    board: &mut LentBoard<'_>,
    book: &mut LentBook<'_>,
    timer: u32,
    cycle: u64,
) -> Result<Answer, Refusal>
    ensures same_loan { SameLoan board.old board.new }
    ensures same_slices { SameSlices book.old book.new }
    ensures answers { AnswersLent (step (lent_board board.old) (Call.deliver timer cycle (places (slices_of book.old)))) (told result) board.old board.new }
    ensures holds { Holds (step (lent_board board.old) (Call.deliver timer cycle (places (slices_of book.old)))).entries (slices_of book.old) (slices_of book.new) (told result).count }
{
    let i = answer::check_timer_and_book(board.words, timer, 4, cycle, book)?;
    let d = delivery::deliver(board, book, i, cycle);
    state::set_last(board.words, cycle);
    Ok(Answer {
        value: d.events,
        number: d.stop.number(),
        count: book.count as u32,
    })
}
