// A write of a timer's register over the lent board (bus.rs, tim.rs write_reg): one general way by value, and short ways of DIER, SR, CR1 and the
// compares. A call's offset, size and value are numbers, as C gives them; offsets are such numbers to C and to the manual: crate regs has the table.
// A cycle below 2^63 and a size of at most 4 bytes are plain numbers: they are compared, summed and stored, and a type would be put together and taken
// apart at each call.
#![tactic(auto)]

ghost use Rattle.std.specs.Prelude.{◌≡◌, true, List, ◌<◌, ◌≤◌, Float};
ghost use Rattle.regs.specs.Regs as R;
ghost use Rattle.periph.specs.Lane.{lane_write};
ghost use Rattle.state.specs.Lent.{lent_board, SameLoan};
ghost use Rattle.state.specs.View.{view};
ghost use Rattle.book.specs.Book.{places, Holds, Room};
ghost use Rattle.book.specs.Lent.{slices_of, filled, SameSlices};
ghost use Rattle.machine.specs.Board.{timer_at};
ghost use Rattle.machine.specs.Call as Call;
ghost use Rattle.machine.specs.Step.{step, register, present, counter_astray};
ghost use Rattle.answer.specs.Promise.{answer, Answers, AnswersLent};
ghost use Rattle.answer.specs.Refused.{told};
ghost use Rattle.write.specs.Writes.{written, written_by, written_on};

use answer::{Answer, Refusal};
use book::LentBook;
use fields::Reg;
use state::{LentBoard, TimerIndex, WORDS};
use tim::{Channel, Timer};

// The register's present value, 0 for EGR.
fn present(words: &[u64; WORDS], i: TimerIndex, off: u32, cycle: u64) -> u32
    requires { (register off ≡ off) × (cycle < 9223372036854775808) }
    ensures { (x : List Float) → result ≡ present (timer_at (view words.now x) i.n) off cycle }
{
    if off == 0x14 {
        return 0;
    }
    mmio::lane_of(words, i, off, 4, cycle)
}

// The lane merged into its register. A whole write needs no present value.
fn merged(
    words: &[u64; WORDS],
    i: TimerIndex,
    offset: u32,
    size: u32,
    value: u32,
    cycle: u64,
) -> u32
    requires { (size ≤ 4) × (cycle < 9223372036854775808) }
    ensures { (x : List Float) → result ≡ lane_write (present (timer_at (view words.now x) i.n) (register offset) cycle) offset size value }
{
    if size == 4 {
        return value;
    }
    let old = present(words, i, offset / 4 * 4, cycle);
    periph::lane_write(old, offset, size as u8, value)
}

// A write to CR1, CNT or ARR after which the timer would run upward with its counter above the active reload + 1.
fn counter_astray(off: u32, t: Timer) -> bool
    ensures { result ≡ counter_astray off t }
{
    matches!(off, 0x00 | 0x24 | 0x2c) && regs::is_astray(t)
}

// ---- the general way

// A write of the value v to register off by way of the whole timer: `regs::write_reg` has the match on the register. Refused, or its entries are in the book.
fn write_timer(
    board: &mut LentBoard<'_>,
    book: &mut LentBook<'_>,
    i: TimerIndex,
    off: u32,
    v: u32,
    cycle: u64,
) -> Result<(), Refusal>
    requires cycle { cycle ≤ 4611686018427387904 }
    requires empty { book.old.count ≡ 0 }
    requires room { Room 4 (slices_of book.old) }
    ensures same_loan { SameLoan board.old board.new }
    ensures same_slices { SameSlices book.old book.new }
    ensures answers { AnswersLent (written_by (lent_board board.old) i.n off v cycle) (written result book.new.count) board.old board.new }
    ensures holds { Holds (written_by (lent_board board.old) i.n off v cycle).entries (slices_of book.old) (slices_of book.new) (written result book.new.count).count }
    ensures at_most_four { book.new.count ≤ 4 }
{
    let t = state::load_timer(board.words, i);
    let div = context::divider(board.seen(), t);
    let w = regs::write_reg(t, off, v, cycle, div);
    if counter_astray(off, w.timer) {
        return Err(Refusal::CounterAstray);
    }
    state::store_live(board.words, i, w.timer);
    mmio::follow(board, book, i, w.drive, w.line, w.book, cycle);
    Ok(())
}

// ---- short ways: of the registers that a running program writes, the words that change are stored

// CR1. A write that starts, stops or turns the timer goes the general way.
#[inline(always)]
fn write_cr1(
    board: &mut LentBoard<'_>,
    book: &mut LentBook<'_>,
    i: TimerIndex,
    v: u32,
    cycle: u64,
) -> Result<(), Refusal>
    requires cycle { cycle ≤ 4611686018427387904 }
    requires empty { book.old.count ≡ 0 }
    requires room { Room 4 (slices_of book.old) }
    ensures same_loan { SameLoan board.old board.new }
    ensures same_slices { SameSlices book.old book.new }
    ensures answers { AnswersLent (written_by (lent_board board.old) i.n 0 v cycle) (written result book.new.count) board.old board.new }
    ensures holds { Holds (written_by (lent_board board.old) i.n 0 v cycle).entries (slices_of book.old) (slices_of book.new) (written result book.new.count).count }
    ensures at_most_four { book.new.count ≤ 4 }
{
    if regfile::write_cr1(board.words, i, v, cycle) {
        context::rebook(board.words, i, cycle);
        state::set_last(board.words, cycle);
        return Ok(());
    }
    write_timer(board, book, i, 0, v, cycle)
}

// DIER: the interrupt line follows.
#[inline(always)]
fn write_dier(words: &mut [u64; WORDS], i: TimerIndex, v: u32, cycle: u64)
    ensures { (x : List Float) → Answers (written_by (view words.old x) i.n 12 v cycle) (answer 0 0 0) words.old words.new x x }
{
    fields::set_reg(words, i, Reg::Dier, v & regs::kept(3));
    context::settle_line_at(words, i);
    state::set_last(words, cycle);
}

// SR: the interrupt line follows.
#[inline(always)]
fn write_sr(words: &mut [u64; WORDS], i: TimerIndex, v: u32, cycle: u64)
    ensures { (x : List Float) → Answers (written_by (view words.old x) i.n 16 v cycle) (answer 0 0 0) words.old words.new x x }
{
    let t = state::load_timer(words, i);
    fields::set_reg(words, i, Reg::Sr, regs::kept_sr(t.regs.sr, v));
    context::settle_line_at(words, i);
    state::set_last(words, cycle);
}

// CCR1 to CCR4, of which the table keeps alike: CCR1's entry serves all, and is a constant here.
#[inline(always)]
fn write_compare(
    board: &mut LentBoard<'_>,
    book: &mut LentBook<'_>,
    i: TimerIndex,
    off: u32,
    v: u32,
    cycle: u64,
) -> Result<(), Refusal>
    requires register { R.is_ccr off ≡ true }
    requires cycle { cycle < 9223372036854775808 }
    requires empty { book.old.count ≡ 0 }
    requires room { Room 4 (slices_of book.old) }
    ensures same_loan { SameLoan board.old board.new }
    ensures same_slices { SameSlices book.old book.new }
    ensures answers { AnswersLent (written_by (lent_board board.old) i.n off v cycle) (written result book.new.count) board.old board.new }
    ensures holds { Holds (written_by (lent_board board.old) i.n off v cycle).entries (slices_of book.old) (slices_of book.new) (written result book.new.count).count }
    ensures at_most_four { book.new.count ≤ 4 }
{
    let t = fields::inst(board.words, i);
    if t.channels == 0 {
        state::set_last(board.words, cycle);
        return Ok(());
    }
    let n = ((off - 0x34) / 4) as usize;
    let kept = v & regs::kept(13);
    let Some(cnt) = regfile::write_ccr(board.words, i, Channel { n }, kept, cycle) else {
        state::set_last(board.words, cycle);
        return Ok(());
    };
    mmio::follow(board, book, i, Some(cnt), false, true, cycle);
    Ok(())
}

// ---- any write, while the timer's clock is on

// The lane merged, then by its register.
#[inline(always)]
fn write_on(
    board: &mut LentBoard<'_>,
    book: &mut LentBook<'_>,
    i: TimerIndex,
    offset: u32,
    size: u32,
    value: u32,
    cycle: u64,
) -> Result<(), Refusal>
    requires size { size ≤ 4 }
    requires cycle { cycle ≤ 4611686018427387904 }
    requires empty { book.old.count ≡ 0 }
    requires room { Room 4 (slices_of book.old) }
    ensures same_loan { SameLoan board.old board.new }
    ensures same_slices { SameSlices book.old book.new }
    ensures answers { AnswersLent (written_on (lent_board board.old) i.n offset size value cycle) (written result book.new.count) board.old board.new }
    ensures holds { Holds (written_on (lent_board board.old) i.n offset size value cycle).entries (slices_of book.old) (slices_of book.new) (written result book.new.count).count }
    ensures at_most_four { book.new.count ≤ 4 }
{
    let off = offset / 4 * 4;
    let v = merged(board.words, i, offset, size, value, cycle);
    match off {
        0x00 => write_cr1(board, book, i, v, cycle),
        0x0c => {
            write_dier(board.words, i, v, cycle);
            Ok(())
        }
        0x10 => {
            write_sr(board.words, i, v, cycle);
            Ok(())
        }
        0x34..=0x40 => write_compare(board, book, i, off, v, cycle),
        _ => write_timer(board, book, i, off, v, cycle),
    }
}

// A write: nothing but the cycle of the last changing call while the timer's clock is off.
#[inline(always)]
pub fn write(
    board: &mut LentBoard<'_>,
    book: &mut LentBook<'_>,
    timer: u32,
    offset: u32,
    size: u32,
    value: u32,
    cycle: u64,
) -> Result<Answer, Refusal>
    ensures same_loan { SameLoan board.old board.new }
    ensures same_slices { SameSlices book.old book.new }
    ensures answers { AnswersLent (step (lent_board board.old) (Call.write timer offset size value cycle (places (slices_of book.old)))) (told result) board.old board.new }
    ensures holds { Holds (step (lent_board board.old) (Call.write timer offset size value cycle (places (slices_of book.old)))).entries (slices_of book.old) (slices_of book.new) (told result).count }
{
    book.count = 0;
    let i = answer::check_timer_and_book(board.words, timer, size, cycle, book)?;
    if !context::clock_on(board.words, i) {
        state::set_last(board.words, cycle);
        return Ok(answer::served(0));
    }
    write_on(board, book, i, offset, size, value, cycle)?;
    Ok(answer::entered(book))
}
