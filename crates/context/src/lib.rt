// Clocks and booking over the lent state (sys.rs): a timer's enable bit and divider, its interrupt line and its next event, and the clock tree.
// A cycle below 2^63 is a plain number: it is compared, summed and stored, and a type would be put together and taken apart at each call.
#![tactic(auto)]

ghost use Rattle.std.specs.Prelude.{◌≡◌, true, List, ◌<◌, ◌≤◌, max, Float};
ghost use Rattle.clk.specs.Clk.{good};
ghost use Rattle.state.specs.Lent.{lent_board, seen_board, SameLoan};
ghost use Rattle.state.specs.View.{view};
ghost use Rattle.state.specs.Board.{booking_set};
ghost use Rattle.machine.specs.Board.{timer_at};
ghost use Rattle.machine.specs.Deliver.{divider_of, line_settled, booking_of, rebooked};
ghost use Rattle.machine.specs.Step.{clock_on, timer_retimed, all_retimed, tree_set};

use clk::ClockTree;
use state::{LentBoard, REALS, SeenBoard, TimerIndex, WORDS};
use tim::{Divider, Due, Timer};

// Timer i's clock is on: its bit of its enable word. Past the ninth word and past bit 31 there is none.
#[inline(always)]
pub fn clock_on(words: &[u64; WORDS], i: TimerIndex) -> bool
    ensures { (x : List Float) → result ≡ clock_on (view words.now x) (timer_at (view words.now x) i.n) }
{
    let reg = fields::en_reg(words, i);
    let t = fields::inst(words, i);
    let bit = t.en_bit;
    reg < 9 && bit < 32 && (state::enr(words, reg) >> bit) % 2 == 1
}

// Core cycles per cycle of timer t's clock.
#[inline(always)]
pub fn divider(board: SeenBoard<'_>, t: Timer) -> Divider
    ensures divider { result.n ≡ divider_of (seen_board board.entry) t }
    ensures positive { 1 ≤ result.n }
{
    let tree = board.tree();
    Divider {
        n: tree.timer_div(t.inst.apb),
    }
}

// Timer t's interrupt line follows SR & DIER & 1f of it, the board's timer i, and the wishes of the other timers.
pub fn settle_line(words: &mut [u64; WORDS], i: TimerIndex, t: Timer)
    ensures { (x : List Float) → view words.new x ≡ line_settled i.n t (view words.old x) }
{
    let on = (t.regs.sr & t.regs.dier) % 32 != 0;
    state::set_line(words, t.inst.irq, i, on);
}

// The line of timer i.
pub fn settle_line_at(words: &mut [u64; WORDS], i: TimerIndex)
    ensures { (x : List Float) → view words.new x ≡ line_settled i.n (timer_at (view words.old x) i.n) (view words.old x) }
{
    let timer = state::load_timer(words, i);
    settle_line(words, i, timer);
}

// The cycle that an event is booked at: no earlier than now, never without one.
fn booking_of(due: Due, cycle: u64) -> u64
    ensures { result ≡ booking_of due cycle }
{
    match due {
        Due::At(at, _) => at.max(cycle),
        Due::Stopped => scheduler::NEVER,
    }
}

// Books timer i at what is due next.
pub fn book_due(words: &mut [u64; WORDS], i: TimerIndex, due: Due, cycle: u64)
    ensures { (x : List Float) → view words.new x ≡ booking_set (view words.old x) i.n (booking_of due cycle) }
{
    let at = booking_of(due, cycle);
    state::book(words, i, at);
}

// Books timer i at its next event. Compiled into the writes: called, one of CCR1 takes a twentieth longer.
#[inline(always)]
pub fn rebook(words: &mut [u64; WORDS], i: TimerIndex, cycle: u64)
    ensures { (x : List Float) → view words.new x ≡ rebooked i.n (timer_at (view words.old x) i.n) cycle (view words.old x) }
{
    let t = state::load_timer(words, i);
    let due = t.next_event();
    book_due(words, i, due, cycle);
}

// Timer i takes the tree's divider; a running one is booked anew. The reals are only read: no bit of them changes.
pub fn retime(words: &mut [u64; WORDS], reals: &[f64; REALS], i: TimerIndex, cycle: u64)
    requires { cycle < 9223372036854775808 }
    ensures { view words.new reals.now ≡ timer_retimed i.n cycle (view words.old reals.now) }
{
    let t = state::load_timer(words, i);
    let div = divider(SeenBoard { words, reals }, t);
    let s = t.on_clock_change(cycle, div);
    state::store_timer(words, i, s);
    if s.count.running {
        rebook(words, i, cycle);
    }
}

fn retime_all(board: &mut LentBoard<'_>, cycle: u64)
    requires { cycle < 9223372036854775808 }
    ensures same_loan { SameLoan board.old board.new }
    ensures board { lent_board board.new ≡ all_retimed (lent_board board.old).counts.timers 0 cycle (lent_board board.old) }
{
    let n = state::timer_count(board.words);
    for i in 0..n {
        let timer = TimerIndex { n: i };
        retime(board.words, board.reals, timer, cycle);
    }
}

// Another clock tree: the timers are told of it if it differs.
pub fn set_clock_tree(board: &mut LentBoard<'_>, t: ClockTree, cycle: u64)
    requires { (good t ≡ true) × (cycle < 9223372036854775808) }
    ensures same_loan { SameLoan board.old board.new }
    ensures board { lent_board board.new ≡ tree_set (lent_board board.old) t cycle }
{
    let seen = board.seen();
    let was = seen.tree();
    let k = seen.clock();
    board.set_tree(t);
    board.set_clock(k.set_hz(t.hclk_hz, cycle));
    if was.differs(t) {
        retime_all(board, cycle);
    }
}
