// Set-up over the lent state, from numbers, which C gives: seven of each timer (number, width, channels, bus, enable word, enable bit, interrupt), the mask
// of those in manual mode, and the signal table.
#![tactic(auto)]

ghost use Rattle.std.specs.Prelude.{◌≡◌, true, List, ◌-◌, ◌<◌, ◌≤◌, Float, length};
ghost use Rattle.machine.specs.Board.{no_inst, fresh_board};
ghost use Rattle.machine.specs.Call.{set_up};
ghost use Rattle.machine.specs.Step as S;
ghost use Rattle.state.specs.Lent.{lent_board, SameLoan};
ghost use Rattle.state.specs.View.{view};
ghost use Rattle.answer.specs.Promise.{AnswersLent};
ghost use Rattle.answer.specs.Refused.{told};
ghost use Rattle.setup.specs.Given.{setup_given};
ghost use Rattle.setup.specs.Setup.{count_of, inst_given, insts_from, insts_of, sizes_good, timers_of, with_timers, with_table};

use answer::{Answer, Refusal};
use state::{LentBoard, TimerIndex, WORDS};
use tim::{Inst, Timer};

// What a set-up is asked for: the core clock and the supply, how many pins and interrupt lines, the mask of the timers in manual mode, seven numbers of
// each timer, and the signal table.
#[derive(Clone, Copy)]
pub struct SetUp<'a> {
    pub hz: f64,
    pub vcc: f64,
    pub pins: u32,
    pub lines: u32,
    pub manual: u32,
    pub timers: &'a [u32],
    pub table: &'a [u32],
}

fn no_inst() -> Inst
    ensures { result ≡ no_inst }
{
    Inst {
        n: 0,
        width: 0,
        channels: 0,
        apb: 0,
        irq: 0,
        en_reg: 0,
        en_bit: 0,
        manual: false,
    }
}

// The limits of `settings` are these and more: no plainer as one, since a record's numbers are of 64 bits, which no `Inst` holds.
fn inst_good(i: Inst) -> bool
    ensures { result ≡ S.inst_good i }
{
    (1..=24).contains(&i.n)
        && (i.width == 16 || i.width == 32)
        && i.channels <= 4
        && i.en_reg <= 8
        && i.en_bit <= 31
}

fn entries_good(table: &[u32]) -> bool
    ensures { result ≡ S.entries_below 256 table.now }
{
    table.iter().all(|signal| *signal < 256)
}

impl SetUp<'_> {
    // The number of timers; the last one may lack numbers.
    fn timer_count(self) -> usize
        ensures { result ≡ count_of self.entry.timers.now }
    {
        self.timers.len().div_ceil(7)
    }

    // Timer i, its mode by bit i of the mask. One that lacks numbers is the definition's `no_inst`, whose number 0 no limit allows. It is
    // asked of the call's numbers, before there is a timer that an index could be of.
    fn inst_at(self, i: usize) -> Inst
        requires { i < 8 }
        ensures { result ≡ inst_given self.entry.manual self.entry.timers.now i }
    {
        let at = i * 7;
        let Some([n, width, channels, apb, en_reg, en_bit, irq]) = self.timers.get(at..at + 7)
        else {
            return no_inst();
        };
        Inst {
            n: *n,
            width: *width,
            channels: *channels,
            apb: *apb,
            irq: *irq,
            en_reg: *en_reg,
            en_bit: *en_bit,
            manual: (self.manual >> i) % 2 == 1,
        }
    }

    // Number n is none of the timers' from `from` on.
    fn is_fresh(self, n: u32, from: usize) -> bool
        requires { (from ≤ count_of self.timers.now) × (count_of self.timers.now ≤ 8) }
        ensures { result ≡ S.fresh n (insts_from self.entry.manual self.entry.timers.now (count_of self.entry.timers.now - from) from) }
    {
        (from..self.timer_count()).all(|i| self.inst_at(i).n != n)
    }

    fn timers_good(self) -> bool
        requires { count_of self.timers.now ≤ 8 }
        ensures { result ≡ S.insts_good (insts_of self.entry.manual self.entry.timers.now) }
    {
        (0..self.timer_count()).all(|i| {
            let inst = self.inst_at(i);
            inst_good(inst) && self.is_fresh(inst.n, i + 1)
        })
    }

    fn sizes_good(self) -> bool
        ensures { result ≡ sizes_good (count_of self.entry.timers.now) self.entry.pins self.entry.lines }
    {
        (1..=8).contains(&self.timer_count()) && (1..=128).contains(&self.pins) && self.lines <= 256
    }

    // The sizes and limits; the frequency is not among them. No chain of `&&`: tried, and what is known of one limit at the next is lost behind it.
    fn within_limits(self) -> bool
        ensures { result ≡ S.within_limits (setup_given self.entry) }
    {
        if !self.sizes_good() {
            return false;
        }
        if !self.timers_good() {
            return false;
        }
        if !real::is_positive(self.vcc) {
            return false;
        }
        if self.table.len() != self.pins as usize * 16 {
            return false;
        }
        entries_good(self.table)
    }

    fn store_timers(self, words: &mut [u64; WORDS])
        requires { count_of self.timers.now ≤ 8 }
        ensures { (x : List Float) → view words.new x ≡ with_timers (view words.old x) (timers_of self.entry.manual self.entry.timers.now) (count_of self.entry.timers.now) }
    {
        let n = self.timer_count();
        for i in 0..n {
            let t = Timer::new(self.inst_at(i));
            let index = TimerIndex { n: i };
            state::store_timer(words, index, t);
        }
    }

    // The board as set-up starts it.
    fn fill(self, board: &mut LentBoard<'_>)
        requires { S.within_limits (setup_given self) ≡ true }
        ensures same_loan { SameLoan board.old board.new }
        ensures board { lent_board board.new ≡ fresh_board self.entry.hz self.entry.vcc self.entry.pins self.entry.lines (insts_of self.entry.manual self.entry.timers.now) self.entry.table.now }
    {
        blank::clear(board, self.hz, self.vcc);
        self.store_timers(board.words);
        store_table(board.words, self.table);
        let count = self.timer_count();
        state::set_sizes(board.words, count, self.pins as usize, self.lines);
    }
}

fn store_table(words: &mut [u64; WORDS], table: &[u32])
    requires { (length table.now ≤ 2048) × (S.entries_below 256 table.now ≡ true) }
    ensures { (x : List Float) → view words.new x ≡ with_table (view words.old x) table.now (length table.now) }
{
    for (k, signal) in table.iter().enumerate() {
        state::set_af(words, k, *signal);
    }
}

// Set-up: the board is replaced, if the limits hold and the frequency is finite and above 0.
pub fn set_up(board: &mut LentBoard<'_>, s: SetUp<'_>) -> Result<Answer, Refusal>
    ensures same_loan { SameLoan board.old board.new }
    ensures answers { AnswersLent (S.step (lent_board board.old) (set_up (setup_given s.entry))) (told result) board.old board.new }
{
    if !s.within_limits() {
        return Err(Refusal::OutsideLimits);
    }
    if !real::is_positive(s.hz) {
        return Err(Refusal::BadClock);
    }
    s.fill(board);
    Ok(answer::served(0))
}
