// The board's state in lent memory: what a call reads and changes goes through these functions.
// A signal (below 256) and a level (0 or 1) are plain numbers: they are compared, summed and stored, and a type would be put together and taken apart at
// each call.
#![tactic(auto)]

mod index;

ghost use Rattle.std.specs.Prelude.{◌≡◌, true, false, List, [], ◌∷◌, ℕ, ◌+◌, ◌*◌, ◌%◌, ◌<◌, ◌≤◌, ltb, length, drop, Float, IfSome, MatchOption};
ghost use Rattle.std.specs.Option.{option_map_or};
ghost use Rattle.std.proofs.Math.Seq.{paste};
ghost use Rattle.tim.specs.Timer.{Fit};
ghost use Rattle.gpio.specs.Gpio.{GpioFit};
ghost use Rattle.nvic.specs.Nvic.{set_line, clear_pending, line_at, state_of};
ghost use Rattle.scheduler.specs.Booking.{holding, least};
ghost use Rattle.machine.specs.Board.{timer_at, with_timer, with_nvic, with_last};
ghost use Rattle.state.specs.Board.{Divided, pin_at, route_at, sig_level_at, af_at, enr_at, booked_at, with_inst, pin_set, with_af_at, route_set, sig_level_set, booking_set, with_tree, with_clock, with_enr, with_sizes};
ghost use Rattle.state.specs.Lent.{lent_board, seen_board, SameLoan};
ghost use Rattle.state.specs.Parts.{front};
ghost use Rattle.state.specs.View.{view, divider_held, tree_of};

use clk::ClockTree;
use gpio::Gpio;
pub use index::{PinIndex, TimerIndex};
use pins::ClockModel;
use scheduler::Scheduler;
use tim::Timer;

// ---- the layout: this crate's, and of fields, levels and blank, which store words of it

// 8 timers of 40 words.
const TIMERS: usize = 0;

const TIMER_COUNT: usize = 320;

const PIN_COUNT: usize = 321;

const LINE_COUNT: usize = 322;

const LAST: usize = 323;

// Six words, each one less than its divider.
const DIVIDERS: usize = 324;

const SEG_CYCLE: usize = 330;

// 9 enable words.
const ENR: usize = 331;

// 8 booked cycles.
pub const BOOKING: usize = 340;

// 256 signals: the pin that routes it, and the level that it wants.
pub const ROUTE: usize = 348;

pub const SIG_LEVEL: usize = 604;

// 256 interrupt lines.
const LINES: usize = 860;

// 128 pins of 16 words.
pub const GPIO: usize = 1116;

// The signal table of 128 pins by 16 functions.
const AF: usize = 3164;

// Room for what later requests add: 64 words.
const SPARE: usize = 5212;

pub const WORDS: usize = 5276;

// Of 128 pins the volts and the volts of the analogue drive.
pub const GPIO_REALS: usize = 0;

pub const VCC: usize = 256;

const SYSCLK_HZ: usize = 257;

const HCLK_HZ: usize = 258;

const HZ: usize = 259;

const SEG_TIME: usize = 260;

// Room for 3 reals.
const SPARE_REALS: usize = 261;

pub const REALS: usize = 264;

// ---- the lent memory

// The words and the reals of one board, lent to be changed.
#[derive(Drop)]
pub struct LentBoard<'a> {
    pub words: &'a mut [u64; WORDS],
    pub reals: &'a mut [f64; REALS],
}

// The same, lent to be read.
#[derive(Clone, Copy)]
pub struct SeenBoard<'a> {
    pub words: &'a [u64; WORDS],
    pub reals: &'a [f64; REALS],
}

impl SeenBoard<'_> {
    // Pin p. Compiled in as `Pin::resolve` is.
    #[inline(always)]
    pub fn load_gpio(self, p: PinIndex) -> Gpio
        ensures { result ≡ pin_at (seen_board self.entry) p.n }
    {
        let mut b = [0u64; codec::GPIO_WORDS];
        get(self.words, GPIO + p.n * codec::GPIO_WORDS, &mut b);
        codec::unpack_gpio(
            b,
            self.reals[GPIO_REALS + p.n * 2],
            self.reals[GPIO_REALS + (p.n * 2 + 1)],
        )
    }

    pub fn tree(self) -> ClockTree
        ensures { result ≡ (seen_board self.entry).clocks.tree }
    {
        ClockTree {
            sysclk_hz: self.reals[SYSCLK_HZ],
            hclk_hz: self.reals[HCLK_HZ],
            ppre1: divider_of(self.words[DIVIDERS]),
            ppre2: divider_of(self.words[DIVIDERS + 1]),
            ppre3: divider_of(self.words[DIVIDERS + 2]),
            ppre4: divider_of(self.words[DIVIDERS + 3]),
            tim1: divider_of(self.words[DIVIDERS + 4]),
            tim2: divider_of(self.words[DIVIDERS + 5]),
        }
    }

    pub fn clock(self) -> ClockModel
        ensures { result ≡ (seen_board self.entry).clocks.clock }
    {
        ClockModel {
            hz: self.reals[HZ],
            seg_cycle: self.words[SEG_CYCLE],
            seg_time: self.reals[SEG_TIME],
        }
    }
}

impl LentBoard<'_> {
    pub fn seen(&self) -> SeenBoard<'_>
        ensures words { result.words.now ≡ self.now.words.now }
        ensures reals { result.reals.now ≡ self.now.reals.now }
    {
        SeenBoard {
            words: self.words,
            reals: self.reals,
        }
    }

    // Pin p. Compiled in the same way.
    #[inline(always)]
    pub fn load_gpio(&self, p: PinIndex) -> Gpio
        ensures { result ≡ pin_at (lent_board self.now) p.n }
    {
        let board = self.seen();
        board.load_gpio(p)
    }

    pub fn store_gpio(&mut self, p: PinIndex, g: Gpio)
        requires { GpioFit g }
        ensures same_loan { SameLoan self.old self.new }
        ensures board { lent_board self.new ≡ pin_set (lent_board self.old) p.n g }
    {
        known_lengths(self.words, self.reals);
        let b = codec::pack_gpio(g);
        put(self.words, GPIO + p.n * codec::GPIO_WORDS, &b);
        self.reals[GPIO_REALS + p.n * 2] = g.pin.volts;
        self.reals[GPIO_REALS + (p.n * 2 + 1)] = codec::ext_volts(g);
    }

    pub fn set_tree(&mut self, t: ClockTree)
        requires { Divided t }
        ensures same_loan { SameLoan self.old self.new }
        ensures board { lent_board self.new ≡ with_tree (lent_board self.old) t }
    {
        known_lengths(self.words, self.reals);
        let b = pack_dividers(t);
        put(self.words, DIVIDERS, &b);
        self.reals[SYSCLK_HZ] = t.sysclk_hz;
        self.reals[HCLK_HZ] = t.hclk_hz;
    }

    pub fn set_clock(&mut self, k: ClockModel)
        ensures same_loan { SameLoan self.old self.new }
        ensures board { lent_board self.new ≡ with_clock (lent_board self.old) k }
    {
        known_lengths(self.words, self.reals);
        self.words[SEG_CYCLE] = k.seg_cycle;
        self.reals[HZ] = k.hz;
        self.reals[SEG_TIME] = k.seg_time;
    }
}

// The check knows an array's length where it is a parameter, and not where a struct lends it. Nothing is done.
pub fn known_lengths(words: &[u64; WORDS], reals: &[f64; REALS])
    ensures words { length words.now ≡ 5276 }
    ensures reals { length reals.now ≡ 264 }
{}

// ---- blocks of words

// Copies words from `at` on.
#[inline(always)]
fn get(words: &[u64; WORDS], at: usize, b: &mut [u64])
    requires { at + length b.old ≤ 5276 }
    ensures { b.new ≡ front 0 (length b.old) (drop at words.now) }
{
    b.copy_from_slice(&words[at..at + b.len()]);
}

// Copies b to the words from `at` on.
#[inline(always)]
fn put(words: &mut [u64; WORDS], at: usize, b: &[u64])
    requires { at + length b.now ≤ 5276 }
    ensures { words.new ≡ paste words.old at b.now (length b.now) }
{
    words[at..at + b.len()].copy_from_slice(b);
}

// ---- timers

pub fn load_timer(words: &[u64; WORDS], i: TimerIndex) -> Timer
    ensures { (x : List Float) → result ≡ timer_at (view words.now x) i.n }
{
    let mut b = [0u64; codec::TIMER_WORDS];
    get(words, TIMERS + i.n * codec::TIMER_WORDS, &mut b);
    codec::unpack_timer(b)
}

// `Fit` is asked for, here and below: no field of a timer, as tim says.
pub fn store_timer(words: &mut [u64; WORDS], i: TimerIndex, t: Timer)
    requires { Fit t }
    ensures { (x : List Float) → view words.new x ≡ with_timer (view words.old x) i.n t }
{
    let b = codec::pack_timer(t);
    put(words, TIMERS + i.n * codec::TIMER_WORDS, &b);
}

// Stores timer i but for what set-up fixed.
pub fn store_live(words: &mut [u64; WORDS], i: TimerIndex, t: Timer)
    requires { Fit t }
    ensures { (x : List Float) → view words.new x ≡ with_timer (view words.old x) i.n (with_inst t (timer_at (view words.old x) i.n).inst) }
{
    let b = codec::pack_timer(t);
    put(
        words,
        TIMERS + (i.n * codec::TIMER_WORDS + codec::timer::CR1),
        &b[codec::timer::CR1..codec::timer::MANUAL],
    );
}

// ---- pins

// The signal of function f of pin p.
pub fn af(words: &[u64; WORDS], p: PinIndex, f: usize) -> u32
    requires { f < 16 }
    ensures { (x : List Float) → result ≡ af_at (view words.now x) p.n f }
{
    u32::from(codec::low_8(words[AF + (p.n * 16 + f)]))
}

// Entry k of the signal table: that of pin k / 16 and its function k % 16.
pub fn set_af(words: &mut [u64; WORDS], k: usize, s: u32)
    requires { (k < 2048) × (s < 256) }
    ensures { (x : List Float) → view words.new x ≡ with_af_at (view words.old x) k s }
{
    words[AF + k] = s as u64;
}

pub fn vcc(reals: &[f64; REALS]) -> f64
    ensures { (w : List ℕ) → result ≡ (view w reals.now).pads.vcc }
{
    reals[VCC]
}

// ---- signals

// The pin that routes signal s. A word from 128 on is none.
pub fn route(words: &[u64; WORDS], s: usize) -> Option<PinIndex>
    requires { s < 256 }
    ensures { (x : List Float) → MatchOption result (route_at (view words.now x) s ≡ 128) (λ p. p.n ≡ route_at (view words.now x) s) }
{
    let word = words[ROUTE + s];
    if word >= 128 {
        return None;
    }
    Some(PinIndex { n: word as usize })
}

// Pin p routes signal s, or none does.
pub fn set_route(words: &mut [u64; WORDS], s: usize, p: Option<PinIndex>)
    requires { s < 256 }
    ensures { (x : List Float) → view words.new x ≡ route_set (view words.old x) s (option_map_or (λ i. i.n) p 128) }
{
    words[ROUTE + s] = match p {
        Some(i) => i.n as u64,
        None => 128,
    };
}

// No pin routes signal s.
pub fn clear_route(words: &mut [u64; WORDS], s: usize)
    requires { s < 256 }
    ensures { (x : List Float) → view words.new x ≡ route_set (view words.old x) s 128 }
{
    set_route(words, s, None);
}

pub fn sig_level(words: &[u64; WORDS], s: usize) -> u8
    requires { s < 256 }
    ensures { (x : List Float) → result ≡ sig_level_at (view words.now x) s }
{
    codec::lowest(words[SIG_LEVEL + s])
}

pub fn set_sig_level(words: &mut [u64; WORDS], s: usize, level: u8)
    requires { (s < 256) × (level ≤ 1) }
    ensures { (x : List Float) → view words.new x ≡ sig_level_set (view words.old x) s level }
{
    words[SIG_LEVEL + s] = level as u64;
}

// ---- clocks

fn divider_of(w: u64) -> u32
    ensures { result ≡ divider_held w }
{
    (w % 8192 + 1) as u32
}

// The six dividers as words.
fn pack_dividers(t: ClockTree) -> [u64; 6]
    requires { Divided t }
    ensures { tree_of result (t.sysclk_hz ∷ t.hclk_hz ∷ []) ≡ t }
{
    [
        t.ppre1 as u64 - 1,
        t.ppre2 as u64 - 1,
        t.ppre3 as u64 - 1,
        t.ppre4 as u64 - 1,
        t.tim1 as u64 - 1,
        t.tim2 as u64 - 1,
    ]
}

pub fn enr(words: &[u64; WORDS], i: usize) -> u32
    requires { i < 9 }
    ensures { (x : List Float) → result ≡ enr_at (view words.now x) i }
{
    codec::low_32(words[ENR + i])
}

pub fn set_enr(words: &mut [u64; WORDS], i: usize, v: u32)
    requires { i < 9 }
    ensures { (x : List Float) → view words.new x ≡ with_enr (view words.old x) i v }
{
    words[ENR + i] = v as u64;
}

// ---- booking

// The booked cycles.
fn bookings(words: &[u64; WORDS]) -> Scheduler
    ensures { (x : List Float) → result ≡ holding (view words.now x).booking }
{
    let mut cycles = [0u64; 8];
    get(words, BOOKING, &mut cycles);
    Scheduler::from(cycles)
}

pub fn booked(words: &[u64; WORDS], owner: TimerIndex) -> u64
    ensures { (x : List Float) → result ≡ booked_at (view words.now x) owner.n }
{
    bookings(words).is_scheduled(owner.n)
}

// Books owner at a cycle, or cancels its booking by the cycle 2^64 - 1. All booking goes through here: the bookings are lent to the
// scheduler's method, and the one word that changed is stored.
pub fn book(words: &mut [u64; WORDS], owner: TimerIndex, cycle: u64)
    ensures { (x : List Float) → view words.new x ≡ booking_set (view words.old x) owner.n cycle }
{
    let mut scheduler = bookings(words);
    scheduler.book(owner.n, cycle);
    words[BOOKING + owner.n] = scheduler.cycles[owner.n];
}

// The least booked cycle.
pub fn next_booked(words: &[u64; WORDS]) -> u64
    ensures { (x : List Float) → result ≡ least (view words.now x).booking }
{
    bookings(words).next()
}

// ---- interrupt lines

// The place of line irq's word, if there is such a line.
fn line_place(words: &[u64; WORDS], irq: u32) -> Option<usize>
    ensures line { (x : List Float) → MatchOption result ((view words.now x).nvic.nirq ≤ irq) (λ at. (at ≡ 860 + irq) × (irq < (view words.now x).nvic.nirq)) }
    ensures range { IfSome result (λ at. at < 5276) }
{
    if irq < 256 && (irq as u64) < words[LINE_COUNT] {
        return Some(LINES + irq as usize);
    }
    None
}

// Timer i drives line irq; without such a line nothing changes.
pub fn set_line(words: &mut [u64; WORDS], irq: u32, i: TimerIndex, level: bool)
    ensures { (x : List Float) → view words.new x ≡ with_nvic (view words.old x) (set_line (view words.old x).nvic irq i.n level) }
{
    if let Some(at) = line_place(words, irq) {
        words[at] = nvic::driven(words[at], i.n, level);
    }
}

// Clears the pending flag of line irq; without such a line nothing changes.
pub fn clear_pending(words: &mut [u64; WORDS], irq: u32)
    ensures { (x : List Float) → view words.new x ≡ with_nvic (view words.old x) (clear_pending (view words.old x).nvic irq) }
{
    if let Some(at) = line_place(words, irq) {
        words[at] = nvic::cleared(words[at]);
    }
}

// 1 if line irq is high plus 2 if it is pending; 0 without such a line.
pub fn line_state(words: &[u64; WORDS], irq: u32) -> u64
    ensures { (x : List Float) → result ≡ state_of (line_at (view words.now x).nvic irq) }
{
    if let Some(at) = line_place(words, irq) {
        return nvic::state(words[at]);
    }
    0
}

// ---- counts

pub fn timer_count(words: &[u64; WORDS]) -> usize
    ensures { (x : List Float) → result ≡ (view words.now x).counts.timers }
{
    words[TIMER_COUNT].min(8) as usize
}

// The timer of that index, if the board has one.
pub fn timer(words: &[u64; WORDS], index: u32) -> Option<TimerIndex>
    ensures { (x : List Float) → MatchOption result (ltb index (view words.now x).counts.timers ≡ false) (λ i. (i.n ≡ index) × (ltb index (view words.now x).counts.timers ≡ true)) }
{
    let n = index as usize;
    if n >= timer_count(words) {
        return None;
    }
    Some(TimerIndex { n })
}

pub fn pin_count(words: &[u64; WORDS]) -> usize
    ensures { (x : List Float) → result ≡ (view words.now x).counts.pins }
{
    words[PIN_COUNT].min(128) as usize
}

// The pin of that index, if the board has one.
pub fn pin(words: &[u64; WORDS], index: u32) -> Option<PinIndex>
    ensures { (x : List Float) → MatchOption result (ltb index (view words.now x).counts.pins ≡ false) (λ p. (p.n ≡ index) × (ltb index (view words.now x).counts.pins ≡ true)) }
{
    let n = index as usize;
    if n >= pin_count(words) {
        return None;
    }
    Some(PinIndex { n })
}

// The numbers of timers, pins and interrupt lines.
pub fn set_sizes(words: &mut [u64; WORDS], timers: usize, pins: usize, lines: u32)
    requires { (timers ≤ 8) × ((pins ≤ 128) × (lines ≤ 256)) }
    ensures { (x : List Float) → view words.new x ≡ with_sizes (view words.old x) timers pins lines }
{
    words[TIMER_COUNT] = timers as u64;
    words[PIN_COUNT] = pins as u64;
    words[LINE_COUNT] = lines as u64;
}

pub fn last_cycle(words: &[u64; WORDS]) -> u64
    ensures { (x : List Float) → result ≡ (view words.now x).counts.last }
{
    words[LAST]
}

pub fn set_last(words: &mut [u64; WORDS], cycle: u64)
    ensures { (x : List Float) → view words.new x ≡ with_last (view words.old x) cycle }
{
    words[LAST] = cycle;
}
