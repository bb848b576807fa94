// Why a pin is low (document 02, F-12): the first true of the reasons of crates/machine/specs/Why.antt. A query: nothing changes. A cycle below 2^63, a
// signal below 256 and a timer in its bounds (`Fit`) are asked for as in state and tim, which say why they are no types.
#![tactic(auto)]

ghost use Rattle.std.specs.Prelude.{◌≡◌, true, false, List, ◌+◌, ◌<◌, eqb, ltb, Float, IfSome, MatchOption};
ghost use Rattle.tim.specs.Timer.{Fit};
ghost use Rattle.tim.specs.Next.{next_event};
ghost use Rattle.machine.specs.Board.{timer_at, route_of, level_of};
ghost use Rattle.machine.specs.Deliver.{due_by};
ghost use Rattle.machine.specs.Call as C;
ghost use Rattle.machine.specs.Step.{step};
ghost use Rattle.machine.specs.Why as W;
ghost use Rattle.answer.specs.Promise.{Tells};
ghost use Rattle.answer.specs.Refused.{told};
ghost use Rattle.state.specs.Lent.{seen_board};
ghost use Rattle.state.specs.View.{view};
ghost use Rattle.why.specs.Fed.{index_or, IsFed};
ghost use Rattle.why.specs.Tests.{number_of, number_or, pin_tests, channel_tests};

use answer::{Answer, Refusal};
use gpio::{Gpio, PinCfg};
use state::{PinIndex, SeenBoard, TimerIndex, WORDS};
use tim::{Channel, Due, Inst, Timer};

// ---- the reasons

// Why a pin is low, in the order in which they are asked.
#[derive(Clone, Copy)]
enum Reason {
    High,
    DrivesNothing,
    OutputsZero,
    SelectsNone,
    Released,
    Unfed,
    Unrouted,
    Off,
    Held,
    Counted,
    Unknown,
}

impl Reason {
    // The number in the answer.
    fn number(self) -> u64
        ensures { result ≡ number_of self }
    {
        self as u64
    }
}

// ---- the timer

// The channel of a timer that feeds a signal.
#[derive(Clone, Copy)]
struct Feed {
    timer: TimerIndex,
    channel: Channel,
}

// The channel of a timer that drives whose signal s is, if it is one's.
#[tactic(auto, unfolding(machine::specs::Why::feeds))]
fn channel_of(k: Inst, s: u32) -> Option<Channel>
    ensures { MatchOption result (W.feeds k s ≡ false) (λ ch. (W.feeds k s ≡ true) × (ch.n ≡ W.channel_of k s)) }
{
    if !(2..=4).contains(&k.n) {
        return None;
    }
    let ch = s.checked_sub(16 * (k.n + 10) + 2)?;
    if ch < 4 && ch < k.channels {
        Some(Channel { n: ch as usize })
    } else {
        None
    }
}

// The timer that feeds signal s, if one does. No `find_map`: tried, and its closure is not told that i is below the count, which the index asks for.
fn feeder(words: &[u64; WORDS], s: u32) -> Option<Feed>
    ensures timer { (x : List Float) → index_or (view words.now x).counts.timers result ≡ W.feeder (view words.now x) s }
    ensures channel { (x : List Float) → IsFed (view words.now x) s result }
{
    let n = state::timer_count(words);
    for i in 0..n {
        let timer = TimerIndex { n: i };
        if let Some(channel) = channel_of(fields::inst(words, timer), s) {
            return Some(Feed { timer, channel });
        }
    }
    None
}

// An event of the timer is due at or before a cycle.
#[tactic(auto, unfolding(machine::specs::Deliver::due_by))]
fn is_due(t: Timer, cycle: u64) -> bool
    requires { Fit t }
    ensures { result ≡ due_by (next_event t) cycle }
{
    match t.next_event() {
        Due::At(at, _) => at <= cycle,
        Due::Stopped => false,
    }
}

// The timer that feeds a signal, if there is one, has an event due.
#[tactic(auto, using(crate::proofs::Laws::loaded_fit))]
fn is_behind(words: &[u64; WORDS], feeder: Option<Feed>, cycle: u64) -> bool
    ensures { (x : List Float) → MatchOption feeder (result ≡ false) (λ f. result ≡ due_by (next_event (timer_at (view words.now x) f.timer.n)) cycle) }
{
    feeder.is_some_and(|f| is_due(state::load_timer(words, f.timer), cycle))
}

// ---- the pin

fn drives_nothing(c: PinCfg) -> bool
    ensures { result ≡ W.drives_nothing c }
{
    !matches!(c.mode, 1 | 2)
}

fn outputs_zero(c: PinCfg) -> bool
    ensures { result ≡ W.outputs_zero c }
{
    c.mode == 1 && c.odr == 0
}

fn selects_none(g: Gpio) -> bool
    ensures { result ≡ W.selects_none g }
{
    g.cfg.mode == 2 && g.sig == 0
}

// An open-drain 1: the output bit, or the level of the signal.
#[tactic(auto, unfolding(machine::specs::Why::is_released))]
fn is_released(g: Gpio, level: u8) -> bool
    ensures { result ≡ W.is_released g level }
{
    g.cfg.open_drain
        && if g.cfg.mode == 1 {
            g.cfg.odr == 1
        } else {
            gpio::drives(gpio::signal_of(g)) && level == 1
        }
}

// The first of the pin's own reasons, 0 to 4.
#[tactic(auto, unfolding(machine::specs::Why::first_true))]
fn of_pin(g: Gpio, level: u8) -> Option<Reason>
    ensures value { number_or 5 result ≡ W.first_true (pin_tests g level) }
    ensures below { IfSome result (λ r. number_of r < 5) }
{
    if g.pin.level == 1 {
        return Some(Reason::High);
    }
    if drives_nothing(g.cfg) {
        return Some(Reason::DrivesNothing);
    }
    if outputs_zero(g.cfg) {
        return Some(Reason::OutputsZero);
    }
    if selects_none(g) {
        return Some(Reason::SelectsNone);
    }
    if is_released(g, level) {
        return Some(Reason::Released);
    }
    None
}

// ---- the channel

// No output, or CCxE is clear.
#[tactic(auto, unfolding(machine::specs::Why::is_off))]
fn is_off(t: Timer, ch: Channel) -> bool
    ensures { result ≡ W.is_off t ch.n }
{
    !(t.is_output(ch) && (t.regs.ccer >> (4 * ch.n)) % 2 == 1)
}

// In mode 6 or 7, what the count at a cycle drives is low.
#[tactic(auto, unfolding(machine::specs::Why::counts_low))]
fn counts_low(t: Timer, ch: Channel, cycle: u64) -> bool
    requires { (Fit t) × (cycle < 9223372036854775808) }
    ensures { result ≡ W.counts_low t ch.n cycle }
{
    let bits = t.regs.ccer >> (4 * ch.n);
    t.oc_mode(ch) >= 6 && (bits / 2 % 2 == 1) == t.ocref(ch, t.cnt_at(cycle))
}

// The first of the channel's reasons, 7 to 9.
#[tactic(auto, unfolding(machine::specs::Why::first_true))]
fn of_channel(t: Timer, ch: Channel, level: u8, cycle: u64) -> Option<Reason>
    requires { (Fit t) × (cycle < 9223372036854775808) }
    ensures { number_or 10 result ≡ 7 + W.first_true (channel_tests t ch.n level cycle) }
{
    if is_off(t, ch) {
        return Some(Reason::Off);
    }
    if level != 0 {
        return None;
    }
    if t.oc_mode(ch) <= 5 {
        return Some(Reason::Held);
    }
    if counts_low(t, ch, cycle) {
        return Some(Reason::Counted);
    }
    None
}

// ---- the reason

// Pin p routes signal s.
fn is_routed(words: &[u64; WORDS], s: u32, p: PinIndex) -> bool
    requires { s < 256 }
    ensures { (x : List Float) → result ≡ eqb (route_of (view words.now x).pads s) p.n }
{
    state::route(words, s as usize).is_some_and(|r| r.n == p.n)
}

// Of pin p, as g, with the selected signal s, and the timer that feeds it if one does.
fn first_reason(
    words: &[u64; WORDS],
    p: PinIndex,
    g: Gpio,
    s: u32,
    feeder: Option<Feed>,
    cycle: u64,
) -> Reason
    requires bounds { (s < 256) × (cycle < 9223372036854775808) }
    requires fed { (x : List Float) → IsFed (view words.now x) s feeder }
    ensures { (x : List Float) → number_of result ≡ W.first_true (W.tests g (level_of (view words.now x).pads s) (ltb (index_or (view words.now x).counts.timers feeder) (view words.now x).counts.timers) (eqb (route_of (view words.now x).pads s) p.n) (timer_at (view words.now x) (index_or (view words.now x).counts.timers feeder)) (W.channel_of (timer_at (view words.now x) (index_or (view words.now x).counts.timers feeder)).inst s) cycle) }
{
    let level = state::sig_level(words, s as usize);
    if let Some(first) = of_pin(g, level) {
        return first;
    }
    if g.cfg.mode != 2 {
        return Reason::Unknown;
    }
    let Some(f) = feeder else {
        return Reason::Unfed;
    };
    if !is_routed(words, s, p) {
        return Reason::Unrouted;
    }
    let t = state::load_timer(words, f.timer);
    of_channel(t, f.channel, level, cycle).unwrap_or(Reason::Unknown)
}

// ---- the query

// Refused while the timer that feeds the pin's signal has an event due by the cycle: nothing changes.
pub fn why(board: SeenBoard<'_>, pin: u32, cycle: u64) -> Result<Answer, Refusal>
    ensures { Tells (step (seen_board board.entry) (C.query_why pin cycle)) (told result) board.entry }
{
    let p = state::pin(board.words, pin).ok_or(Refusal::NoSuchIndex)?;
    if answer::is_astray(board.words, cycle) {
        return Err(Refusal::ClockAstray);
    }
    let g = board.load_gpio(p);
    let s = gpio::signal_of(g);
    let source = feeder(board.words, s);
    if is_behind(board.words, source, cycle) {
        return Err(Refusal::EventsDue);
    }
    let r = first_reason(board.words, p, g, s, source, cycle);
    Ok(answer::served(r.number()))
}
