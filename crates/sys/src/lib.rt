// Pins and routing over the lent state (sys.rs). A level change is a value here; the call that asked writes it to its book.
// A signal (below 256) and a level (0 or 1) are plain numbers: they are compared and stored, and a type would be put together and taken apart at each call.
#![tactic(auto)]

ghost use Rattle.std.specs.Prelude.{◌≡◌, true, List, ◌+◌, ◌<◌, ◌≤◌, Float};
ghost use Rattle.state.specs.Board.{pin_at, sig_level_at};
ghost use Rattle.state.specs.Lent.{lent_board, SameLoan};
ghost use Rattle.state.specs.View.{view};
ghost use Rattle.book.specs.Book.{Room};
ghost use Rattle.book.specs.Lent.{slices_of, filled, SameSlices};
ghost use Rattle.machine.specs.Board.{with_pads};
ghost use Rattle.machine.specs.Sys as S;
ghost use Rattle.sys.specs.Moves.{signal_driven, Moves, Reset};

use book::LentBook;
use gpio::{Edge, PinCfg};
use pins::{ExtDrive, Source};
use state::{LentBoard, PinIndex, WORDS};

// Re-resolves the level of pin i after any change of its inputs.
pub fn update_pin(board: &mut LentBoard<'_>, i: PinIndex) -> Option<Edge>
    ensures same_loan { SameLoan board.old board.new }
    ensures moves { Moves (S.update_pin (lent_board board.old).pads i.n) (lent_board board.old) (lent_board board.new) result }
{
    let g = board.load_gpio(i);
    let vcc = state::vcc(board.reals);
    let m = gpio::update(i.n as u8, g, vcc);
    board.store_gpio(i, m.gpio);
    m.change
}

// Pin i is push-pull, and its signal drives it.
fn is_driven(words: &[u64; WORDS], i: PinIndex) -> bool
    ensures { (x : List Float) → result ≡ signal_driven (pin_at (view words.now x) i.n) }
{
    levels::is_push_pull(words, i) && gpio::drives(levels::signal(words, i))
}

// Such a pin refreshed: only what changes is stored. A second way of what refresh_any does by value, which takes more than the Rust's time.
#[inline(always)]
fn refresh_driven(board: &mut LentBoard<'_>, i: PinIndex) -> Option<Edge>
    requires { signal_driven (pin_at (lent_board board.old) i.n) ≡ true }
    ensures same_loan { SameLoan board.old board.new }
    ensures moves { Moves (S.refresh_pin (lent_board board.old).pads i.n) (lent_board board.old) (lent_board board.new) result }
{
    let was = levels::level(board.words, i);
    let l = state::sig_level(board.words, levels::signal(board.words, i) as usize);
    levels::drive_level(board, i, l);
    gpio::changed(i.n as u8, was, l, Source::Chip)
}

// Any pin: loaded, its side made anew, resolved and stored. Compiled in: called, an event and a pin's setting take a twentieth longer.
#[inline(always)]
fn refresh_any(board: &mut LentBoard<'_>, i: PinIndex) -> Option<Edge>
    ensures same_loan { SameLoan board.old board.new }
    ensures moves { Moves (S.refresh_pin (lent_board board.old).pads i.n) (lent_board board.old) (lent_board board.new) result }
{
    let g = board.load_gpio(i);
    let s = gpio::signal_of(g);
    let level = state::sig_level(board.words, s as usize);
    let vcc = state::vcc(board.reals);
    let m = gpio::refresh(i.n as u8, g, level, vcc);
    board.store_gpio(i, m.gpio);
    m.change
}

// Recomputes what the chip drives on pin i from its configuration, the selected signal and the signal's level, then re-resolves it.
#[inline(always)]
pub fn refresh_pin(board: &mut LentBoard<'_>, i: PinIndex) -> Option<Edge>
    ensures same_loan { SameLoan board.old board.new }
    ensures moves { Moves (S.refresh_pin (lent_board board.old).pads i.n) (lent_board board.old) (lent_board board.new) result }
{
    if is_driven(board.words, i) {
        refresh_driven(board, i)
    } else {
        refresh_any(board, i)
    }
}

// Pin i leaves signal s: the route goes, if it is the pin's.
fn leave(words: &mut [u64; WORDS], i: PinIndex, s: u32)
    requires { s < 256 }
    ensures { (x : List Float) → view words.new x ≡ with_pads (view words.old x) (S.leave (view words.old x).pads i.n s) }
{
    if s != 0 && state::route(words, s as usize).is_some_and(|p| p.n == i.n) {
        state::clear_route(words, s as usize);
    }
}

// Pin i takes signal s.
fn take(words: &mut [u64; WORDS], i: PinIndex, s: u32)
    requires { s < 256 }
    ensures { (x : List Float) → view words.new x ≡ with_pads (view words.old x) (S.take (view words.old x).pads i.n s) }
{
    if s != 0 {
        state::set_route(words, s as usize, Some(i));
    }
}

// The signal that function f of pin i selects, 0 unless in alternate mode.
fn selected(words: &[u64; WORDS], i: PinIndex, c: PinCfg, f: u32) -> u32
    ensures signal { (x : List Float) → result ≡ S.selected (view words.now x).pads i.n c f }
    ensures range { result < 256 }
{
    if c.mode == 2 {
        state::af(words, i, (f % 16) as usize)
    } else {
        0
    }
}

// Another pin routes the signal that function f of pin i selects: the signal's route says it in one look.
pub fn is_taken(words: &[u64; WORDS], i: PinIndex, c: PinCfg, f: u32) -> bool
    ensures { (x : List Float) → result ≡ S.taken (view words.now x).pads i.n (S.selected (view words.now x).pads i.n c f) }
{
    let new = selected(words, i, c, f);
    new != 0 && state::route(words, new as usize).is_some_and(|p| p.n != i.n)
}

// Configures pin i and selects its function f; refresh_pin follows.
pub fn select_af(board: &mut LentBoard<'_>, i: PinIndex, c: PinCfg, f: u32)
    requires { c.odr ≤ 1 }
    ensures same_loan { SameLoan board.old board.new }
    ensures board { lent_board board.new ≡ with_pads (lent_board board.old) (S.select_af (lent_board board.old).pads i.n c f) }
{
    let g = board.load_gpio(i);
    let old = g.sig;
    let new = selected(board.words, i, c, f);
    board.store_gpio(i, gpio::configure(g, c, new));
    leave(board.words, i, old);
    take(board.words, i, new);
}

// Pin i set: configured, and refreshed.
pub fn set_pin(board: &mut LentBoard<'_>, i: PinIndex, c: PinCfg, f: u32) -> Option<Edge>
    requires { c.odr ≤ 1 }
    ensures same_loan { SameLoan board.old board.new }
    ensures moves { Moves (S.set_pin (lent_board board.old).pads i.n c f) (lent_board board.old) (lent_board board.new) result }
{
    select_af(board, i, c, f);
    refresh_pin(board, i)
}

// Pin i driven from outside.
pub fn drive_pin(board: &mut LentBoard<'_>, i: PinIndex, e: ExtDrive) -> Option<Edge>
    ensures same_loan { SameLoan board.old board.new }
    ensures moves { Moves (S.drive_pin (lent_board board.old).pads i.n e) (lent_board board.old) (lent_board board.new) result }
{
    let g = board.load_gpio(i);
    board.store_gpio(i, gpio::connect(g, e));
    update_pin(board, i)
}

// Signal s at a level that it has not, on the pin that routes it.
#[inline(always)]
pub fn move_signal(board: &mut LentBoard<'_>, s: usize, level: u8) -> Option<Edge>
    requires { (s < 256) × (level ≤ 1) × (sig_level_at (lent_board board.old) s ≡ level → ⊥) }
    ensures same_loan { SameLoan board.old board.new }
    ensures moves { Moves (S.sig_out (lent_board board.old).pads s level) (lent_board board.old) (lent_board board.new) result }
{
    state::set_sig_level(board.words, s, level);
    let p = state::route(board.words, s)?;
    refresh_pin(board, p)
}

// Drives output signal s to a level, on the pin that routes it.
pub fn sig_out(board: &mut LentBoard<'_>, s: usize, level: u8) -> Option<Edge>
    requires { (s < 256) × (level ≤ 1) }
    ensures same_loan { SameLoan board.old board.new }
    ensures moves { Moves (S.sig_out (lent_board board.old).pads s level) (lent_board board.old) (lent_board board.new) result }
{
    if state::sig_level(board.words, s) == level {
        None
    } else {
        move_signal(board, s, level)
    }
}

// Pin i an input again, with nothing selected: never push-pull.
fn reset_pin(board: &mut LentBoard<'_>, i: PinIndex) -> Option<Edge>
    ensures same_loan { SameLoan board.old board.new }
    ensures moves { Moves (S.reset_pin (lent_board board.old).pads i.n) (lent_board board.old) (lent_board board.new) result }
{
    let g = board.load_gpio(i);
    board.store_gpio(i, gpio::configure(g, PinCfg::default(), 0));
    refresh_any(board, i)
}

// Resets the pins' electrical state and the routing; what the outside drives is kept. The changes go to the book, pin by pin.
pub fn reset_pins(board: &mut LentBoard<'_>, book: &mut LentBook<'_>, cycle: u64)
    requires { Room (book.old.count + (lent_board board.old).counts.pins) (slices_of book.old) }
    ensures same_loan { SameLoan board.old board.new }
    ensures same_slices { SameSlices book.old book.new }
    ensures reset { Reset (lent_board board.old) (lent_board board.new) cycle (filled book.old) (filled book.new) }
    ensures at_most_pins { book.new.count ≤ book.old.count + (lent_board board.old).counts.pins }
{
    blank::unroute(board.words);
    let n = state::pin_count(board.words);
    for i in 0..n {
        let p = PinIndex { n: i };
        let change = reset_pin(board, p);
        book.append(change, cycle);
    }
}
