// The board before set-up, and no signal routed.
#![tactic(auto)]

ghost use Rattle.std.specs.Prelude.{◌≡◌, List, [], ℕ, ◌+◌, ◌≤◌, Float};
ghost use Rattle.std.proofs.Math.Seq.{paste};
ghost use Rattle.real.specs.Real.{zero_float};
ghost use Rattle.sig.specs.Signal.{idle_level};
ghost use Rattle.machine.specs.Board.{fresh_board, with_pads};
ghost use Rattle.machine.specs.Sys.{unrouted};
ghost use Rattle.state.specs.Board.{with_vcc};
ghost use Rattle.state.specs.Parts.{parts, listed, repeated};
ghost use Rattle.state.specs.Lent.{lent_board, SameLoan};
ghost use Rattle.state.specs.View.{sizes, view};
ghost use Rattle.blank.specs.Fresh.{blank_parts};

use clk::ClockTree;
use pins::ClockModel;
use state::{BOOKING, LentBoard, REALS, ROUTE, SIG_LEVEL, VCC, WORDS};

// n words from `at` on take the value v.
fn fill(words: &mut [u64; WORDS], at: usize, n: usize, v: u64)
    requires { at + n ≤ 5276 }
    ensures { words.new ≡ paste words.old at (repeated n v) n }
{
    words[at..at + n].fill(v);
}

// Every signal at its idle level.
fn idle_levels(words: &mut [u64; WORDS])
    ensures { words.new ≡ paste words.old 604 (listed idle_level 0 256) 256 }
{
    for s in 0..256 {
        words[SIG_LEVEL + s] = sig::idle_level(s as u16) as u64;
    }
}

// No signal has a pin, and every signal is at its idle level.
pub fn unroute(words: &mut [u64; WORDS])
    ensures { (x : List Float) → view words.new x ≡ with_pads (view words.old x) (unrouted (view words.old x).pads) }
{
    fill(words, ROUTE, 256, 128);
    idle_levels(words);
}

fn zero_reals(reals: &mut [f64; REALS])
    ensures { reals.new ≡ paste reals.old 0 (repeated 264 zero_float) 264 }
{
    reals.fill(0.0);
}

fn set_vcc(reals: &mut [f64; REALS], v: f64)
    ensures { (w : List ℕ) → view w reals.new ≡ with_vcc (view w reals.old) v }
{
    reals[VCC] = v;
}

fn clear_words(words: &mut [u64; WORDS])
    ensures { parts 0 sizes words.new ≡ blank_parts }
{
    fill(words, 0, WORDS, 0);
    fill(words, BOOKING, 8, scheduler::NEVER);
    fill(words, ROUTE, 256, 128);
    idle_levels(words);
}

// The board at a frequency and a supply, as after set-up but with no timers, pins or lines. At 1 Hz and 1 volt it is the first board.
pub fn clear(board: &mut LentBoard<'_>, hz: f64, vcc: f64)
    ensures same_loan { SameLoan board.old board.new }
    ensures board { lent_board board.new ≡ fresh_board hz vcc 0 0 [] [] }
{
    state::known_lengths(board.words, board.reals);
    clear_words(board.words);
    zero_reals(board.reals);
    set_vcc(board.reals, vcc);
    board.set_tree(ClockTree::flat(hz));
    board.set_clock(ClockModel::new(hz));
}
