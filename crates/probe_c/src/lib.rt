// Functions below the calls, exported for measurement alone (bench/): each is `probe`'s function of the same name, with the same promise.
// A crate of its own: rt has a crate as a library or as a static library, not both; so each signature and clause stands here again.
#![tactic(auto)]

ghost use Rattle.std.specs.Prelude.{◌≡◌, List, ◌%◌, Float};
ghost use Rattle.state.specs.View.{view};
ghost use Rattle.machine.specs.Board.{timer_at, with_timer};
ghost use Rattle.machine.specs.Sys.{refresh_pin, sig_out};
ghost use Rattle.machine.specs.Call as C;
ghost use Rattle.machine.specs.Step.{step};
ghost use Rattle.book.specs.Book.{places, Holds, slices};
ghost use Rattle.answer.specs.Promise.{Answers};
ghost use Rattle.probe.specs.Probe.{Moved};

use answer::Answer;
use state::{REALS, WORDS};

// Signal s, of 256, driven to a level.
#[unsafe(no_mangle)]
pub extern "C" fn probe_sig_out(
    words: &mut [u64; WORDS],
    reals: &mut [f64; REALS],
    s: u32,
    level: u8,
) -> u8
    ensures { Moved (sig_out (view words.old reals.old).pads (s % 256) (level % 2)) (view words.old reals.old) (view words.new reals.new) result }
{
    probe::probe_sig_out(words, reals, s, level)
}

// Pin i, of 128, refreshed.
#[unsafe(no_mangle)]
pub extern "C" fn probe_refresh_pin(
    words: &mut [u64; WORDS],
    reals: &mut [f64; REALS],
    i: u32,
) -> u8
    ensures { Moved (refresh_pin (view words.old reals.old).pads (i % 128)) (view words.old reals.old) (view words.new reals.new) result }
{
    probe::probe_refresh_pin(words, reals, i)
}

// Timer i, of 8, loaded and stored.
#[unsafe(no_mangle)]
pub extern "C" fn probe_timer(words: &mut [u64; WORDS], i: u32)
    ensures { (x : List Float) → view words.new x ≡ with_timer (view words.old x) (i % 8) (timer_at (view words.old x) (i % 8)) }
{
    probe::probe_timer(words, i);
}

// The call that resets the pins. It is not measured: it stands here so that the others are compiled beside the same callers as in the board.
#[unsafe(no_mangle)]
pub extern "C" fn probe_reset_pins(
    words: &mut [u64; WORDS],
    reals: &mut [f64; REALS],
    pins: &mut [u8],
    levels: &mut [u8],
    cycles: &mut [u64],
    sources: &mut [u8],
    cycle: u64,
) -> Answer
    ensures answers { Answers (step (view words.old reals.old) (C.reset_pins cycle (places (slices pins.old levels.old cycles.old sources.old)))) result words.old words.new reals.old reals.new }
    ensures holds { Holds (step (view words.old reals.old) (C.reset_pins cycle (places (slices pins.old levels.old cycles.old sources.old)))).entries (slices pins.old levels.old cycles.old sources.old) (slices pins.new levels.new cycles.new sources.new) result.count }
{
    probe::probe_reset_pins(words, reals, pins, levels, cycles, sources, cycle)
}
