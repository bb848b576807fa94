// The board's calls, exported for C and Rust: each is `board`'s function of the same name, with the same promise.
// A crate of its own: rt has a crate as a library or as a static library, not both; so each signature and clause stands here again.
#![tactic(auto)]

ghost use Rattle.std.specs.Prelude.{◌≡◌};
ghost use Rattle.book.specs.Book.{places, Holds, slices};
ghost use Rattle.state.specs.View.{view};
ghost use Rattle.machine.specs.Board.{first_board};
ghost use Rattle.machine.specs.Call as C;
ghost use Rattle.machine.specs.Step.{step};
ghost use Rattle.pads.specs.Ext.{drive_of};
ghost use Rattle.setup.specs.Setup.{setup_of};
ghost use Rattle.answer.specs.Promise.{Answers};
ghost use Rattle.small.specs.Small.{listed};
ghost use Rattle.board.specs.Layout.{tree_given};

use answer::Answer;
use small::Listed;
use state::{REALS, WORDS};

// How many words the state has.
#[unsafe(no_mangle)]
pub extern "C" fn board_words() -> usize
    ensures { result ≡ 5276 }
{
    board::board_words()
}

// How many reals the state has.
#[unsafe(no_mangle)]
pub extern "C" fn board_reals() -> usize
    ensures { result ≡ 264 }
{
    board::board_reals()
}

// The first board.
#[unsafe(no_mangle)]
pub extern "C" fn board_blank(words: &mut [u64; WORDS], reals: &mut [f64; REALS])
    ensures { view words.new reals.new ≡ first_board }
{
    board::board_blank(words, reals);
}

// Set up: seven numbers a timer (number, width, channels, bus, enable word, enable bit, interrupt), and the signal table. No timer is in manual mode.
#[unsafe(no_mangle)]
pub extern "C" fn board_set_up(
    words: &mut [u64; WORDS],
    reals: &mut [f64; REALS],
    hz: f64,
    vcc: f64,
    pins: u32,
    lines: u32,
    timers: &[u32],
    table: &[u32],
) -> Answer
    ensures { Answers (step (view words.old reals.old) (C.set_up (setup_of hz vcc pins lines 0 timers.now table.now))) result words.old words.new reals.old reals.new }
{
    board::board_set_up(words, reals, hz, vcc, pins, lines, timers, table)
}

// Set up with timers in manual mode: timer i where bit i of `manual` is 1; a bit of no timer says nothing.
#[unsafe(no_mangle)]
pub extern "C" fn board_set_up_manual(
    words: &mut [u64; WORDS],
    reals: &mut [f64; REALS],
    hz: f64,
    vcc: f64,
    pins: u32,
    lines: u32,
    manual: u32,
    timers: &[u32],
    table: &[u32],
) -> Answer
    ensures { Answers (step (view words.old reals.old) (C.set_up (setup_of hz vcc pins lines manual timers.now table.now))) result words.old words.new reals.old reals.new }
{
    board::board_set_up_manual(words, reals, hz, vcc, pins, lines, manual, timers, table)
}

// Change the clock tree.
#[unsafe(no_mangle)]
pub extern "C" fn board_set_clock_tree(
    words: &mut [u64; WORDS],
    reals: &mut [f64; REALS],
    sysclk_hz: f64,
    hclk_hz: f64,
    ppre1: u32,
    ppre2: u32,
    ppre3: u32,
    ppre4: u32,
    tim1: u32,
    tim2: u32,
    cycle: u64,
) -> Answer
    ensures { Answers (step (view words.old reals.old) (C.clock_tree (tree_given sysclk_hz hclk_hz ppre1 ppre2 ppre3 ppre4 tim1 tim2) cycle)) result words.old words.new reals.old reals.new }
{
    board::board_set_clock_tree(
        words, reals, sysclk_hz, hclk_hz, ppre1, ppre2, ppre3, ppre4, tim1, tim2, cycle,
    )
}

// Write an enable word.
#[unsafe(no_mangle)]
pub extern "C" fn board_enable(
    words: &mut [u64; WORDS],
    reals: &[f64; REALS],
    word: u32,
    value: u32,
) -> Answer
    ensures { Answers (step (view words.old reals.now) (C.enable word value)) result words.old words.new reals.now reals.now }
{
    board::board_enable(words, reals, word, value)
}

// Set a pin: mode, open drain, output bit, pulls, function.
#[unsafe(no_mangle)]
pub extern "C" fn board_set_pin(
    words: &mut [u64; WORDS],
    reals: &mut [f64; REALS],
    pin: u32,
    mode: u32,
    open_drain: u32,
    out: u32,
    pullup: u32,
    pulldown: u32,
    function: u32,
    cycle: u64,
    pins: &mut [u8],
    levels: &mut [u8],
    cycles: &mut [u64],
    sources: &mut [u8],
) -> Answer
    ensures answers { Answers (step (view words.old reals.old) (C.set_pin pin mode open_drain out pullup pulldown function cycle (places (slices pins.old levels.old cycles.old sources.old)))) result words.old words.new reals.old reals.new }
    ensures holds { Holds (step (view words.old reals.old) (C.set_pin pin mode open_drain out pullup pulldown function cycle (places (slices pins.old levels.old cycles.old sources.old)))).entries (slices pins.old levels.old cycles.old sources.old) (slices pins.new levels.new cycles.new sources.new) result.count }
{
    board::board_set_pin(
        words, reals, pin, mode, open_drain, out, pullup, pulldown, function, cycle, pins, levels,
        cycles, sources,
    )
}

// Drive a pin from outside: kind 1 low, 2 high, 3 analogue with its volts, else nothing.
#[unsafe(no_mangle)]
pub extern "C" fn board_drive_pin(
    words: &mut [u64; WORDS],
    reals: &mut [f64; REALS],
    pin: u32,
    kind: u32,
    volts: f64,
    cycle: u64,
    pins: &mut [u8],
    levels: &mut [u8],
    cycles: &mut [u64],
    sources: &mut [u8],
) -> Answer
    ensures answers { Answers (step (view words.old reals.old) (C.drive_pin pin (drive_of kind volts) cycle (places (slices pins.old levels.old cycles.old sources.old)))) result words.old words.new reals.old reals.new }
    ensures holds { Holds (step (view words.old reals.old) (C.drive_pin pin (drive_of kind volts) cycle (places (slices pins.old levels.old cycles.old sources.old)))).entries (slices pins.old levels.old cycles.old sources.old) (slices pins.new levels.new cycles.new sources.new) result.count }
{
    board::board_drive_pin(
        words, reals, pin, kind, volts, cycle, pins, levels, cycles, sources,
    )
}

// Reset the pins.
#[unsafe(no_mangle)]
pub extern "C" fn board_reset_pins(
    words: &mut [u64; WORDS],
    reals: &mut [f64; REALS],
    cycle: u64,
    pins: &mut [u8],
    levels: &mut [u8],
    cycles: &mut [u64],
    sources: &mut [u8],
) -> Answer
    ensures answers { Answers (step (view words.old reals.old) (C.reset_pins cycle (places (slices pins.old levels.old cycles.old sources.old)))) result words.old words.new reals.old reals.new }
    ensures holds { Holds (step (view words.old reals.old) (C.reset_pins cycle (places (slices pins.old levels.old cycles.old sources.old)))).entries (slices pins.old levels.old cycles.old sources.old) (slices pins.new levels.new cycles.new sources.new) result.count }
{
    board::board_reset_pins(words, reals, cycle, pins, levels, cycles, sources)
}

// Read a register.
#[unsafe(no_mangle)]
pub extern "C" fn board_read(
    words: &[u64; WORDS],
    reals: &[f64; REALS],
    timer: u32,
    offset: u32,
    size: u32,
    cycle: u64,
) -> Answer
    ensures { Answers (step (view words.now reals.now) (C.read timer offset size cycle)) result words.now words.now reals.now reals.now }
{
    board::board_read(words, reals, timer, offset, size, cycle)
}

// Write a register.
#[unsafe(no_mangle)]
pub extern "C" fn board_write(
    words: &mut [u64; WORDS],
    reals: &mut [f64; REALS],
    timer: u32,
    offset: u32,
    size: u32,
    value: u32,
    cycle: u64,
    pins: &mut [u8],
    levels: &mut [u8],
    cycles: &mut [u64],
    sources: &mut [u8],
) -> Answer
    ensures answers { Answers (step (view words.old reals.old) (C.write timer offset size value cycle (places (slices pins.old levels.old cycles.old sources.old)))) result words.old words.new reals.old reals.new }
    ensures holds { Holds (step (view words.old reals.old) (C.write timer offset size value cycle (places (slices pins.old levels.old cycles.old sources.old)))).entries (slices pins.old levels.old cycles.old sources.old) (slices pins.new levels.new cycles.new sources.new) result.count }
{
    board::board_write(
        words, reals, timer, offset, size, value, cycle, pins, levels, cycles, sources,
    )
}

// Peek at a register.
#[unsafe(no_mangle)]
pub extern "C" fn board_peek(
    words: &[u64; WORDS],
    reals: &[f64; REALS],
    timer: u32,
    offset: u32,
    cycle: u64,
) -> Answer
    ensures { Answers (step (view words.now reals.now) (C.peek timer offset cycle)) result words.now words.now reals.now reals.now }
{
    board::board_peek(words, reals, timer, offset, cycle)
}

// Reset a timer.
#[unsafe(no_mangle)]
pub extern "C" fn board_reset(
    words: &mut [u64; WORDS],
    reals: &mut [f64; REALS],
    timer: u32,
    cycle: u64,
    pins: &mut [u8],
    levels: &mut [u8],
    cycles: &mut [u64],
    sources: &mut [u8],
) -> Answer
    ensures answers { Answers (step (view words.old reals.old) (C.reset_timer timer cycle (places (slices pins.old levels.old cycles.old sources.old)))) result words.old words.new reals.old reals.new }
    ensures holds { Holds (step (view words.old reals.old) (C.reset_timer timer cycle (places (slices pins.old levels.old cycles.old sources.old)))).entries (slices pins.old levels.old cycles.old sources.old) (slices pins.new levels.new cycles.new sources.new) result.count }
{
    board::board_reset(words, reals, timer, cycle, pins, levels, cycles, sources)
}

// Deliver the events that are due.
#[unsafe(no_mangle)]
pub extern "C" fn board_deliver(
    words: &mut [u64; WORDS],
    reals: &mut [f64; REALS],
    timer: u32,
    cycle: u64,
    pins: &mut [u8],
    levels: &mut [u8],
    cycles: &mut [u64],
    sources: &mut [u8],
) -> Answer
    ensures answers { Answers (step (view words.old reals.old) (C.deliver timer cycle (places (slices pins.old levels.old cycles.old sources.old)))) result words.old words.new reals.old reals.new }
    ensures holds { Holds (step (view words.old reals.old) (C.deliver timer cycle (places (slices pins.old levels.old cycles.old sources.old)))).entries (slices pins.old levels.old cycles.old sources.old) (slices pins.new levels.new cycles.new sources.new) result.count }
{
    board::board_deliver(words, reals, timer, cycle, pins, levels, cycles, sources)
}

// A timer's booked cycle.
#[unsafe(no_mangle)]
pub extern "C" fn board_booked(words: &[u64; WORDS], reals: &[f64; REALS], timer: u32) -> Answer
    ensures { Answers (step (view words.now reals.now) (C.query_booked timer)) result words.now words.now reals.now reals.now }
{
    board::board_booked(words, reals, timer)
}

// The least booked cycle.
#[unsafe(no_mangle)]
pub extern "C" fn board_next(words: &[u64; WORDS], reals: &[f64; REALS]) -> Answer
    ensures { Answers (step (view words.now reals.now) C.query_next) result words.now words.now reals.now reals.now }
{
    board::board_next(words, reals)
}

// A pin's level.
#[unsafe(no_mangle)]
pub extern "C" fn board_level(words: &[u64; WORDS], reals: &[f64; REALS], pin: u32) -> Answer
    ensures { Answers (step (view words.now reals.now) (C.query_level pin)) result words.now words.now reals.now reals.now }
{
    board::board_level(words, reals, pin)
}

// A pin's volts, as bits.
#[unsafe(no_mangle)]
pub extern "C" fn board_volts(words: &[u64; WORDS], reals: &[f64; REALS], pin: u32) -> Answer
    ensures { Answers (step (view words.now reals.now) (C.query_volts pin)) result words.now words.now reals.now reals.now }
{
    board::board_volts(words, reals, pin)
}

// An interrupt line: 1 if high plus 2 if pending.
#[unsafe(no_mangle)]
pub extern "C" fn board_line(words: &[u64; WORDS], reals: &[f64; REALS], irq: u32) -> Answer
    ensures { Answers (step (view words.now reals.now) (C.query_line irq)) result words.now words.now reals.now reals.now }
{
    board::board_line(words, reals, irq)
}

// Time at a cycle, as bits.
#[unsafe(no_mangle)]
pub extern "C" fn board_time(words: &[u64; WORDS], reals: &[f64; REALS], cycle: u64) -> Answer
    ensures { Answers (step (view words.now reals.now) (C.query_time cycle)) result words.now words.now reals.now reals.now }
{
    board::board_time(words, reals, cycle)
}

// Why a pin is low at a cycle: the first true reason, 0 to 10. 8 while an event that can change it is due.
#[unsafe(no_mangle)]
pub extern "C" fn board_why(
    words: &[u64; WORDS],
    reals: &[f64; REALS],
    pin: u32,
    cycle: u64,
) -> Answer
    ensures { Answers (step (view words.now reals.now) (C.query_why pin cycle)) result words.now words.now reals.now reals.now }
{
    board::board_why(words, reals, pin, cycle)
}

// Clear a pending interrupt.
#[unsafe(no_mangle)]
pub extern "C" fn board_clear_pending(
    words: &mut [u64; WORDS],
    reals: &[f64; REALS],
    irq: u32,
) -> Answer
    ensures { Answers (step (view words.old reals.now) (C.clear_pending irq)) result words.old words.new reals.now reals.now }
{
    board::board_clear_pending(words, reals, irq)
}

// The setting at place k of the pilots up to n (document 02, F-9). It asks no board. Among them are mode 7, downward and reload 0, of which demand 3
// says nothing.
#[unsafe(no_mangle)]
pub extern "C" fn small_pilot(n: u32, k: u32) -> Listed
    ensures { result ≡ listed n k }
{
    board::small_pilot(n, k)
}
