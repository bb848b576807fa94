// The calls of pins, with the lent book: set a pin, drive it from outside, reset them all. Each answers and leaves what `step` does.
#![tactic(auto)]

ghost use Rattle.std.specs.Prelude.{◌≡◌, cond, List, [], ◌∷◌, ◌<◌, ◌≤◌, leb, Float, length};
ghost use Rattle.answer.specs.Promise.{answer, AnswersLent};
ghost use Rattle.answer.specs.Refused.{refusal_number, told};
ghost use Rattle.book.specs.Book.{puts, entry_of, places, Holds, Room};
ghost use Rattle.book.specs.Lent.{slices_of, filled, SameSlices};
ghost use Rattle.machine.specs.Board.{with_last};
ghost use Rattle.machine.specs.Call as C;
ghost use Rattle.machine.specs.Refusals.{◌when◌, first, no_such_index, clock_astray, book_full};
ghost use Rattle.machine.specs.Step.{step, cfg_of};
ghost use Rattle.machine.specs.Sys as S;
ghost use Rattle.std.specs.Result.{IfOk};
ghost use Rattle.state.specs.Lent.{lent_board, SameLoan};
ghost use Rattle.state.specs.View.{view};
ghost use Rattle.pads.specs.Ext.{drive_of};
ghost use Rattle.pads.specs.Setting.{set_pin_call};

use answer::{Answer, Refusal};
use book::LentBook;
use gpio::{Edge, PinCfg};
use pins::ExtDrive;
use state::{LentBoard, PinIndex, WORDS};

// How a call sets a pin, in its numbers: all but the mode and the function are yes or no, and 0 is no.
#[derive(Clone, Copy)]
pub struct PinSetting {
    pub mode: u32,
    pub open_drain: u32,
    pub out: u32,
    pub pullup: u32,
    pub pulldown: u32,
    pub function: u32,
}

impl PinSetting {
    // The configuration that it asks for.
    fn configuration(self) -> PinCfg
        ensures { result ≡ cfg_of self.mode self.open_drain self.out self.pullup self.pulldown }
    {
        PinCfg {
            mode: mode_of(self.mode),
            open_drain: self.open_drain != 0,
            odr: u8::from(self.out != 0),
            pullup: self.pullup != 0,
            pulldown: self.pulldown != 0,
        }
    }
}

// A call gives it as a number, and any may come: one above 3 acts as input.
fn mode_of(mode: u32) -> u8
    ensures { result ≡ cond (leb mode 3) mode 0 }
{
    if mode <= 3 { mode as u8 } else { 0 }
}

// A call gives the outside drive as a number, and any may come: 1 low, 2 high, 3 analogue, every other nothing.
fn ext_of(kind: u32, volts: f64) -> ExtDrive
    ensures { result ≡ drive_of kind volts }
{
    match kind {
        1 => ExtDrive::Low,
        2 => ExtDrive::High,
        3 => ExtDrive::Analog(volts),
        _ => ExtDrive::Float,
    }
}

// What a pin's call is refused for after its index: the cycle, a signal that another pin routes, a book with too few places.
fn check(
    words: &[u64; WORDS],
    book: &LentBook<'_>,
    cycle: u64,
    taken: bool,
    need: usize,
) -> Result<(), Refusal>
    ensures { (x : List Float) → refusal_number result ≡ first (clock_astray (view words.now x) cycle ∷ (11 when taken) ∷ book_full need (places (slices_of book.now)) ∷ []) }
{
    if answer::is_astray(words, cycle) {
        return Err(Refusal::ClockAstray);
    }
    if taken {
        return Err(Refusal::SignalTaken);
    }
    if book.places() < need {
        return Err(Refusal::BookFull);
    }
    Ok(())
}

// The pin of an outside drive, or what the drive is refused for.
fn check_drive(
    words: &[u64; WORDS],
    book: &LentBook<'_>,
    pin: u32,
    cycle: u64,
) -> Result<PinIndex, Refusal>
    ensures refusal { (x : List Float) → refusal_number result ≡ first (no_such_index pin (view words.now x).counts.pins ∷ clock_astray (view words.now x) cycle ∷ book_full 4 (places (slices_of book.now)) ∷ []) }
    ensures index { IfOk result (λ p. p.n ≡ pin) }
{
    let p = state::pin(words, pin).ok_or(Refusal::NoSuchIndex)?;
    check(words, book, cycle, false, 4)?;
    Ok(p)
}

// The pin of a setting, or what the setting is refused for: a signal that another pin routes comes after the cycle and before the book.
fn check_setting(
    words: &[u64; WORDS],
    book: &LentBook<'_>,
    pin: u32,
    cfg: PinCfg,
    function: u32,
    cycle: u64,
) -> Result<PinIndex, Refusal>
    ensures refusal { (x : List Float) → refusal_number result ≡ first (no_such_index pin (view words.now x).counts.pins ∷ clock_astray (view words.now x) cycle ∷ (11 when S.taken (view words.now x).pads pin (S.selected (view words.now x).pads pin cfg function)) ∷ book_full 4 (places (slices_of book.now)) ∷ []) }
    ensures index { IfOk result (λ p. p.n ≡ pin) }
{
    let p = state::pin(words, pin).ok_or(Refusal::NoSuchIndex)?;
    let taken = sys::is_taken(words, p, cfg, function);
    check(words, book, cycle, taken, 4)?;
    Ok(p)
}

// A pin was changed by a call at a cycle: the cycle is the last, and the change is in the book.
fn changed(
    words: &mut [u64; WORDS],
    book: &mut LentBook<'_>,
    change: Option<Edge>,
    at: u64,
) -> Answer
    requires { (book.old.count ≡ 0) × (Room 1 (slices_of book.old)) }
    ensures same_slices { SameSlices book.old book.new }
    ensures board { (x : List Float) → view words.new x ≡ with_last (view words.old x) at }
    ensures counted { result ≡ answer 0 0 book.new.count }
    ensures entered { filled book.new ≡ puts (filled book.old) (entry_of at change) }
    ensures at_most_one { book.new.count ≤ 1 }
{
    state::set_last(words, at);
    book.append(change, at);
    answer::entered(book)
}

// Sets a pin: configuration and alternate function.
#[inline(always)]
pub fn set_pin(
    board: &mut LentBoard<'_>,
    book: &mut LentBook<'_>,
    pin: u32,
    setting: PinSetting,
    cycle: u64,
) -> Result<Answer, Refusal>
    ensures same_loan { SameLoan board.old board.new }
    ensures same_slices { SameSlices book.old book.new }
    ensures answers { AnswersLent (step (lent_board board.old) (set_pin_call pin setting cycle (places (slices_of book.old)))) (told result) board.old board.new }
    ensures holds { Holds (step (lent_board board.old) (set_pin_call pin setting cycle (places (slices_of book.old)))).entries (slices_of book.old) (slices_of book.new) (told result).count }
{
    book.count = 0;
    let cfg = setting.configuration();
    let p = check_setting(board.words, book, pin, cfg, setting.function, cycle)?;
    let change = sys::set_pin(board, p, cfg, setting.function);
    Ok(changed(board.words, book, change, cycle))
}

// Drives a pin from outside.
#[inline(always)]
pub fn drive_pin(
    board: &mut LentBoard<'_>,
    book: &mut LentBook<'_>,
    pin: u32,
    kind: u32,
    volts: f64,
    cycle: u64,
) -> Result<Answer, Refusal>
    ensures same_loan { SameLoan board.old board.new }
    ensures same_slices { SameSlices book.old book.new }
    ensures answers { AnswersLent (step (lent_board board.old) (C.drive_pin pin (drive_of kind volts) cycle (places (slices_of book.old)))) (told result) board.old board.new }
    ensures holds { Holds (step (lent_board board.old) (C.drive_pin pin (drive_of kind volts) cycle (places (slices_of book.old)))).entries (slices_of book.old) (slices_of book.new) (told result).count }
{
    book.count = 0;
    let p = check_drive(board.words, book, pin, cycle)?;
    let ext = ext_of(kind, volts);
    let change = sys::drive_pin(board, p, ext);
    Ok(changed(board.words, book, change, cycle))
}

// Resets every pin.
pub fn reset_pins(
    board: &mut LentBoard<'_>,
    book: &mut LentBook<'_>,
    cycle: u64,
) -> Result<Answer, Refusal>
    ensures same_loan { SameLoan board.old board.new }
    ensures same_slices { SameSlices book.old book.new }
    ensures answers { AnswersLent (step (lent_board board.old) (C.reset_pins cycle (places (slices_of book.old)))) (told result) board.old board.new }
    ensures holds { Holds (step (lent_board board.old) (C.reset_pins cycle (places (slices_of book.old)))).entries (slices_of book.old) (slices_of book.new) (told result).count }
{
    book.count = 0;
    let need = state::pin_count(board.words);
    check(board.words, book, cycle, false, need)?;
    sys::reset_pins(board, book, cycle);
    state::set_last(board.words, cycle);
    Ok(answer::entered(book))
}
