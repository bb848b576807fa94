// A pin's level, selected signal and push-pull drive in the lent words: what a driven pin shows is read and stored word by word.
// A second way of what crate gpio does by value: by value it takes more than the Rust's time.
// A level (0 or 1) is a plain number: it is compared and stored, and a type would be put together and taken apart at each call.
#![tactic(auto)]

ghost use Rattle.std.specs.Prelude.{◌≡◌, List, ℕ, ◌<◌, ◌≤◌, Float};
ghost use Rattle.gpio.specs.Gpio.{is_push_pull, push_pull};
ghost use Rattle.state.specs.Board.{pin_at, pin_set};
ghost use Rattle.state.specs.Lent.{lent_board, SameLoan};
ghost use Rattle.state.specs.View.{view};

use codec::{GPIO_WORDS, pin};
use pins::Source;
use state::{GPIO, GPIO_REALS, LentBoard, PinIndex, WORDS};

pub fn level(words: &[u64; WORDS], p: PinIndex) -> u8
    ensures { (x : List Float) → result ≡ (pin_at (view words.now x) p.n).pin.level }
{
    codec::lowest(words[GPIO + (p.n * GPIO_WORDS + pin::LEVEL)])
}

// The selected signal.
pub fn signal(words: &[u64; WORDS], p: PinIndex) -> u32
    ensures signal { (x : List Float) → result ≡ (pin_at (view words.now x) p.n).sig }
    ensures range { result < 256 }
{
    u32::from(codec::low_8(words[GPIO + (p.n * GPIO_WORDS + pin::SIG)]))
}

// In alternate mode, and not open drain.
pub fn is_push_pull(words: &[u64; WORDS], p: PinIndex) -> bool
    ensures { (x : List Float) → result ≡ is_push_pull (pin_at (view words.now x) p.n).cfg }
{
    codec::low_8(words[GPIO + p.n * GPIO_WORDS]) == 2
        && !codec::is_odd(words[GPIO + (p.n * GPIO_WORDS + pin::OPEN_DRAIN)])
}

// Push-pull pin p at the level of a signal that drives it: the source is the chip, and stands in the level's word. For speed, the words that
// keep their values are not stored, and the words are named once: through the board each store would look up anew where they are.
pub fn drive_level(board: &mut LentBoard<'_>, p: PinIndex, level: u8)
    requires { level ≤ 1 }
    ensures same_loan { SameLoan board.old board.new }
    ensures board { lent_board board.new ≡ pin_set (lent_board board.old) p.n (push_pull (pin_at (lent_board board.old) p.n) level (lent_board board.old).pads.vcc) }
{
    state::known_lengths(board.words, board.reals);
    let v = pins::supply_at(state::vcc(board.reals), level);
    let words = &mut *board.words;
    let at = GPIO + p.n * GPIO_WORDS;
    let up = words[at + pin::PULLUP] % 2;
    let down = words[at + pin::PULLDOWN] % 2;
    words[at + pin::DIR] = 1;
    words[at + pin::UP] = up;
    words[at + pin::DOWN] = down;
    words[at + pin::OV_ENABLE] = 1;
    words[at + pin::OV_VALUE] = level as u64;
    words[at + pin::DDOE] = 0;
    words[at + pin::DDOV] = 0;
    words[at + pin::LEVEL] = codec::level_word(level, Source::Chip);
    board.reals[GPIO_REALS + p.n * 2] = v;
}
