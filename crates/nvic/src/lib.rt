// Interrupt lines (arm/nvic.rs), each a word: bit 0 is its level, bit 1 its pending flag, bits 2 to 9 what timers 0 to 7 asked for last. The level
// follows from the wishes and is kept beside them, where words of older boards, which have no wishes, have it too.
// A timer's index is below 8, as many as the word has bits for, and no type: it is the place of a bit here, and state's `TimerIndex` stands above.
// Functions of the word and no struct of its bits: it is lent as a word, and each call would take a struct apart and put it together again.
#![tactic(auto)]

ghost use Rattle.std.specs.Prelude.{◌≡◌, ◌<◌, set};
ghost use Rattle.nvic.specs.Nvic.{line_with, line_set, line_cleared, state_of, line_of};

const HIGH: u64 = 1;

const PENDING: u64 = 2;

// 1 if the line is high plus 2 if it is pending.
pub fn state(word: u64) -> u64
    ensures { result ≡ state_of (line_of word) }
{
    word % 4
}

// The word with the pending flag cleared.
pub fn cleared(word: u64) -> u64
    ensures { line_of result ≡ line_cleared (line_of word) }
{
    word & !PENDING
}

// The word with timer i's wish; level and pending flag stay.
fn wished(word: u64, i: usize, level: bool) -> u64
    requires { i < 8 }
    ensures { line_of result ≡ record { high = (line_of word).high; pending = (line_of word).pending; wishes = set (line_of word).wishes i level } }
{
    let bit = 4u64 << i;
    if level { word | bit } else { word & !bit }
}

// The word with the level that its wishes make; a rise pends.
fn settled(word: u64) -> u64
    ensures { line_of result ≡ line_with (line_of word) (line_of word).wishes }
{
    match (word / 4 % 256, word % 2) {
        (0, _) => word & !HIGH,
        (_, 1) => word,
        _ => word | (HIGH | PENDING),
    }
}

// The word of a line after timer i's `set_line`.
pub fn driven(word: u64, i: usize, level: bool) -> u64
    requires { i < 8 }
    ensures { line_of result ≡ line_set (line_of word) i level }
{
    settled(wished(word, i, level))
}
