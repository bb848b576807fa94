// A timer's outputs over the lent state (tim.rs, drive_outputs): its channels' signals at their levels, and the changes into a book.
// A signal (below 256) and a level (0 or 1) are plain numbers: they are summed and compared, and a type would be put together and taken apart at each call.
#![tactic(auto)]

ghost use Rattle.std.specs.Prelude.{◌≡◌, ◌+◌, ◌<◌, ◌≤◌};
ghost use Rattle.book.specs.Book.{Room};
ghost use Rattle.book.specs.Lent.{slices_of, filled, SameSlices};
ghost use Rattle.machine.specs.Board.{timer_at};
ghost use Rattle.machine.specs.Sys as S;
ghost use Rattle.state.specs.Board.{sig_level_at};
ghost use Rattle.state.specs.Lent.{lent_board, SameLoan};
ghost use Rattle.sys.specs.Moves.{Moves};
ghost use Rattle.outputs.specs.Outputs.{Driven, level_driven, DrivenOne};

use book::LentBook;
use gpio::Edge;
use state::{LentBoard, TimerIndex};
use tim::{CH1, CH2, CH3, CH4, Timer};

// Signal s at a level that it has not, and its level change into the book at a cycle. For speed it is a call, and what it calls is compiled into it:
// so the change stays in registers on its way to the book.
#[inline(never)]
fn move_channel(board: &mut LentBoard<'_>, book: &mut LentBook<'_>, s: usize, level: u8, at: u64)
    requires signal { (s < 256) × (level ≤ 1) × (sig_level_at (lent_board board.old) s ≡ level → ⊥) }
    requires room { Room (book.old.count + 1) (slices_of book.old) }
    ensures same_loan { SameLoan board.old board.new }
    ensures same_slices { SameSlices book.old book.new }
    ensures driven { DrivenOne (S.sig_out (lent_board board.old).pads s level) at (lent_board board.old) (lent_board board.new) (filled book.old) (filled book.new) }
    ensures at_most_one { book.new.count ≤ book.old.count + 1 }
{
    let change = sys::move_signal(board, s, level);
    book.append(change, at);
}

// Signal s, of channel ch, at a level, if the timer has that channel; its level change is handed back. A whole timer goes by `enter_channel`.
pub fn drive_channel(
    board: &mut LentBoard<'_>,
    channels: u32,
    ch: u32,
    s: usize,
    level: bool,
) -> Option<Edge>
    requires { s < 256 }
    ensures same_loan { SameLoan board.old board.new }
    ensures moves { Moves (level_driven channels ch s level (lent_board board.old).pads) (lent_board board.old) (lent_board board.new) result }
{
    if ch >= channels {
        return None;
    }
    sys::sig_out(board, s, level as u8)
}

// The same, and the level change into the book at a cycle. For speed a signal that has its level is looked at where this is compiled in.
// Seven parameters: a struct of them would be put together at each of the four calls and taken apart here.
#[inline(always)]
fn enter_channel(
    board: &mut LentBoard<'_>,
    book: &mut LentBook<'_>,
    channels: u32,
    ch: u32,
    s: usize,
    level: bool,
    at: u64,
)
    requires signal { s < 256 }
    requires room { Room (book.old.count + 1) (slices_of book.old) }
    ensures same_loan { SameLoan board.old board.new }
    ensures same_slices { SameSlices book.old book.new }
    ensures driven { DrivenOne (level_driven channels ch s level (lent_board board.old).pads) at (lent_board board.old) (lent_board board.new) (filled book.old) (filled book.new) }
    ensures at_most_one { book.new.count ≤ book.old.count + 1 }
{
    if ch >= channels {
        return;
    }
    let want = level as u8;
    if state::sig_level(board.words, s) != want {
        move_channel(board, book, s, want, at);
    }
}

// Drives the outputs of a timer at a count, and writes their level changes at a cycle into the book.
#[inline(always)]
pub fn drive_timer(board: &mut LentBoard<'_>, book: &mut LentBook<'_>, t: Timer, cnt: u32, at: u64)
    requires { Room (book.old.count + 4) (slices_of book.old) }
    ensures same_loan { SameLoan board.old board.new }
    ensures same_slices { SameSlices book.old book.new }
    ensures driven { Driven (S.drive_outputs t cnt (lent_board board.old).pads) at (lent_board board.old) (lent_board board.new) (filled book.old) (filled book.new) }
    ensures at_most_four { book.new.count ≤ book.old.count + 4 }
{
    if !(2..=4).contains(&t.inst.n) {
        return;
    }
    let s = sig::tim(t.inst.n as u8, 0) as usize;
    let channels = t.inst.channels;
    // Written out: by a loop over the channels an event takes longer.
    enter_channel(board, book, channels, 0, s, t.output(CH1, cnt), at);
    enter_channel(board, book, channels, 1, s + 1, t.output(CH2, cnt), at);
    enter_channel(board, book, channels, 2, s + 2, t.output(CH3, cnt), at);
    enter_channel(board, book, channels, 3, s + 3, t.output(CH4, cnt), at);
}

// The same of timer i.
pub fn drive_outputs(
    board: &mut LentBoard<'_>,
    book: &mut LentBook<'_>,
    i: TimerIndex,
    cnt: u32,
    at: u64,
)
    requires room { Room (book.old.count + 4) (slices_of book.old) }
    ensures same_loan { SameLoan board.old board.new }
    ensures same_slices { SameSlices book.old book.new }
    ensures driven { Driven (S.drive_outputs (timer_at (lent_board board.old) i.n) cnt (lent_board board.old).pads) at (lent_board board.old) (lent_board board.new) (filled book.old) (filled book.new) }
    ensures at_most_four { book.new.count ≤ book.old.count + 4 }
{
    let t = state::load_timer(board.words, i);
    drive_timer(board, book, t, cnt, at);
}
