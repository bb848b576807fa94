// One call: decoded, and performed as the machine's `step` says.

ghost use Rattle.std.specs.Prelude.{◌≡◌, ◌||◌, ◌+◌, ◌≤◌, ltb, eqb, is_none, IfSome};
ghost use Rattle.book.specs.Book.{puts, places, Holds, Room, slices};
ghost use Rattle.book.specs.Lent.{slices_of, filled, SameSlices};
ghost use Rattle.state.specs.Lent.{lent_board, SameLoan};
ghost use Rattle.machine.specs.Step.{step};
ghost use Rattle.answer.specs.Promise.{AnswersLent};
ghost use Rattle.answer.specs.Refused.{told};
ghost use Rattle.encoding.specs.Encoding as E;
ghost use Rattle.encoding.specs.Asked.{plain_call, lent_call, asked_with, asked, lent_places};

use answer::{Answer, Refusal};
use book::LentBook;
use encoding::{BookCall, Call, Plain};
use state::LentBoard;

fn perform_plain(board: &mut LentBoard<'_>, call: Plain<'_>) -> Result<Answer, Refusal>
    ensures same_loan { SameLoan board.old board.new }
    ensures answers { AnswersLent (step (lent_board board.old) (plain_call call.entry)) (told result) board.old board.new }
{
    match call {
        Plain::SetUp(s) => setup::set_up(board, s),
        Plain::Clock { tree, cycle } => control::set_clock_tree(board, tree, cycle),
        Plain::Enable { word, value } => control::enable(board.words, word, value),
        Plain::ClearPending { irq } => Ok(control::clear_pending(board.words, irq)),
        Plain::Read {
            timer,
            offset,
            size,
            cycle,
        } => mmio::read(board.words, timer, offset, size, cycle),
        Plain::Peek {
            timer,
            offset,
            cycle,
        } => mmio::peek(board.words, timer, offset, cycle),
        Plain::Booked { timer } => control::booked(board.words, timer),
        Plain::Next => Ok(control::next_booked(board.words)),
        Plain::Level { pin } => control::level(board.seen(), pin),
        Plain::Volts { pin } => control::volts(board.seen(), pin),
        Plain::Line { irq } => Ok(control::line(board.words, irq)),
        Plain::Time { cycle } => control::time(board.seen(), cycle),
        Plain::Why { pin, cycle } => why::why(board.seen(), pin, cycle),
    }
}

fn perform_lent(
    board: &mut LentBoard<'_>,
    book: &mut LentBook<'_>,
    call: BookCall,
    cycle: u64,
) -> Result<Answer, Refusal>
    ensures same_loan { SameLoan board.old board.new }
    ensures same_slices { SameSlices book.old book.new }
    ensures answers { AnswersLent (step (lent_board board.old) (lent_call call cycle (places (slices_of book.old)))) (told result) board.old board.new }
    ensures holds { Holds (step (lent_board board.old) (lent_call call cycle (places (slices_of book.old)))).entries (slices_of book.old) (slices_of book.new) (told result).count }
{
    match call {
        BookCall::SetPin { pin, setting } => pads::set_pin(board, book, pin, setting, cycle),
        BookCall::DrivePin { pin, kind, volts } => {
            pads::drive_pin(board, book, pin, kind, volts, cycle)
        }
        BookCall::ResetPins => pads::reset_pins(board, book, cycle),
        BookCall::Write {
            timer,
            offset,
            size,
            value,
        } => write::write(board, book, timer, offset, size, value, cycle),
        BookCall::Reset { timer } => mmio::reset(board, book, timer, cycle),
        BookCall::Deliver { timer } => mmio::deliver(board, book, timer, cycle),
    }
}

fn perform(
    board: &mut LentBoard<'_>,
    book: &mut LentBook<'_>,
    call: Call<'_>,
) -> Result<Answer, Refusal>
    ensures same_loan { SameLoan board.old board.new }
    ensures same_slices { SameSlices book.old book.new }
    ensures answers { AnswersLent (step (lent_board board.old) (asked_with call.entry (places (slices_of book.old)))) (told result) board.old board.new }
    ensures holds { Holds (step (lent_board board.old) (asked_with call.entry (places (slices_of book.old)))).entries (slices_of book.old) (slices_of book.new) (told result).count }
{
    match call {
        Call::Plain(call) => perform_plain(board, call),
        Call::Lent { call, cycle, .. } => perform_lent(board, book, call, cycle),
    }
}

// The call, lent a book of these slices. It stands apart, since no proof closes where parts of slices that a struct holds are put into another.
fn perform_in(
    board: &mut LentBoard<'_>,
    pins: &mut [u8],
    levels: &mut [u8],
    cycles: &mut [u64],
    sources: &mut [u8],
    call: Call<'_>,
) -> Answer
    ensures same_loan { SameLoan board.old board.new }
    ensures answers { AnswersLent (step (lent_board board.old) (asked_with call.entry (places (slices pins.old levels.old cycles.old sources.old)))) result board.old board.new }
    ensures holds { Holds (step (lent_board board.old) (asked_with call.entry (places (slices pins.old levels.old cycles.old sources.old)))).entries (slices pins.old levels.old cycles.old sources.old) (slices pins.new levels.new cycles.new sources.new) result.count }
{
    let mut book = LentBook {
        pins,
        levels,
        cycles,
        sources,
        count: 0,
    };
    Answer::from(perform(board, &mut book, call))
}

// The call, lent so many places behind the entries so far: its entries go there.
pub(crate) fn perform_next(
    board: &mut LentBoard<'_>,
    book: &mut LentBook<'_>,
    call: Call<'_>,
) -> Answer
    requires { Room (book.old.count + lent_places call) (slices_of book.old) }
    ensures same_loan { SameLoan board.old board.new }
    ensures same_slices { SameSlices book.old book.new }
    ensures answers { AnswersLent (step (lent_board board.old) (asked call.entry)) result board.old board.new }
    ensures entered { filled book.new ≡ puts (filled book.old) (step (lent_board board.old) (asked call.entry)).entries }
{
    let at = book.count;
    let end = at + call.places() as usize;
    let answer = perform_in(
        board,
        &mut book.pins[at..end],
        &mut book.levels[at..end],
        &mut book.cycles[at..end],
        &mut book.sources[at..end],
        call,
    );
    book.count += answer.count as usize;
    answer
}

// The call that the words begin with and how many of them it has, if they are a call that finds its places.
pub(crate) fn next_call(calls: &[u32], room: usize) -> Option<(Call<'_>, usize)>
    ensures call { IfSome result (λ r. (asked r.0 ≡ E.call_of calls.now) × (r.1 ≡ E.len_of calls.now) × (lent_places r.0 ≤ room)) }
    ensures stops { is_none result ≡ (eqb (E.len_of calls.now) 0 || ltb room (E.book_of calls.now)) }
{
    let (call, len) = encoding::first_call(calls)?;
    if (room as u64) < call.places() {
        return None;
    }
    Some((call, len))
}
