// Calls as words of 32 bits (docs/CALLS.md's order): a list of them is performed as the machine's `step` says.
#![tactic(auto)]

mod call;

ghost use Rattle.std.specs.Prelude.{◌≡◌, [], ◌∷◌, ◌+◌, ◌≤◌, length};
ghost use Rattle.std.proofs.lemmas.List.Edits.{sets};
ghost use Rattle.book.specs.Lent.{slices_of, SameSlices};
ghost use Rattle.state.specs.Lent.{SameLoan};
ghost use Rattle.calls.specs.Taken.{Performs};

use answer::Answer;
use book::LentBook;
use state::LentBoard;

// How many calls were performed, and how many entries they made.
#[repr(C)]
#[derive(Clone, Copy)]
pub struct Ran {
    pub calls: usize,
    pub entries: usize,
}

// An answer as three words from place i on.
fn put_answer(answers: &mut [u64], i: usize, r: Answer)
    requires { i + 3 ≤ length answers.old }
    ensures { answers.new ≡ sets answers.old i (r.number ∷ r.value ∷ r.count ∷ []) }
{
    answers[i..i + 3].copy_from_slice(&[u64::from(r.number), r.value, u64::from(r.count)]);
}

// Performs the calls one after the other. Each answers three words (number, value, count), and is lent the places behind the entries of
// those before it. Stops before the first that is no call or finds no room.
pub fn run_calls(
    board: &mut LentBoard<'_>,
    book: &mut LentBook<'_>,
    calls: &[u32],
    answers: &mut [u64],
) -> Ran
    ensures same_loan { SameLoan board.old board.new }
    ensures same_slices { SameSlices book.old book.new }
    ensures performs { Performs calls.now board.old.words.now board.new.words.now board.old.reals.now board.new.reals.now answers.old answers.new (slices_of book.old) (slices_of book.new) result }
    ensures counted { book.new.count ≡ result.entries }
{
    book.count = 0;
    let room = book.places();
    let most = answers.len() / 3;
    let mut at: usize = 0;
    for done in 0..most {
        let rest = &calls[at..];
        let Some((call, len)) = call::next_call(rest, room - book.count) else {
            return Ran {
                calls: done,
                entries: book.count,
            };
        };
        let i = done * 3;
        let answer = call::perform_next(board, book, call);
        put_answer(answers, i, answer);
        at += len;
    }
    Ran {
        calls: most,
        entries: book.count,
    }
}
