// The duty report for a shift, exported for C and Rust: each is `shift`'s function of the same name, with the same promise.
// A crate of its own: rt has a crate as a library or as a static library, not both; so each signature and clause stands here again.
#![tactic(auto)]

ghost use Rattle.std.specs.Prelude.{◌≡◌, ◌<◌, List, [], ◌++◌, length};
ghost use Rattle.book.specs.Book.{Entry};
ghost use Rattle.shift.specs.Shift.{piece, Shift, shift, entries_in, Reports};
ghost use Rattle.shift.specs.Kept.{fed, Ended, Stands};

use shift::{FIGURES, KEPT, Summary};

// A shift begins: every pin's level before the first entry, pin i at bit i mod 32 of word i div 32, and its two cycles.
#[unsafe(no_mangle)]
pub extern "C" fn shift_begin(kept: &mut [u64; KEPT], words: &[u32; 4], from: u64, to: u64)
    ensures { Stands (shift words.now from to) [] kept.new }
{
    shift::shift_begin(kept, words, from, to);
}

// The entries of a book more, as many as its shortest slice has places.
#[unsafe(no_mangle)]
pub extern "C" fn shift_feed(kept: &mut [u64; KEPT], pins: &[u8], levels: &[u8], cycles: &[u64])
    ensures kept_after { kept.new ≡ fed kept.old (entries_in (piece pins.now levels.now cycles.now)) }
    ensures stands { (s : Shift) (es : List Entry) → Stands s es kept.old → Stands s (es ++ entries_in (piece pins.now levels.now cycles.now)) kept.new }
{
    shift::shift_feed(kept, pins, levels, cycles);
}

// The report: high, low and edges of pin i at the places 3 i, 3 i + 1, 3 i + 2, and how many pins are high at the end. With 9 or 10 no figure is
// written. The kept words stay: more can be fed, and the shift ended again.
#[unsafe(no_mangle)]
pub extern "C" fn shift_end(kept: &[u64; KEPT], figures: &mut [u64; FIGURES]) -> Summary
    ensures ended { Ended kept.now result figures.old figures.new }
    ensures reports { (s : Shift) (es : List Entry) → Stands s es kept.now → length es < 18446744073709551616 → Reports s es result.number result.high figures.old figures.new }
{
    shift::shift_end(kept, figures)
}

// The report of one book: begin, one feed, end.
#[unsafe(no_mangle)]
pub extern "C" fn shift_report(
    figures: &mut [u64; FIGURES],
    words: &[u32; 4],
    from: u64,
    to: u64,
    pins: &[u8],
    levels: &[u8],
    cycles: &[u64],
) -> Summary
    ensures { Reports (shift words.now from to) (entries_in (piece pins.now levels.now cycles.now)) result.number result.high figures.old figures.new }
{
    shift::shift_report(figures, words, from, to, pins, levels, cycles)
}
