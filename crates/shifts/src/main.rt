// The duty report for a shift (docs/CALLS.md): the line `FROM TO W0 W1 W2 W3`, then entries `PIN:LEVEL@CYCLE`, with or without `/SOURCE`, as
// `replay` writes them: an answer's three numbers before its entries are passed over. Each entry is fed by itself, so memory stays constant.
#![tactic(auto)]

use reply::{Output, Stop, Taker};
use shift::{FIGURES, KEPT};
use std::process::ExitCode;
use text::{Lines, Piece, Reading, Reason};

// The number of 32 bits that a word is.
fn short(reading: Reading) -> Result<u32, Reason> {
    text::short(reading.told()?)
}

// A pin or a level as a byte: one that a byte does not hold is as wrong as 255.
fn at_most_byte(x: u32) -> u8 {
    u8::try_from(x).unwrap_or(u8::MAX)
}

// ---- the first line

// Its numbers so far: from and to are 64 bits wide, the level words 32.
#[derive(Clone, Copy, Default)]
struct First {
    from: u64,
    to: u64,
    levels: [u32; 4],
    count: usize,
}

impl First {
    fn number(&mut self, reading: Reading) -> Result<(), Reason> {
        match self.count {
            0 => self.from = reading.told()?,
            1 => self.to = reading.told()?,
            k @ 2..=5 => self.levels[k - 2] = short(reading)?,
            _ => return Err(Reason::SurplusNumber),
        }
        self.count += 1;
        Ok(())
    }

    // Whether it has all its numbers; an empty line, or one of a comment, has none of them.
    fn is_whole(&self) -> Result<bool, Reason> {
        match self.count {
            0 => Ok(false),
            1..=5 => Err(Reason::MissingNumber),
            _ => Ok(true),
        }
    }
}

// ---- entries

#[derive(Clone, Copy)]
struct Entry {
    pin: u32,
    level: u32,
    cycle: u64,
}

// The part of an entry that is being read, with those before it: `:` ends a pin, `@` a level, `/` a cycle.
#[derive(Clone, Copy)]
enum Part {
    Pin,
    Level { pin: u32 },
    Cycle { pin: u32, level: u32 },
    Source(Entry),
}

// A word: an entry, or one number.
#[derive(Clone, Copy)]
struct Word {
    part: Part,
    reading: Reading,
}

impl Word {
    fn new() -> Word {
        Word {
            part: Part::Pin,
            reading: Reading::new(),
        }
    }

    // A letter of a number.
    fn digit(&mut self, b: u8) {
        self.reading = self.reading.next(b);
    }

    // A letter of a number, or the mark that ends a part.
    fn letter(&mut self, b: u8) -> Result<(), Reason> {
        self.part = match (self.part, b) {
            (Part::Pin, b':') => Part::Level {
                pin: short(self.reading)?,
            },
            (Part::Level { pin }, b'@') => Part::Cycle {
                pin,
                level: short(self.reading)?,
            },
            (Part::Cycle { pin, level }, b'/') => Part::Source(Entry {
                pin,
                level,
                cycle: self.reading.told()?,
            }),
            _ => {
                self.digit(b);
                return Ok(());
            }
        };
        self.reading = Reading::new();
        Ok(())
    }

    // The word ends: its entry, or none where a number stands alone.
    fn end(self) -> Result<Option<Entry>, Reason> {
        match self.part {
            Part::Pin => {
                self.reading.told()?;
                Ok(None)
            }
            Part::Level { .. } => {
                short(self.reading)?;
                Err(Reason::MissingNumber)
            }
            Part::Cycle { pin, level } => Ok(Some(Entry {
                pin,
                level,
                cycle: self.reading.told()?,
            })),
            Part::Source(entry) => {
                short(self.reading)?;
                Ok(Some(entry))
            }
        }
    }
}

// What a line of entries has had: numbers that stand alone, those of an answer, and whether an entry.
#[derive(Clone, Copy, Default)]
struct Answer {
    numbers: u8,
    entry: bool,
}

impl Answer {
    fn number(&mut self) -> Result<(), Reason> {
        if self.entry || self.numbers >= 3 {
            return Err(Reason::SurplusNumber);
        }
        self.numbers += 1;
        Ok(())
    }

    // An answer has three numbers, or the line none.
    fn whole(&self) -> Result<(), Reason> {
        match self.numbers {
            1 | 2 => Err(Reason::MissingNumber),
            _ => Ok(()),
        }
    }

    fn entry(&mut self) -> Result<(), Reason> {
        self.whole()?;
        self.entry = true;
        Ok(())
    }
}

// ---- bytes, words, lines

#[derive(Clone, Copy)]
enum Phase {
    First(First),
    Entries(Answer),
}

// The word and the line that are being read, and what the report needs of the entries.
#[derive(Drop)]
struct Shift {
    word: Option<Word>,
    phase: Phase,
    kept: [u64; KEPT],
}

impl Shift {
    fn new() -> Shift {
        Shift {
            word: None,
            phase: Phase::First(First::default()),
            kept: [0; KEPT],
        }
    }

    fn letter(&mut self, b: u8) -> Result<(), Reason> {
        let word = self.word.get_or_insert_with(Word::new);
        match self.phase {
            Phase::First(_) => word.digit(b),
            Phase::Entries(_) => word.letter(b)?,
        }
        Ok(())
    }

    fn entry(&mut self, entry: Entry) {
        shift::shift_feed(
            &mut self.kept,
            &[at_most_byte(entry.pin)],
            &[at_most_byte(entry.level)],
            &[entry.cycle],
        );
    }

    fn word_end(&mut self) -> Result<(), Reason> {
        let Some(word) = self.word.take() else {
            return Ok(());
        };
        match &mut self.phase {
            Phase::First(first) => first.number(word.reading)?,
            Phase::Entries(answer) => match word.end()? {
                None => answer.number()?,
                Some(entry) => {
                    answer.entry()?;
                    self.entry(entry);
                }
            },
        }
        Ok(())
    }

    // The line ends, or the input.
    fn line_end(&mut self) -> Result<(), Reason> {
        self.word_end()?;
        match self.phase {
            Phase::First(first) => {
                if !first.is_whole()? {
                    return Ok(());
                }
                shift::shift_begin(&mut self.kept, &first.levels, first.from, first.to);
            }
            Phase::Entries(answer) => answer.whole()?,
        }
        self.phase = Phase::Entries(Answer::default());
        Ok(())
    }

    // `NUMBER HIGH`, and where NUMBER, which is C's too, is 0 a line `PIN HIGH LOW EDGES` for each pin: 128 lines of at most 67 bytes, which the buffer
    // holds.
    fn report<R: Print>(&self, output: &mut Output<'_, R>) {
        let mut figures = [0; FIGURES];
        let summary = shift::shift_end(&self.kept, &mut figures);
        output.number(u64::from(summary.number));
        output.put(b' ');
        output.number(u64::from(summary.high));
        output.put(b'\n');
        if summary.number != 0 {
            return;
        }
        for (pin, of_pin) in (0..).zip(figures.chunks_exact(3)) {
            output.number(pin);
            for figure in of_pin {
                output.put(b' ');
                output.number(*figure);
            }
            output.put(b'\n');
        }
    }
}

impl Taker for Shift {
    type Lines = Lines;

    fn feed(&mut self, lines: &mut Lines, b: u8) -> Result<(), Stop> {
        match lines.unmoved(b) {
            Some(Piece::Letter) => return Ok(self.letter(b)?),
            Some(_) => return Ok(()),
            None => {}
        }
        if lines.is_returned(b) {
            self.letter(b'\r')?;
        }
        match lines.next(b) {
            Piece::Nothing => {}
            Piece::Letter => self.letter(b)?,
            Piece::WordEnd => self.word_end()?,
            Piece::LineEnd => {
                self.line_end()?;
                lines.end();
            }
        }
        Ok(())
    }

    fn end(&mut self, _: &mut Lines) -> Result<(), Stop> {
        self.line_end()?;
        match self.phase {
            Phase::First(_) => Err(Stop::Malformed(Reason::MissingNumber)),
            Phase::Entries(_) => Ok(()),
        }
    }
}

// A report of a part of the input would be a wrong one: if it cannot be read to its end there is none.
fn main(rt: HostRuntime) -> ExitCode {
    let mut output = Output::new(&rt);
    let mut lines = Lines::new();
    let mut shift = Shift::new();
    let taken = shift.take(&mut lines, &mut rt.stdin());
    if taken.is_ok() {
        shift.report(&mut output);
    }
    output.finish(
        taken,
        lines.line(),
        "shifts: a read failed: there is no report\n",
        "shifts: a write failed: the report is not whole\n",
    )
}
