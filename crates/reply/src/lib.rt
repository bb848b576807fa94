// An answer as text, by way of a buffer that is written out when it is nearly full; and what programs share: how an input is taken, and how a run ends.
#![tactic(auto)]

ghost use Rattle.std.specs.Prelude.{◌≡◌, ◌≢◌, ◌+◌, ◌<◌, ◌≤◌, ◌++◌, ◌∷◌, [], take, IsErr, OnOk};
ghost use Rattle.reply.specs.declared.Failure.{Failure};
ghost use Rattle.reply.specs.declared.Stop.{Stop};
ghost use Rattle.reply.specs.Output.{Tells};
ghost use Rattle.std.specs.IoError.{error_kind};
ghost use Rattle.std.specs.declared.io.ErrorKind.TheVariants.{BrokenPipe};
ghost use Rattle.text.specs.Digits.{places_of, digits_of};

use std::io;
use std::io::{Eprint, ErrorKind, Print, Read};
use std::process::ExitCode;
use text::Reason;

pub const OUT: usize = 65536;

// How much of an input is read at once.
const PART: usize = 65536;

// More than any piece that is put into the buffer at once.
const PIECE: usize = 64;

const HEX_DIGITS: [u8; 16] = *b"0123456789abcdef";

// Why a write failed: the answers end there. Unread: nobody reads them any more.
#[derive(Clone, Copy, Debug, PartialEq, Eq, Drop)]
pub enum Failure {
    Lost,
    Unread,
}

impl From<io::Error> for Failure {
    ghost from_gives = { λ error failure. (error_kind error ≡ BrokenPipe → failure ≡ Failure.Unread) × (error_kind error ≢ BrokenPipe → failure ≡ Failure.Lost) };

    fn from(error: io::Error) -> Failure {
        if error.kind() == ErrorKind::BrokenPipe {
            Failure::Unread
        } else {
            Failure::Lost
        }
    }
}

// Why a run ends before its input: a line is malformed, the input cannot be read, or the output not be written.
#[derive(Clone, Copy, Debug, PartialEq, Eq, Drop)]
pub enum Stop {
    Malformed(Reason),
    Read,
    Write(Failure),
}

impl From<Reason> for Stop {
    ghost from_gives = { λ reason stop. stop ≡ Stop.Malformed reason };

    fn from(reason: Reason) -> Stop {
        Stop::Malformed(reason)
    }
}

impl From<io::Error> for Stop {
    ghost from_gives = { λ _ stop. stop ≡ Stop.Read };

    fn from(_: io::Error) -> Stop {
        Stop::Read
    }
}

impl From<Failure> for Stop {
    ghost from_gives = { λ failure stop. stop ≡ Stop.Write failure };

    fn from(failure: Failure) -> Stop {
        Stop::Write(failure)
    }
}

// What an input is given to, by its lines. No laws: that a program reads on is promised no further than that it is safe and ends, which the check of its
// impl shows; what it writes of a call is `Output`'s to promise.
pub trait Taker {
    type Lines;

    // The next byte.
    fn feed(&mut self, lines: &mut Self::Lines, b: u8) -> Result<(), Stop>;

    // The input has ended, perhaps in the middle of a line.
    fn end(&mut self, lines: &mut Self::Lines) -> Result<(), Stop>;

    // Takes an input, to its end or to what stops the run. A proved loop has to end, and nothing says that an input does: so it has more turns than any run
    // uses up.
    fn take(&mut self, lines: &mut Self::Lines, input: &mut impl Read) -> Result<(), Stop> {
        let mut part = [0; PART];
        for _ in 0..u64::MAX {
            let n = input.read(&mut part)?;
            if n == 0 {
                break;
            }
            for b in &part[..n] {
                self.feed(lines, *b)?;
            }
        }
        self.end(lines)
    }
}

// Entries of a book: each has the same place in all four arrays, since C lends a book so.
#[derive(Clone, Copy)]
pub struct Book<'a> {
    pub pins: &'a [u8],
    pub levels: &'a [u8],
    pub cycles: &'a [u64],
    pub sources: &'a [u8],
}

#[derive(Clone, Copy)]
struct Entry {
    pin: u8,
    level: u8,
    cycle: u64,
    source: u8,
}

impl Book<'_> {
    // The entry at a place, if the book has that place.
    fn entry(&self, i: usize) -> Option<Entry> {
        Some(Entry {
            pin: *self.pins.get(i)?,
            level: *self.levels.get(i)?,
            cycle: *self.cycles.get(i)?,
            source: *self.sources.get(i)?,
        })
    }
}

// The answers on their way to the standard output. Once a write has failed each further one fails like it, so they end there. An array with its
// length is no plainer as an `ArrayVec`: `write_number` lays a number's digits where they stay, and there they would be copied once more.
#[derive(Drop)]
pub struct Output<'a, R: Print> {
    rt: &'a R,
    buffer: [u8; OUT],
    used: usize,
    written: Result<(), Failure>,
    ghost within: { used ≤ 65536 },
}

impl<'a, R: Print> Output<'a, R> {
    pub fn new(rt: &'a R) -> Output<'a, R>
        ensures { result.used ≡ 0 }
    {
        Output {
            rt,
            buffer: [0; OUT],
            used: 0,
            written: Ok(()),
        }
    }

    // Writes out what is in the buffer.
    pub fn flush(&mut self) -> Result<(), Failure>
        ensures tells { Tells result self.old.written self.new.written }
        ensures empty { OnOk result (self.new.used ≡ 0) }
    {
        self.written?;
        let used = self.used;
        self.used = 0;
        self.written = self
            .rt
            .write_all(&self.buffer[..used])
            .map_err(Failure::from);
        self.written
    }

    // Makes room for a piece.
    fn room(&mut self) -> Result<(), Failure>
        ensures tells { Tells result self.old.written self.new.written }
    {
        if self.used <= OUT - PIECE {
            return self.written;
        }
        self.flush()
    }

    // One byte, if there is room for it.
    pub fn put(&mut self, b: u8)
        ensures room { self.old.used < 65536 → take self.new.used self.new.buffer ≡ take self.old.used self.old.buffer ++ b ∷ [] }
        ensures full { 65536 ≤ self.old.used → self.new.used ≡ self.old.used }
        ensures written { self.new.written ≡ self.old.written }
    {
        if self.used < OUT {
            self.buffer[self.used] = b;
            self.used += 1;
        }
    }

    // A number, if there is room for all its digits.
    pub fn number(&mut self, x: u64)
        ensures room { self.old.used + places_of x ≤ 65536 → take self.new.used self.new.buffer ≡ take self.old.used self.old.buffer ++ digits_of x }
        ensures full { 65536 < self.old.used + places_of x → self.new.used ≡ self.old.used }
        ensures written { self.new.written ≡ self.old.written }
    {
        let at = self.used;
        if let Some(end) = text::write_number(x, &mut self.buffer, at) {
            self.used = end;
        }
    }

    // A text of few bytes.
    fn words(&mut self, words: &str) -> Result<(), Failure>
        ensures tells { Tells result self.old.written self.new.written }
    {
        self.room()?;
        for b in words.as_bytes() {
            self.put(*b);
        }
        Ok(())
    }

    // ` PIN:LEVEL@CYCLE/SOURCE`
    fn entry(&mut self, entry: Entry) -> Result<(), Failure>
        ensures tells { Tells result self.old.written self.new.written }
    {
        self.room()?;
        self.put(b' ');
        self.number(u64::from(entry.pin));
        self.put(b':');
        self.number(u64::from(entry.level));
        self.put(b'@');
        self.number(entry.cycle);
        self.put(b'/');
        self.number(u64::from(entry.source));
        Ok(())
    }

    // ` NUMBER`
    fn another(&mut self, x: u64) -> Result<(), Failure>
        ensures tells { Tells result self.old.written self.new.written }
    {
        self.room()?;
        self.put(b' ');
        self.number(x);
        Ok(())
    }

    fn hex(&mut self, b: u8) -> Result<(), Failure>
        ensures tells { Tells result self.old.written self.new.written }
    {
        self.room()?;
        self.put(HEX_DIGITS[usize::from(b / 16)]);
        self.put(HEX_DIGITS[usize::from(b % 16)]);
        Ok(())
    }

    // `NUMBER VALUE COUNT`
    fn head(&mut self, answer: &[u64; 3]) -> Result<(), Failure>
        ensures tells { Tells result self.old.written self.new.written }
    {
        let [number, value, count] = *answer;
        self.room()?;
        self.number(number);
        self.put(b' ');
        self.number(value);
        self.put(b' ');
        self.number(count);
        Ok(())
    }

    fn line_end(&mut self) -> Result<(), Failure>
        ensures tells { Tells result self.old.written self.new.written }
    {
        self.room()?;
        self.put(b'\n');
        Ok(())
    }

    // An answer's line.
    pub fn answer(
        &mut self,
        answer: &[u64; 3],
        book: Book<'_>,
        entries: usize,
    ) -> Result<(), Failure>
        ensures tells { Tells result self.old.written self.new.written }
    {
        self.head(answer)?;
        // Tried with `map_while`: the check takes no iterator whose closure holds the book's slices.
        for i in 0..entries {
            match book.entry(i) {
                Some(entry) => self.entry(entry)?,
                None => break,
            }
        }
        self.line_end()
    }

    // The line of an answer that is its three numbers.
    pub fn plain(&mut self, answer: &[u64; 3]) -> Result<(), Failure>
        ensures tells { Tells result self.old.written self.new.written }
    {
        self.head(answer)?;
        self.line_end()
    }

    // The line of an answer that has numbers behind its three and no entries.
    pub fn numbers(&mut self, answer: &[u64; 3], more: &[u64]) -> Result<(), Failure>
        ensures tells { Tells result self.old.written self.new.written }
    {
        self.head(answer)?;
        for x in more {
            self.another(*x)?;
        }
        self.line_end()
    }

    // The line of an answer whose count is that of the bytes behind its three numbers.
    pub fn bytes(&mut self, answer: &[u64; 3], bytes: &[u8]) -> Result<(), Failure>
        ensures tells { Tells result self.old.written self.new.written }
    {
        self.head(answer)?;
        self.put(b' ');
        for b in bytes {
            self.hex(*b)?;
        }
        self.line_end()
    }

    // `line N: ` and the reason.
    pub fn malformed(&mut self, line: u64, reason: Reason) -> Result<(), Failure>
        ensures tells { Tells result self.old.written self.new.written }
    {
        self.words("line ")?;
        self.number(line);
        self.words(": ")?;
        self.words(reason.words())?;
        // In the room that was made for the reason: it goes out with its line's end.
        self.put(b'\n');
        Ok(())
    }
}

impl<R: Print + Eprint> Output<'_, R> {
    // Tells something on standard error, if that can be written.
    fn tell(&self, text: &str) {
        let _ = self.rt.eprint(text);
    }

    // Ends the output of a run that has got to a line. A read that failed is told.
    fn complete(
        &mut self,
        run: Result<(), Stop>,
        line: u64,
        read_failed: &str,
    ) -> Result<(), Failure>
        ensures { IsErr self.old.written → self.new.written ≡ self.old.written }
    {
        match run {
            Ok(()) => {}
            Err(Stop::Malformed(reason)) => self.malformed(line, reason)?,
            Err(Stop::Read) => self.tell(read_failed),
            Err(Stop::Write(failure)) => return Err(failure),
        }
        self.flush()
    }

    // Ends a run. What could not be read or written is told, and the exit status is 0 all the same. Where nobody reads any more nothing is told, and the
    // status is what a shell gives for a program that SIGPIPE ends.
    pub fn finish(
        &mut self,
        run: Result<(), Stop>,
        line: u64,
        read_failed: &str,
        write_failed: &str,
    ) -> ExitCode
        ensures { IsErr self.old.written → self.new.written ≡ self.old.written }
    {
        match self.complete(run, line, read_failed) {
            Ok(()) => {}
            Err(Failure::Lost) => self.tell(write_failed),
            Err(Failure::Unread) => return ExitCode::from(141),
        }
        ExitCode::SUCCESS
    }
}
