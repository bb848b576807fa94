// Answers a call list (docs/CALLS.md): standard input to standard output, from the first board.
#![tactic(auto)]

ghost use Rattle.std.specs.Prelude.{◌<◌, ◌≤◌};

use book::LentBook;
use line::Reader;
use reply::{Book, Failure, Output, Stop, Taker};
use settings::Read as Record;
use state::{LentBoard, REALS, WORDS};
use std::process::ExitCode;
use text::Command;

// 100,001 events make at most four entries each: a longer book never matters.
const PLACES: usize = 400004;

// A record's bytes: no longer one is written, and none takes more.
const WRITTEN: usize = 15;

const BYTES: usize = 65537;

// A number of places, up to so many.
fn at_most(asked: u64, most: usize) -> usize
    ensures { result ≤ most }
{
    asked.min(most as u64) as usize
}

// The two numbers of 32 bits of a call that has no others.
fn short_two(call: &[u32]) -> (u32, u32) {
    match call {
        [_, first, second, ..] => (*first, *second),
        _ => (0, 0),
    }
}

// The number of 64 bits at place i of a call that has no others.
fn wide(call: &[u32], i: usize) -> u64
    requires { i < 9 }
{
    match call.get(1 + 2 * i..3 + 2 * i) {
        Some([low, high]) => line::joined(*low, *high),
        _ => 0,
    }
}

// The board, the four arrays of the book that its calls are lent, since C lends a book so, and the answers on their way out.
#[derive(Drop)]
struct Session<'a, R: Print> {
    words: &'a mut [u64; WORDS],
    reals: &'a mut [f64; REALS],
    pins: &'a mut [u8; PLACES],
    levels: &'a mut [u8; PLACES],
    cycles: &'a mut [u64; PLACES],
    sources: &'a mut [u8; PLACES],
    output: Output<'a, R>,
}

impl<'a, R: Print> Session<'a, R> {
    // Runs a call with its places of the book, and writes its answer. Places of an array behind two references are lent in two steps: in one the proof
    // does not close.
    fn run(&mut self, call: &[u32], places: usize) -> Result<(), Failure> {
        let places = places.min(PLACES);
        let mut answer = [0; 3];
        let pins = &mut *self.pins;
        let pins = &mut pins[..places];
        let levels = &mut *self.levels;
        let levels = &mut levels[..places];
        let cycles = &mut *self.cycles;
        let cycles = &mut cycles[..places];
        let sources = &mut *self.sources;
        let sources = &mut sources[..places];
        let mut board = LentBoard {
            words: &mut *self.words,
            reals: &mut *self.reals,
        };
        let mut lent = LentBook {
            pins: &mut *pins,
            levels: &mut *levels,
            cycles: &mut *cycles,
            sources: &mut *sources,
            count: 0,
        };
        let ran = calls::run_calls(&mut board, &mut lent, call, &mut answer);
        let book = Book {
            pins,
            levels,
            cycles,
            sources,
        };
        self.output.answer(&answer, book, ran.entries)
    }

    // An answer by its number, which C is given too and where 0 is a call that was served: only then there are numbers behind it.
    fn tell(&mut self, number: u32, numbers: &[u64]) -> Result<(), Failure> {
        let answer = [u64::from(number), 0, 0];
        match number {
            0 => self.output.numbers(&answer, numbers),
            _ => self.output.plain(&answer),
        }
    }

    // The setting at place K of the pilots up to N.
    fn pilot(&mut self, n: u32, k: u32) -> Result<(), Failure> {
        let p = small::pilot(n, k);
        let setting = [p.reload, p.prescaler, p.compare, p.mode, p.down].map(u64::from);
        self.tell(p.number, &setting)
    }

    // The writer of records, lent as many of the line's places as a record can need. By the number that C is given: 0 for a record that was written.
    fn record(&mut self, call: &[u32]) -> Result<(), Failure> {
        let mut places = [0; WRITTEN];
        let asked = at_most(wide(call, 8), WRITTEN);
        let stored = settings::record_write(
            &mut places[..asked],
            wide(call, 0),
            wide(call, 1),
            wide(call, 2),
            wide(call, 3),
            wide(call, 4),
            wide(call, 5),
            wide(call, 6),
            wide(call, 7),
        );
        let answer = [u64::from(stored.number), 0, u64::from(stored.count)];
        match (stored.number, places.get(..stored.count as usize)) {
            (0, Some(bytes)) => self.output.bytes(&answer, bytes),
            (0, None) => Ok(()),
            _ => self.output.plain(&answer),
        }
    }

    // A reader of records: the bytes are the call's words behind its number. Not compiled into `call`, which would go through its 64 KiB of stack at each line.
    #[inline(never)]
    fn unrecord<F: Fn(&[u8]) -> Record>(&mut self, call: &[u32], read: F) -> Result<(), Failure>
        requires { F.IsAlwaysCallable read }
    {
        let mut bytes = [0; BYTES];
        for (byte, word) in bytes.iter_mut().zip(call.iter().skip(1)) {
            *byte = (word % 256) as u8;
        }
        let n = call.len().saturating_sub(1).min(BYTES);
        let record = read(&bytes[..n]);
        let t = record.timer;
        let timer = [
            t.number, t.width, t.channels, t.bus, t.word, t.bit, t.irq, t.manual,
        ];
        self.tell(record.number, &timer.map(u64::from))
    }

    // A line is complete: its call is answered.
    fn call(&mut self, list: &mut Reader, command: Command) -> Result<(), Failure> {
        match command {
            Command::Pilot => {
                let (n, k) = short_two(list.words());
                self.pilot(n, k)
            }
            Command::Record => self.record(list.words()),
            Command::Unrecord => self.unrecord(
                list.words(),
                |bytes: &[u8]| settings::record_read(bytes),
            ),
            Command::Unrecord1 => self.unrecord(
                list.words(),
                |bytes: &[u8]| settings::record_read_kind_1(bytes),
            ),
            Command::Pin
            | Command::Drive
            | Command::ResetPins
            | Command::Write
            | Command::Reset
            | Command::Deliver => {
                let places = at_most(list.last_wide().unwrap_or(0), PLACES);
                list.set_last_wide(places as u64);
                self.run(list.words(), places)
            }
            _ => self.run(list.words(), 0),
        }
    }
}

impl<R: Print> Taker for Session<'_, R> {
    type Lines = Reader;

    fn feed(&mut self, list: &mut Reader, b: u8) -> Result<(), Stop> {
        if let Some(command) = list.feed(b)? {
            self.call(list, command)?;
        }
        Ok(())
    }

    // The line that the list ends in is perhaps an empty one.
    fn end(&mut self, list: &mut Reader) -> Result<(), Stop> {
        if let Some(command) = list.end()? {
            self.call(list, command)?;
        }
        Ok(())
    }
}

fn main(rt: HostRuntime) -> ExitCode {
    let mut words = [0; WORDS];
    let mut reals = [0.0; REALS];
    let mut board = LentBoard {
        words: &mut words,
        reals: &mut reals,
    };
    blank::clear(&mut board, 1.0, 1.0);
    let mut list = Reader::new();
    let mut session = Session {
        words: &mut words,
        reals: &mut reals,
        pins: &mut [0; PLACES],
        levels: &mut [0; PLACES],
        cycles: &mut [0; PLACES],
        sources: &mut [0; PLACES],
        output: Output::new(&rt),
    };
    let taken = session.take(&mut list, &mut rt.stdin());
    session.output.finish(
        taken,
        list.line(),
        "replay: a read failed: the list ends before its end\n",
        "replay: a write failed: answers are missing\n",
    )
}
