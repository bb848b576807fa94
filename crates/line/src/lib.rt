// A line of the call list, byte by byte, to an encoded call. The reader is lent, so lines may be of any length.
#![tactic(auto)]

ghost use Rattle.std.specs.Prelude.{◌≡◌, ◌+◌, ◌*◌, ◌/◌, ◌%◌, ◌<◌, ◌≤◌, ◌^◌, slice_set, min, IfOk, IfSome, OnSome, OnOk, OnErr};
ghost use Rattle.text.specs.Words.{number_of};
ghost use Rattle.line.specs.Call.{Begins, last_wide, with_last_wide};

use arrayvec::ArrayVec;
use text::{Command, Lines, Operand, Piece, Reading, Reason};

// The longest word of a call has 10 letters: one more tells a longer word.
const LETTERS: usize = 11;

// A set-up of 9 timers and 2,049 table entries is 2,122 words: more is refused as these are. The bytes of a record stand one in a word behind the call's
// number, and a record takes up to 2 + 65,535.
pub const ENCODED: usize = 65538;

// How many timers and how much of a table are kept.
const TIMERS: u32 = 9;

const TABLE: u32 = 2049;

// The place of a set-up's N among its numbers by the table, and how many numbers a timer has.
const TIMERS_PLACE: usize = 4;

const TIMER_NUMBERS: u64 = 7;

// Where a set-up's words have its LEN, its MASK, and where the numbers of 9 timers end.
const LENGTH_AT: usize = 8;

const MASK_AT: usize = 9;

const TIMERS_END: usize = 73;

// What is being read: before the first word, in it, between words, or in a number, in `manual`, in bytes.
#[derive(Clone, Copy)]
enum Phase {
    Start,
    First,
    Between,
    Number(Reading),
    Manual,
    Bytes(Hex),
}

// How far bytes have been read: none, half a one, whole ones, a dash, which is no byte, or something else.
#[derive(Clone, Copy)]
enum Hex {
    Nothing,
    Half(u64),
    Whole,
    Dash,
    Wrong,
}

// What the call's next number is: the one at a place of the table, or, of a set-up, one of its timers', its LEN, an INDEX, a SIGNAL, its MASK; or there is
// none.
#[derive(Clone, Copy)]
enum Next {
    Operand(usize),
    Timer { timers: u32, left: u64 },
    Length { timers: u32 },
    Index(Table),
    Signal { table: Table, index: u32 },
    Mask { timers: u32 },
    Nothing,
}

// A set-up's N, its LEN, and where its table starts among the call's words.
#[derive(Clone, Copy)]
struct Table {
    timers: u32,
    length: u32,
    start: usize,
    ghost behind: { (0 < start) × (start ≤ 65538) },
}

// The words of a line, to an encoded call.
#[derive(Drop)]
struct Parser {
    phase: Phase,
    word: ArrayVec<u8, LETTERS>,
    command: Command,
    next: Next,
    call: ArrayVec<u32, ENCODED>,
    // What stands in it begins with a call's number, from the first byte of the list on.
    ghost begins: { Begins command call.items },
}

// The low and the high word of a number of 64 bits.
fn low(x: u64) -> u32
    ensures { result ≡ x % 2 ^ 32 }
{
    (x % 4294967296) as u32
}

fn high(x: u64) -> u32
    ensures { result ≡ x / 2 ^ 32 }
{
    (x / 4294967296) as u32
}

// The number of 64 bits that they are. `encoding` joins them too: no plainer as one, since neither crate uses the other.
pub fn joined(low: u32, high: u32) -> u64
    ensures { result ≡ 2 ^ 32 * high + low }
{
    4294967296 * u64::from(high) + u64::from(low)
}

impl Parser {
    fn new() -> Parser {
        let mut call = ArrayVec::new();
        call.push(Command::Setup.number() as u32);
        Parser {
            phase: Phase::Start,
            word: ArrayVec::new(),
            command: Command::Setup,
            next: Next::Nothing,
            call,
        }
    }

    // A word more of the call: one that no call can have is passed over.
    fn put(&mut self, word: u32) {
        let _ = self.call.try_push(word);
    }

    // Another word in a place of the call behind its number.
    fn put_at(&mut self, place: usize, word: u32)
        requires { 0 < place }
        ensures { self.new.call.items ≡ slice_set self.old.call.items place word }
    {
        if let Some(old) = self.call.get_mut(place) {
            *old = word;
        }
    }

    // A letter of a word that is kept.
    fn keep(&mut self, b: u8) {
        let _ = self.word.try_push(b);
    }

    // What stands in the place of the next number, by the table.
    fn wanted(&self) -> Option<Operand> {
        match self.next {
            Next::Operand(k) => self.command.operand(k),
            _ => None,
        }
    }

    // The call has all the numbers that it can have: a set-up with its mask.
    fn is_full(&self) -> bool {
        match self.next {
            Next::Operand(k) => self.command.operand(k).is_none(),
            Next::Nothing => true,
            _ => false,
        }
    }

    // The call has all its numbers: behind a set-up's LEN and behind each pair.
    fn is_complete(&self) -> bool {
        match self.next {
            Next::Index(_) => true,
            _ => self.is_full(),
        }
    }

    // A digit of bytes, the high one first. Bytes that no record can have are passed over.
    fn hex(&mut self, hex: Hex, b: u8) -> Hex {
        let Some(digit) = text::digit(b) else {
            return match hex {
                Hex::Nothing if b == b'-' => Hex::Dash,
                _ => Hex::Wrong,
            };
        };
        match hex {
            Hex::Nothing | Hex::Whole => Hex::Half(digit),
            Hex::Half(high) => {
                self.put(low(16 * (high % 16) + digit % 16));
                Hex::Whole
            }
            Hex::Dash | Hex::Wrong => Hex::Wrong,
        }
    }

    // The first byte of a word behind the first one: of bytes, of `manual` where a set-up's pairs may end, or of a number.
    fn begin(&mut self, b: u8) -> Result<(), Reason> {
        if self.is_full() {
            return Err(Reason::SurplusNumber);
        }
        self.word.clear();
        self.phase = match (self.wanted(), self.next, b) {
            (Some(Operand::Bytes), _, _) => Phase::Bytes(self.hex(Hex::Nothing, b)),
            (_, Next::Index(_), b'm') => {
                self.keep(b);
                Phase::Manual
            }
            _ => Phase::Number(Reading::new().next(b)),
        };
        Ok(())
    }

    // A byte that belongs to a word. The phase is looked at once, for speed: most bytes are those of a word that runs.
    fn letter(&mut self, b: u8) -> Result<(), Reason> {
        match self.phase {
            Phase::Start => {
                self.word.clear();
                self.phase = Phase::First;
                self.keep(b);
            }
            Phase::Between => return self.begin(b),
            Phase::Number(reading) => self.phase = Phase::Number(reading.next(b)),
            Phase::Bytes(hex) => self.phase = Phase::Bytes(self.hex(hex, b)),
            Phase::First | Phase::Manual => self.keep(b),
        }
        Ok(())
    }

    // The first word ends.
    fn first_word(&mut self) -> Result<(), Reason> {
        let command = text::call_of(self.word.as_slice()).ok_or(Reason::UnknownWord)?;
        self.phase = Phase::Between;
        self.command = command;
        self.next = Next::Operand(0);
        self.call.clear();
        self.call.push(command.number() as u32);
        Ok(())
    }

    // A set-up's N: nine timers are kept. Behind it LEN and MASK have their places.
    fn timer_count(&mut self, timers: u32) {
        self.put(timers.min(TIMERS));
        self.put(0);
        self.put(0);
        self.next = match timers {
            0 => Next::Length { timers },
            _ => Next::Timer {
                timers,
                left: TIMER_NUMBERS * timers as u64,
            },
        };
    }

    // A number of a timer.
    fn timer_number(&mut self, timers: u32, left: u64, v: u32) {
        if self.call.len() < TIMERS_END {
            self.put(v);
        }
        self.next = if left <= 1 {
            Next::Length { timers }
        } else {
            Next::Timer {
                timers,
                left: left - 1,
            }
        };
    }

    // A set-up's LEN. The table before its pairs: all 0.
    fn table_length(&mut self, timers: u32, length: u32) {
        let kept = length.min(TABLE);
        self.put_at(LENGTH_AT, kept);
        let start = self.call.len();
        for _ in 0..kept {
            self.put(0);
        }
        self.next = Next::Index(Table {
            timers,
            length,
            start,
        });
    }

    // A set-up's SIGNAL, if its entry is kept.
    fn table_signal(&mut self, table: Table, index: u32, v: u32) {
        if index < TABLE {
            self.put_at(table.start + index as usize, v);
        }
        self.next = Next::Index(table);
    }

    // A set-up's MASK: a bit for each timer.
    fn manual_mask(&mut self, timers: u32, v: u32) -> Result<(), Reason> {
        if timers < 32 && v >> timers != 0 {
            return Err(Reason::TooLarge);
        }
        self.put_at(MASK_AT, v);
        self.next = Next::Nothing;
        Ok(())
    }

    // A number of the table, at place k.
    fn operand(&mut self, k: usize, v: u64) -> Result<(), Reason> {
        match self.command.operand(k) {
            Some(Operand::Wide) => {
                self.put(low(v));
                self.put(high(v));
            }
            Some(Operand::Kind) if 3 < v => return Err(Reason::TooLarge),
            _ => {
                let v = text::short(v)?;
                if self.command == Command::Setup && k == TIMERS_PLACE {
                    self.timer_count(v);
                    return Ok(());
                }
                self.put(v);
            }
        }
        self.next = Next::Operand(k.saturating_add(1));
        Ok(())
    }

    // A number in its place.
    fn number(&mut self, v: u64) -> Result<(), Reason> {
        if let Next::Operand(k) = self.next {
            return self.operand(k, v);
        }
        let v = text::short(v)?;
        match self.next {
            Next::Timer { timers, left } => self.timer_number(timers, left, v),
            Next::Length { timers } => self.table_length(timers, v),
            Next::Index(table) if v < table.length => self.next = Next::Signal { table, index: v },
            Next::Index(_) => return Err(Reason::TooLarge),
            Next::Signal { table, index } => self.table_signal(table, index, v),
            Next::Mask { timers } => return self.manual_mask(timers, v),
            Next::Operand(_) | Next::Nothing => {}
        }
        Ok(())
    }

    // The word behind the pairs ends: its mask is next.
    fn manual_end(&mut self) -> Result<(), Reason> {
        match self.next {
            Next::Index(table) if text::same(self.word.as_slice(), b"manual") => {
                self.next = Next::Mask {
                    timers: table.timers,
                };
                Ok(())
            }
            _ => Err(Reason::NotANumber),
        }
    }

    // Bytes end: whole ones, or a dash.
    fn hex_end(&mut self, hex: Hex) -> Result<(), Reason> {
        self.next = match self.next {
            Next::Operand(k) => Next::Operand(k.saturating_add(1)),
            next => next,
        };
        match hex {
            Hex::Whole | Hex::Dash => Ok(()),
            _ => Err(Reason::NotANumber),
        }
    }

    // A word ends, if one runs.
    fn word_end(&mut self) -> Result<(), Reason> {
        let phase = self.phase;
        match phase {
            Phase::Start | Phase::Between => return Ok(()),
            Phase::First => return self.first_word(),
            _ => self.phase = Phase::Between,
        }
        match phase {
            Phase::Number(reading) => self.number(reading.told()?),
            Phase::Bytes(hex) => self.hex_end(hex),
            _ => self.manual_end(),
        }
    }

    // The line ends: the call that it is, if it is one.
    fn line_end(&mut self) -> Result<Option<Command>, Reason>
        ensures { IfOk result (λ told. IfSome told (λ command. Begins command self.new.call.items)) }
    {
        // An empty line is told first, for speed: else it takes twice as long.
        if matches!(self.phase, Phase::Start) {
            return Ok(None);
        }
        self.word_end()?;
        self.phase = Phase::Start;
        if self.is_complete() {
            Ok(Some(self.command))
        } else {
            Err(Reason::MissingNumber)
        }
    }
}

// A call list, byte by byte: its lines, and the words of the one that is read.
#[derive(Drop)]
pub struct Reader {
    lines: Lines,
    parser: Parser,
}

impl Reader {
    // Before the first byte.
    pub fn new() -> Reader
        ensures { result.lines.line ≡ 1 }
    {
        Reader {
            lines: Lines::new(),
            parser: Parser::new(),
        }
    }

    // The number of the line.
    pub fn line(&self) -> u64
        ensures { result ≡ self.now.lines.line }
    {
        self.lines.line()
    }

    // The call's words, as far as they are read.
    pub fn words(&self) -> &[u32]
        ensures { result.now ≡ self.now.parser.call.items }
    {
        self.parser.call.as_slice()
    }

    // The number of 64 bits that the call's last two words are.
    pub fn last_wide(&self) -> Option<u64>
        ensures { result ≡ last_wide self.now.parser.call.items }
    {
        match self.words() {
            [_, .., low, high] => Some(joined(*low, *high)),
            _ => None,
        }
    }

    // Puts another number in its place.
    pub fn set_last_wide(&mut self, x: u64)
        ensures words { self.new.parser.call.items ≡ with_last_wide x self.old.parser.call.items }
        ensures line { self.new.lines.line ≡ self.old.lines.line }
    {
        let length = self.parser.call.len();
        if 3 <= length {
            self.parser.put_at(length - 2, low(x));
            self.parser.put_at(length - 1, high(x));
        }
    }

    // The line ends, or the input: the call that the line is, if it is one.
    pub fn end(&mut self) -> Result<Option<Command>, Reason>
        ensures whole { IfOk result (λ told. IfSome told (λ command. Begins command self.new.parser.call.items)) }
        ensures counted { OnOk result (self.new.lines.line ≡ min (self.old.lines.line + 1) 18446744073709551615) }
        ensures err { OnErr result (self.new.lines.line ≡ self.old.lines.line) }
    {
        let told = self.parser.line_end()?;
        self.lines.end();
        Ok(told)
    }

    // The next byte of the list: the call that it ends, if it ends one.
    #[tactic(auto, unfolding(text::specs::Lines::piece_of))]
    pub fn feed(&mut self, b: u8) -> Result<Option<Command>, Reason>
        ensures whole { IfOk result (λ told. IfSome told (λ command. Begins command self.new.parser.call.items)) }
        ensures at_end { IfOk result (λ told. OnSome told (b ≡ 10)) }
        ensures err { OnErr result (self.new.lines.line ≡ self.old.lines.line) }
    {
        // The steps of `shifts`: no plainer as one with them, since here a line's end is a call's, and the promises are told of it.
        match self.lines.unmoved(b) {
            Some(Piece::Letter) => {
                self.parser.letter(b)?;
                return Ok(None);
            }
            Some(_) => return Ok(None),
            None => {}
        }
        if self.lines.is_returned(b) {
            self.parser.letter(b'\r')?;
        }
        match self.lines.next(b) {
            Piece::LineEnd => return self.end(),
            Piece::WordEnd => self.parser.word_end()?,
            Piece::Letter => self.parser.letter(b)?,
            Piece::Nothing => {}
        }
        Ok(None)
    }
}
