// The four lines of a key (document 01, Key listing), read in pieces of any length. The scanner is a state by value; the bytes of the matrix, y and
// x_A go into lent slices as they come.
#![tactic(auto)]

pub mod form;
pub mod listing;

ghost use Rattle.std.specs.Prelude.{◌≡◌};
ghost use Rattle.text.specs.Fold.{fold};
ghost use Rattle.text.specs.Scanner.Word.{word_step, word_accepts};
ghost use Rattle.text.specs.Scanner.Decimal.{decimal_step};
ghost use Rattle.keytext.specs.Form.{word_of};
ghost use Rattle.keytext.specs.Scan.{start, broken, with_word, with_number, hexed, hex_byte, held, byte_step, accepted};
ghost use Rattle.keytext.specs.Scan.{saved_numbers, saved_lengths, closed, field_end, line_end, step, complete};

use crate::form::{accepts_word, all_lines, last_field, push_word};
use text::decimal::DecimalScan;
use text::hex::HexScan;
use text::word::WordScan;

// A key's text as its bytes come. `sound` while it can still be the four lines; the other fields keep their meaning where it is not. `line` lines
// have ended, and `field` fields of the next one; the field begun is read by the scanner of its kind. `numbers` are the set line's, and `lengths`
// the bytes of the matrix, y and x_A, as far as they are read.
#[derive(Clone, Copy)]
pub struct KeyScan {
    pub sound: bool,
    pub line: usize,
    pub field: usize,
    pub word: WordScan,
    pub number: DecimalScan,
    pub hex: HexScan,
    pub numbers: [usize; 5],
    pub lengths: [usize; 3],
}

impl KeyScan {
    // Before the first byte.
    pub fn new() -> Self
        ensures { result ≡ start }
    {
        KeyScan {
            sound: true,
            line: 0,
            field: 0,
            word: WordScan::new(),
            number: DecimalScan::new(),
            hex: HexScan::new(),
            numbers: [0; 5],
            lengths: [0; 3],
        }
    }

    // The text is not the four lines.
    fn broken(self) -> Self
        ensures { result ≡ broken self }
    {
        KeyScan {
            sound: false,
            ..self
        }
    }

    // One byte more of a word.
    fn word_byte(self, b: u8) -> Self
        ensures { result ≡ with_word self (word_step (word_of self.line) self.word b) }
    {
        KeyScan {
            word: push_word(self.word, self.line, b),
            ..self
        }
    }

    // One byte more of a number.
    fn number_byte(self, b: u8) -> Self
        ensures { result ≡ with_number self (decimal_step 3 self.number b) }
    {
        KeyScan {
            number: self.number.push(b, 3),
            ..self
        }
    }

    // One byte more of a hex field.
    fn hex_byte(self, b: u8, out: &mut [u8]) -> Self
        ensures { hexed result out.new ≡ hex_byte self out.old b }
    {
        KeyScan {
            hex: self.hex.push(b, out),
            ..self
        }
    }

    // One byte more of a field.
    fn byte(self, b: u8, matrix: &mut [u8], y: &mut [u8], x_a: &mut [u8]) -> Self
        ensures { held result matrix.new y.new x_a.new
            ≡ byte_step (held self matrix.old y.old x_a.old) b }
    {
        match self.line {
            0..=3 if self.field == 0 => self.word_byte(b),
            0 => self.number_byte(b),
            1 => self.hex_byte(b, matrix),
            2 => self.hex_byte(b, y),
            3 => self.hex_byte(b, x_a),
            _ => self.broken(),
        }
    }

    // Is the field, ended here, what its place asks for?
    fn accepts(self) -> bool
        ensures { result ≡ accepted self }
    {
        match (self.field, self.line) {
            (0, line) => accepts_word(self.word, line),
            (_, 0) => self.number.accepts(),
            _ => self.hex.accepts(),
        }
    }

    // The numbers, with that of the field ended here.
    fn numbers_kept(self) -> [usize; 5]
        ensures { result ≡ saved_numbers self }
    {
        let mut numbers = self.numbers;
        if let (0, 1..=5) = (self.line, self.field) {
            numbers[self.field - 1] = self.number.value;
        }
        numbers
    }

    // The lengths, with that of the field ended here.
    fn lengths_kept(self) -> [usize; 3]
        ensures { result ≡ saved_lengths self }
    {
        let mut lengths = self.lengths;
        if let (1.., 1..=3) = (self.field, self.line) {
            lengths[self.line - 1] = self.hex.count;
        }
        lengths
    }

    // The field ends, and another begins at the given place.
    fn closed(self, line: usize, field: usize) -> Self
        ensures { result ≡ closed self line field }
    {
        KeyScan {
            sound: self.sound && self.accepts(),
            line,
            field,
            word: WordScan::new(),
            number: DecimalScan::new(),
            hex: HexScan::new(),
            numbers: self.numbers_kept(),
            lengths: self.lengths_kept(),
        }
    }

    // A tab: the line has another field.
    fn field_end(self) -> Self
        ensures { result ≡ field_end self }
    {
        if self.line > 3 || self.field >= last_field(self.line) {
            return self.broken();
        }
        self.closed(self.line, self.field + 1)
    }

    // A line feed: the line's last field ends.
    fn line_end(self) -> Self
        ensures { result ≡ line_end self }
    {
        if self.line > 3 || self.field != last_field(self.line) {
            return self.broken();
        }
        self.closed(self.line + 1, 0)
    }

    // After one byte more.
    fn step(self, b: u8, matrix: &mut [u8], y: &mut [u8], x_a: &mut [u8]) -> Self
        ensures { held result matrix.new y.new x_a.new
            ≡ step (held self matrix.old y.old x_a.old) b }
    {
        match b {
            b'\n' => self.line_end(),
            b'\t' => self.field_end(),
            _ => self.byte(b, matrix, y, x_a),
        }
    }

    // After one piece more of the text. What a slice has no room for is counted and not stored.
    pub fn feed(self, piece: &[u8], matrix: &mut [u8], y: &mut [u8], x_a: &mut [u8]) -> Self
        ensures { held result matrix.new y.new x_a.new
            ≡ fold step (held self matrix.old y.old x_a.old) piece.now }
    {
        let mut scan = self;
        for b in piece {
            scan = scan.step(*b, matrix, y, x_a);
        }
        scan
    }

    // Is the text, ended here, the four lines of a key?
    pub fn complete(self) -> bool
        ensures { result ≡ complete self }
    {
        all_lines(self.line) && self.sound
    }
}
