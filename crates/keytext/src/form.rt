// What the lines of a key ask for at each place (document 01, Key listing).
ghost use Rattle.std.specs.Prelude.{◌≡◌, eqb, length};
ghost use Rattle.text.specs.Scanner.Word.{word_step, word_accepts};
ghost use Rattle.keytext.specs.Form.{word_of, last_field, key_form};

use text::word::WordScan;

// The word of a line.
fn word_of(line: usize) -> &'static [u8]
    ensures { result.now ≡ word_of line }
{
    match line {
        0 => b"set",
        1 => b"matrix",
        2 => b"syndrome",
        _ => b"key",
    }
}

// The field compared with the word of its line, one byte more.
pub fn push_word(w: WordScan, line: usize, b: u8) -> WordScan
    ensures { result ≡ word_step (word_of line) w b }
{
    w.push(b, word_of(line))
}

// Is the field the word of its line?
pub fn accepts_word(w: WordScan, line: usize) -> bool
    ensures { result ≡ word_accepts (word_of line) w }
{
    w.accepts(word_of(line))
}

// The place of a line's last field.
pub fn last_field(line: usize) -> usize
    ensures { result ≡ last_field line }
{
    if line == 0 { 5 } else { 1 }
}

// Have all the lines ended, where `line` of them have?
pub fn all_lines(line: usize) -> bool
    ensures { result ≡ eqb line (length key_form) }
{
    line == 4
}
