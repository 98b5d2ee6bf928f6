// Runs NIST's published vectors of SHAKE256 (the .rsp files of data/) and writes of each file how many hold and how many
// do not. A case that cannot be read counts as one that does not hold.
#![tactic(auto)]

ghost use Rattle.std.specs.Prelude.{◌<◌, IfSome};

use shake256::shake256;
use std::io::Read;
use std::rt::Files;
use std::{fs, io};

// What a line has past this is not read.
const LONGEST_LINE: usize = 65_536;

// What a file has past so many reads is not read: a proved loop has to end, and nothing says that a file does.
const MOST_READS: usize = 1_000_000;

// The longest output of a case.
const LONGEST_OUTPUT: usize = 256;

// The longest output that the bounds of the Monte Carlo test may allow.
const LONGEST_BOUND: usize = 4_096;

// The room for a message, and for the digest of the Monte Carlo test.
const ROOM: usize = 65_536;

// A test whose file is read line by line.
trait Test {
    // A line without its line feed; room stays the same from line to line. One that ends a case answers whether the case held.
    fn line(&mut self, line: &[u8], room: &mut [u8; ROOM]) -> Option<bool>;
}

// A file of messages, which lie in the room, and outputs: [Outputlen = ..], Len, Msg, Output; or [Input Length = ..], Outputlen, Msg, Output. With
// Len = 0 the file writes Msg = 00. Lengths in bytes; one that is too large to be read counts as 0.
#[derive(Drop)]
struct Cases {
    // the length of the message that the file states, and of the one that stands there
    stated: usize,
    given: usize,
    output: usize,
}

impl Cases {
    fn new() -> Self {
        Cases {
            stated: 0,
            given: 0,
            output: 0,
        }
    }

    // Whether SHAKE256 of the message gives the bytes that digits stand for.
    fn holds(&self, digits: &[u8], message: &[u8; ROOM]) -> bool {
        let given = if 0 < self.stated { self.given } else { 0 };
        if given != self.stated || ROOM < given || LONGEST_OUTPUT < self.output {
            return false;
        }
        let mut output = [0; LONGEST_OUTPUT];
        let output = &mut output[..self.output];
        shake256(&message[..given], output);
        stands_for(digits, output)
    }
}

impl Test for Cases {
    fn line(&mut self, line: &[u8], room: &mut [u8; ROOM]) -> Option<bool> {
        if let Some(text) = line.strip_prefix(b"Len = ") {
            self.stated = bytes(text).unwrap_or(0);
        } else if let Some(text) = line.strip_prefix(b"[Input Length = ") {
            self.stated = bytes(text).unwrap_or(0);
        } else if let Some(text) = line.strip_prefix(b"Outputlen = ") {
            self.output = bytes(text).unwrap_or(0);
        } else if let Some(text) = line.strip_prefix(b"[Outputlen = ") {
            self.output = bytes(text).unwrap_or(0);
        } else if let Some(digits) = line.strip_prefix(b"Msg = ") {
            self.given = decode(digits, room);
        } else if let Some(digits) = line.strip_prefix(b"Output = ") {
            return Some(self.holds(digits, room));
        }
        None
    }
}

// The Monte Carlo file (SHA3VS, 6.3.3): the bounds of the output's length, Msg (the seed), and Outputlen and Output after
// each 1,000 turns. The digest lies in the room, which is zero past the end of the last output.
#[derive(Drop)]
struct MonteCarlo {
    least: usize,
    most: usize,
    // the length of the last output, of the next one, and of the one that the file states
    last: usize,
    next: usize,
    output: usize,
}

impl MonteCarlo {
    fn new() -> Self {
        MonteCarlo {
            least: 0,
            most: 0,
            last: 0,
            next: 0,
            output: 0,
        }
    }

    // One turn: the digest becomes SHAKE256 of its leftmost 128 bits, and its rightmost 16 bits set the length of the next one.
    fn turn(&mut self, digest: &mut [u8; ROOM]) {
        let n = self.next;
        self.last = n;
        if n < 2 || ROOM < n || self.most < self.least {
            return;
        }
        let mut seed = [0; 16];
        for (s, b) in seed.iter_mut().zip(digest.iter()) {
            *s = *b;
        }
        digest.fill(0);
        let output = &mut digest[..n];
        shake256(&seed, output);
        let bits = u16::from_be_bytes([output[n - 2], output[n - 1]]);
        self.next = next_length(usize::from(bits), self.least, self.most).unwrap_or(0);
    }

    // Whether the last output has the length stated and the bytes that digits stand for.
    fn holds(&self, digits: &[u8], digest: &[u8; ROOM]) -> bool {
        if self.last != self.output || ROOM < self.last {
            return false;
        }
        stands_for(digits, &digest[..self.last])
    }
}

impl Test for MonteCarlo {
    fn line(&mut self, line: &[u8], room: &mut [u8; ROOM]) -> Option<bool> {
        if let Some(text) = line.strip_prefix(b"[Minimum Output Length (bits) = ") {
            self.least = bytes(text).unwrap_or(0);
        } else if let Some(text) = line.strip_prefix(b"[Maximum Output Length (bits) = ") {
            self.most = bytes(text).unwrap_or(0);
            self.next = self.most;
        } else if let Some(digits) = line.strip_prefix(b"Msg = ") {
            decode(digits, room);
        } else if let Some(text) = line.strip_prefix(b"Outputlen = ") {
            self.output = bytes(text).unwrap_or(0);
        } else if let Some(digits) = line.strip_prefix(b"Output = ") {
            for _ in 0..1000 {
                self.turn(room);
            }
            return Some(self.holds(digits, room));
        }
        None
    }
}

// How many bytes the number of bits makes that stands at the front of a text, if it is not too large.
fn bytes(text: &[u8]) -> Option<usize> {
    let mut bits = 0;
    for b in text {
        if !b.is_ascii_digit() {
            break;
        }
        if 100_000_000 < bits {
            return None;
        }
        bits = bits * 10 + usize::from(*b - b'0');
    }
    Some(bits / 8)
}

// least + (bits mod (most - least + 1)), if the bounds allow any length.
fn next_length(bits: usize, least: usize, most: usize) -> Option<usize> {
    if most < least || LONGEST_BOUND < most {
        return None;
    }
    Some(least + bits % (most - least + 1))
}

// The value of a lower-case hex digit.
fn nibble(b: u8) -> Option<u8>
    ensures { IfSome result (λ n. n < 16) }
{
    match b {
        b'0'..=b'9' => Some(b - b'0'),
        b'a'..=b'f' => Some(b - b'a' + 10),
        _ => None,
    }
}

// The byte that two hex digits make.
fn byte(digits: &[u8]) -> Option<u8> {
    let [high, low] = digits else {
        return None;
    };
    Some(nibble(*high)? * 16 + nibble(*low)?)
}

// The bytes that the hex digits at the front of a text make go to the front of out, as far as it has room; answers how many.
fn decode(digits: &[u8], out: &mut [u8]) -> usize {
    let mut n: usize = 0;
    for (place, b) in out.iter_mut().zip(digits.chunks(2).map_while(byte)) {
        *place = b;
        n = n.wrapping_add(1);
    }
    n
}

// Whether these bytes, and no more, are what the hex digits at the front of a text make.
fn stands_for(digits: &[u8], bytes: &[u8]) -> bool {
    digits.chunks(2).map_while(byte).eq(bytes.iter().copied())
}

// Reads a file piece by piece, and writes how many of its cases held. A file that cannot be opened is named on standard error.
fn run<T: Test + Drop>(
    rt: &(impl Files + Print + Eprint),
    name: &str,
    mut test: T,
    line: &mut [u8; LONGEST_LINE],
    room: &mut [u8; ROOM],
) -> io::Result<()> {
    let mut file = match fs::open(rt, name) {
        Ok(opened) => opened,
        Err(e) => return eprintln!(rt; "{name}: {e}"),
    };
    room.fill(0);
    let mut length: usize = 0;
    let mut passed: u64 = 0;
    let mut failed: u64 = 0;
    for _ in 0..MOST_READS {
        let mut piece = [0; 4096];
        let n = file.read(&mut piece)?;
        if n == 0 {
            break;
        }
        for b in &piece[..n] {
            if *b != b'\n' {
                if length < LONGEST_LINE {
                    line[length] = *b;
                    length += 1;
                }
                continue;
            }
            let held = test.line(&line[..length.min(LONGEST_LINE)], room);
            length = 0;
            match held {
                Some(true) => passed = passed.wrapping_add(1),
                Some(false) => failed = failed.wrapping_add(1),
                None => {}
            }
        }
    }
    println!(rt; "{name}: {passed} passed, {failed} failed")
}

// Line and room are made once: they are what the program needs of the stack.
fn main(rt: HostRuntime) -> io::Result<()> {
    let mut line = [0; LONGEST_LINE];
    let mut room = [0; ROOM];
    run(
        &rt,
        "SHAKE256ShortMsg.rsp",
        Cases::new(),
        &mut line,
        &mut room,
    )?;
    run(
        &rt,
        "SHAKE256LongMsg.rsp",
        Cases::new(),
        &mut line,
        &mut room,
    )?;
    run(
        &rt,
        "SHAKE256VariableOut.rsp",
        Cases::new(),
        &mut line,
        &mut room,
    )?;
    run(
        &rt,
        "SHAKE256Monte.rsp",
        MonteCarlo::new(),
        &mut line,
        &mut room,
    )
}
