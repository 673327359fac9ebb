//! The lines of a hint.
ghost use Rattle.std.specs.Prelude.{◌≡◌, ◌≤◌, ◌<◌, length as len, true};
ghost use Rattle.std.specs.List.{list_all};
ghost use Rattle.fz_hints.specs.Hint.{is_shown};

use arrayvec::ArrayVec;
use itoa::Buffer;

/// The most bytes of a hint.
const MOST: usize = 4096;

/// The bytes of a hint that may be text: after them there is room for the ends of lines.
const TEXT: usize = 4000;

/// The most bytes of one piece of a line, such as the name of a file. What is longer is cut off.
const PIECE: usize = 1000;

/// Lines that grow. They have no control characters but the ends of lines, and at most 4,096 bytes: what has no room is left out.
#[derive(Drop)]
pub(crate) struct Lines {
    bytes: ArrayVec<u8, MOST>,
    ghost shown: { list_all is_shown bytes.items ≡ true },
}

impl Lines {
    /// No lines.
    pub(crate) fn new() -> Lines {
        Lines {
            bytes: ArrayVec::new(),
        }
    }

    /// The bytes of the lines.
    pub(crate) fn bytes(&self) -> &[u8]
        ensures shown { list_all is_shown result.now ≡ true }
        ensures short { len result.now ≤ 4096 }
    {
        self.bytes.as_slice()
    }

    /// A line of these pieces, one after another, after the name of the program.
    pub(crate) fn line(&mut self, pieces: &[&str]) {
        self.begin();
        self.add(pieces);
        self.end();
    }

    /// The name of the program, with which each line begins.
    pub(crate) fn begin(&mut self) {
        self.text("fz: ");
    }

    /// These pieces, one after another.
    pub(crate) fn add(&mut self, pieces: &[&str]) {
        for piece in pieces {
            self.text(piece);
        }
    }

    /// The end of a line.
    pub(crate) fn end(&mut self) {
        self.put(b'\n', MOST);
    }

    /// Text, of which control characters and marks that turn the direction of text are shown as `\x1b`.
    fn text(&mut self, text: &str) {
        let bytes = text.as_bytes();
        let mut hidden = 0;
        for at in 0..bytes.len() {
            if at >= PIECE && begins_character(bytes[at]) {
                self.page("..");
                break;
            }
            hidden = hidden_bytes(&bytes[at..]).max(hidden);
            if hidden == 0 {
                self.put(bytes[at], TEXT);
            } else {
                self.escape(bytes[at]);
                hidden -= 1;
            }
        }
    }

    /// Bytes that need not be text: those that are no printable ASCII are shown as `\x1b`.
    pub(crate) fn ascii(&mut self, bytes: &[u8]) {
        for byte in bytes {
            if matches!(*byte, b' '..=b'~') {
                self.put(*byte, TEXT);
            } else {
                self.escape(*byte);
            }
        }
    }

    /// Several lines of the program's own.
    pub(crate) fn page(&mut self, text: &str) {
        for byte in text.as_bytes() {
            self.put(*byte, TEXT);
        }
    }

    /// A number in decimal, as it is written in a command.
    pub(crate) fn digits(&mut self, number: u64) {
        self.text(Buffer::new().format(number));
    }

    /// A number in decimal, with a comma before each three digits.
    pub(crate) fn number(&mut self, number: u64) {
        let mut buffer = Buffer::new();
        let digits = buffer.format(number).as_bytes();
        for at in 0..digits.len() {
            if at > 0 && (digits.len() - at) % 3 == 0 {
                self.put(b',', TEXT);
            }
            self.put(digits[at], TEXT);
        }
    }

    // A byte as `\x` and two digits.
    fn escape(&mut self, byte: u8) {
        self.put(b'\\', TEXT);
        self.put(b'x', TEXT);
        self.put(digit(byte / 16), TEXT);
        self.put(digit(byte % 16), TEXT);
    }

    // A byte that is shown, if there are fewer than so many.
    fn put(&mut self, byte: u8, room: usize)
        requires { room ≤ 4096 }
    {
        if is_shown(byte) && self.bytes.len() < room {
            self.bytes.push(byte);
        }
    }
}

fn is_shown(byte: u8) -> bool
    ensures { result ≡ is_shown byte }
{
    byte == b'\n' || (byte >= 32 && byte != 127)
}

// Whether a byte of text is the first of its character.
fn begins_character(byte: u8) -> bool {
    !matches!(byte, 0x80..=0xbf)
}

// A hexadecimal digit.
fn digit(value: u8) -> u8
    requires { value < 16 }
{
    if value < 10 {
        b'0' + value
    } else {
        b'a' + (value - 10)
    }
}

// How many bytes at the front of a text are not to be shown as they are: those of a control character, of a separator of lines or of a
// mark that turns the direction of text.
fn hidden_bytes(text: &[u8]) -> usize
    ensures { result ≤ 3 }
{
    match text {
        [0..=31 | 127, ..] => 1,
        [0xc2, 0x80..=0x9f, ..] => 2,
        [0xe2, 0x80, 0x8e | 0x8f | 0xa8..=0xae, ..] | [0xe2, 0x81, 0xa6..=0xa9, ..] => 3,
        _ => 0,
    }
}
