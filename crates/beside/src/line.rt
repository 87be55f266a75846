// The lines of a block of records: a number, and words of eight hexadecimal digits. What has no room is left out; the room is for 64
// lines of 1,024 bytes, and no line has more than 678 (64 words of a lent buffer and 10 of a state).
ghost use Rattle.std.specs.Prelude.{◌≤◌};

use super::words::Words;
use answer::Refusal;

const ROOM: usize = 65536;

#[derive(Drop)]
pub(crate) struct Lines {
    bytes: [u8; 65536],
    n: usize,
    ghost room: { n ≤ 65536 },
}

impl Lines {
    pub(crate) fn none() -> Lines {
        Lines {
            bytes: [0; 65536],
            n: 0,
        }
    }

    pub(crate) fn as_slice(&self) -> &[u8] {
        &self.bytes[..self.n]
    }

    fn put(&mut self, byte: u8) {
        if self.n < ROOM {
            self.bytes[self.n] = byte;
            self.n += 1;
        }
    }

    fn put_text(&mut self, text: &[u8]) {
        for byte in text {
            self.put(*byte);
        }
    }

    // Each behind a space.
    fn put_words(&mut self, words: &Words) {
        for word in words.as_slice() {
            self.put(b' ');
            self.put_text(&text::word(*word));
        }
    }

    // `0`, or `refused` and the number.
    fn put_result(&mut self, outcome: Result<(), Refusal>) {
        match outcome {
            Ok(()) => self.put(b'0'),
            Err(refusal) => {
                let mut line = [0u8; 12];
                let n = text::put_refused(refusal.number(), &mut line);
                self.put_text(line[..n].trim_ascii_end());
            }
        }
    }

    // A line: what a call says, and a state behind it where there is one to print.
    pub(crate) fn put_line(
        &mut self,
        outcome: Result<(), Refusal>,
        words: &Words,
        state: Option<Words>,
    ) {
        self.put_result(outcome);
        self.put_words(words);
        if let Some(state) = state {
            self.put_text(b" /");
            self.put_words(&state);
        }
        self.put(b'\n');
    }
}
