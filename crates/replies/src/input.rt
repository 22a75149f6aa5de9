// Standard input, line by line. There is no heap, so no lines of std's, which are Strings: a line is cut from a buffer of fixed size, byte by byte.
ghost use Rattle.std.specs.Prelude.{◌≤◌};

use std::io;
use std::io::{Read, Stdin};

#[derive(Drop)]
pub struct Input {
    stdin: Stdin,
    // what was read, of which from at to before end nothing is used yet
    bytes: [u8; 65536],
    at: usize,
    end: usize,
    ended: bool,
    // the line's first bytes, and how many it has
    text: [u8; 400],
    length: usize,
    ghost within: { end ≤ 65536 },
}

impl Input {
    pub fn new(stdin: Stdin) -> Input {
        Input {
            stdin,
            bytes: [0; 65536],
            at: 0,
            end: 0,
            ended: false,
            text: [0; 400],
            length: 0,
        }
    }

    // The next byte, from a read where all are used.
    fn byte(&mut self) -> io::Result<Option<u8>> {
        if self.at >= self.end && !self.ended {
            let end = self.stdin.read(&mut self.bytes)?;
            self.at = 0;
            self.end = end;
            self.ended = end == 0;
        }
        if self.at >= self.end {
            return Ok(None);
        }
        let b = self.bytes[self.at];
        self.at += 1;
        Ok(Some(b))
    }

    // One more byte of the line, kept while there is room.
    fn keep(&mut self, b: u8) {
        if let Some(place) = self.text.get_mut(self.length) {
            *place = b;
        }
        self.length = self.length.saturating_add(1);
    }

    // Reads a line, and answers whether there is one. At the end of the input what is kept is a line too.
    pub fn next(&mut self) -> io::Result<bool> {
        self.length = 0;
        // a proved loop has to end: this many bytes no line has
        for _ in 0..u64::MAX {
            match self.byte()? {
                Some(b'\n') => return Ok(true),
                Some(b) => self.keep(b),
                None => return Ok(self.length > 0),
            }
        }
        Ok(false)
    }

    // The line that was read; none of it where it is too long, for which there is no call either.
    pub fn line(&self) -> &[u8] {
        self.text.get(..self.length).unwrap_or(&[])
    }
}
