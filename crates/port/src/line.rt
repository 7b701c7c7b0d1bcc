// A line on standard error, made in a buffer of its own, so that it can be said where no memory is left, and in one write.
use std::fmt;

// The bytes of the longest line; what is longer is cut.
pub const LONGEST: usize = 512;

// The line as far as it is made: the first `len` of the bytes.
#[derive(Drop)]
pub struct Line {
    pub bytes: [u8; LONGEST],
    pub len: usize,
}

impl Line {
    // Puts these bytes behind the line, as far as they fit. A place is left for its end.
    pub fn put(&mut self, text: &[u8]) {
        let at = self.len.min(LONGEST - 1);
        let fits = text.len().min(LONGEST - 1 - at);
        self.bytes[at..at + fits].copy_from_slice(&text[..fits]);
        self.len = at + fits;
    }

    // Takes away the number that std puts behind an error's text in brackets.
    pub fn cut_number(&mut self) {
        if let Some(bracket) = self.shown().iter().rposition(|byte| *byte == b'(') {
            self.len = bracket.saturating_sub(1);
        }
    }

    // Ends the line.
    pub fn end(&mut self) {
        let at = self.len.min(LONGEST - 1);
        self.bytes[at] = b'\n';
        self.len = at + 1;
    }

    // The line.
    pub fn shown(&self) -> &[u8] {
        &self.bytes[..self.len.min(LONGEST)]
    }
}

impl fmt::Write for Line {
    fn write_str(&mut self, s: &str) -> fmt::Result {
        self.put(s.as_bytes());
        Ok(())
    }
}
