// Lines out of a stream of bytes that comes in chunks, each answered when its newline comes.
use std::io;
use text_write::Text;

// A line has 65,536 bytes at most, its newline counted.
const LINE: usize = 65535;

// An answer that is a list has at most so many fractions.
const LIST: usize = 16384;

// Answers that wait are written when a chunk is done, or when the next answer might lack room.
const ROOM: usize = 262144;

// The line that comes in, and the answers that wait to be written: arrays for the longest line and list,
// since a Vec may run out of memory. A struct cannot lend from its own array, so `out` and `at` stand here
// and each answer makes its `Text` of them.
#[derive(Drop)]
pub(crate) struct Lines {
    // the bytes of the current line, and how many have come: None if more than a line may have
    line: [u8; LINE],
    len: Option<usize>,
    // the fractions of an answer that is a list
    list: [f64; LIST],
    // the answers that wait, and how many bytes they have
    out: [u8; 2 * ROOM],
    at: usize,
}

impl Lines {
    pub(crate) fn new() -> Lines {
        Lines {
            line: [0; LINE],
            len: Some(0),
            list: [0.0; LIST],
            out: [0; 2 * ROOM],
            at: 0,
        }
    }

    pub(crate) fn take_in(&mut self, rt: &impl Print, chunk: &[u8]) -> io::Result<()> {
        for piece in chunk.split_inclusive(|b| *b == b'\n') {
            if let Some(end) = piece.strip_suffix(b"\n") {
                self.len = self.extend(end);
                self.answer(rt)?;
            } else {
                self.len = self.extend(piece);
            }
        }
        self.flush(rt)
    }

    // A last line with no newline is no request.
    pub(crate) fn end(&mut self, rt: &impl Print) -> io::Result<()> {
        if self.len != Some(0) {
            let mut text = Text::from(&mut self.out, self.at);
            printing::put_bad(&mut text);
            self.at = text.end();
        }
        self.flush(rt)
    }

    // Takes more bytes into the line, and answers how many it has then: None where they are too many.
    fn extend(&mut self, more: &[u8]) -> Option<usize> {
        let len = self.len?;
        let end = len.checked_add(more.len())?;
        self.line.get_mut(len..end)?.copy_from_slice(more);
        Some(end)
    }

    // The line is whole.
    fn answer(&mut self, rt: &impl Print) -> io::Result<()> {
        if self.at > ROOM {
            self.flush(rt)?;
        }
        self.put_answer();
        self.len = Some(0);
        Ok(())
    }

    // Puts the answer to the line.
    fn put_answer(&mut self) {
        let mut text = Text::from(&mut self.out, self.at);
        if let Some(line) = self.len.and_then(|n| self.line.get(..n)) {
            let r = requests::answer(line, &mut self.list);
            printing::put(&mut text, r, line, &self.list);
        } else {
            printing::put_bad(&mut text);
        }
        self.at = text.end();
    }

    // Writes the answers that wait.
    fn flush(&mut self, rt: &impl Print) -> io::Result<()> {
        if let Some(waiting) = self.out.get(..self.at) {
            rt.write_all(waiting)?;
        }
        self.at = 0;
        Ok(())
    }
}
