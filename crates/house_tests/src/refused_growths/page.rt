use std::io;
use std::io::Write;

// A writer that allocates no memory: it compares the bytes written with the expected ones.
#[derive(Drop)]
pub(crate) struct Page<'a> {
    wanted: &'a [u8],
    // The bytes that must still be written.
    rest: &'a [u8],
    // Whether only expected bytes were written so far.
    is_same: bool,
}

impl<'a> Page<'a> {
    pub(crate) fn of(wanted: &'a [u8]) -> Page<'a> {
        Page {
            wanted,
            rest: wanted,
            is_same: true,
        }
    }

    // Reports whether exactly the expected bytes were written.
    pub(crate) fn is_whole(&self) -> bool {
        self.is_same && self.rest.is_empty()
    }

    // Returns the part of them that was written, or `None` if other bytes were written.
    pub(crate) fn written(&self) -> Option<&'a [u8]> {
        if !self.is_same {
            return None;
        }
        self.wanted.strip_suffix(self.rest)
    }
}

impl Write for Page<'_> {
    fn write(&mut self, buf: &[u8]) -> io::Result<usize> {
        match self.rest.strip_prefix(buf) {
            Some(rest) => self.rest = rest,
            None => self.is_same = false,
        }
        Ok(buf.len())
    }

    fn flush(&mut self) -> io::Result<()> {
        Ok(())
    }
}
