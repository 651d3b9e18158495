//! The end of what was read of a script.
ghost use Rattle.std.specs.Prelude.{◌≡◌, ◌≤◌, ◌+◌};

/// How many bytes are kept. The reader of lines keeps as many, so a line that it finds stands in them whole.
const KEPT: usize = 4096;

/// The last bytes that were read of a script, and how many lines ended before them.
#[derive(Drop)]
pub struct Latest {
    bytes: [u8; KEPT],
    len: usize,
    lines_before: u64,
    ghost within: { len ≤ 4096 },
}

/// How many lines end in the bytes. Each byte of a stream passes here, so nothing is done but to count.
fn ends_in(bytes: &[u8]) -> u64 {
    bytes.iter().filter(|byte| **byte == b'\n').count() as u64
}

impl Latest {
    /// Of a script of which nothing was read.
    pub fn new() -> Latest {
        Latest {
            bytes: [0; KEPT],
            len: 0,
            lines_before: 0,
        }
    }

    /// So many bytes in front are no longer kept.
    fn forget(&mut self, count: usize)
        requires { count ≤ self.old.len }
        ensures { self.new.len + count ≡ self.old.len }
    {
        self.lines_before = self
            .lines_before
            .saturating_add(ends_in(&self.bytes[..count]));
        self.bytes.copy_within(count..self.len, 0);
        self.len -= count;
    }

    /// These bytes were read next.
    pub fn add(&mut self, read: &[u8]) {
        let skipped = read.len().saturating_sub(KEPT);
        let piece = &read[skipped..];
        self.forget((self.len + piece.len()).saturating_sub(KEPT));
        self.lines_before = self.lines_before.saturating_add(ends_in(&read[..skipped]));
        let end = self.len + piece.len();
        self.bytes[self.len..end].copy_from_slice(piece);
        self.len = end;
    }

    /// The line of this number, counted from 1, without its end, where it is among the bytes that are kept.
    pub fn line(&self, number: u64) -> Option<&[u8]> {
        let before = number.checked_sub(1)?.checked_sub(self.lines_before)?;
        let mut rest = &self.bytes[..self.len];
        for _ in 0..before {
            let end = rest.iter().position(|b| *b == b'\n')?;
            rest = &rest[end + 1..];
        }
        let line = match rest.iter().position(|b| *b == b'\n') {
            Some(end) => &rest[..end],
            None => rest,
        };
        match line {
            [front @ .., b'\r'] => Some(front),
            _ => Some(line),
        }
    }
}
