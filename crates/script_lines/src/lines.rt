//! The lines of a script, out of one buffer.
ghost use Rattle.std.specs.Prelude.{◌≡◌, ◌<◌, ◌≤◌, ◌+◌, ◌-◌, [], length, take, drop, slice_range, ◌⊎◌, position, IfOk, OnErr, IfNone, Option, ◌==◌};
ghost use Rattle.std.specs.Io.KnownBytes.{prepend_known, Keeps, IsAtEnd, ReadConsumes};
ghost use Rattle.disk_model.specs.Causes.{HasCause};
ghost use Rattle.script_lines.specs.Lines.{line_feed, line_feeds};
ghost use Rattle.script_lines.specs.Reading.{Finds, IsFirstLineFeed, without_return};

use memchr::memchr;
use outside_io::{ReadFailed, Source};

/// How many bytes the buffer has. A line that fills it is longer than any line may be.
const BUFFER: usize = 4096;

/// What was found at the front of the bytes that are left.
#[derive(Clone, Copy, PartialEq, Eq, Debug)]
pub enum Found {
    /// A line that ends with a line feed.
    Line,
    /// The last line, which has no line feed.
    LastLine,
    /// A line that is longer than a line may be.
    LongLine,
    /// No line, and no byte.
    End,
}

/// Where the first line feed is.
#[inline(always)]
fn first_line_feed(bytes: &[u8]) -> Option<usize>
    ensures { result ≡ position (λ b. b == line_feed) bytes.now }
{
    memchr(b'\n', bytes)
}

/// How long a line is without a carriage return at its end.
fn length_without_return(line: &[u8]) -> usize
    ensures within { result ≤ length line.now }
    ensures value { take result line.now ≡ without_return line.now }
{
    match line {
        [.., b'\r'] => line.len() - 1,
        _ => line.len(),
    }
}

/// Reads after the first `end` bytes of the buffer.
fn read_behind<R: Source>(
    source: &mut R,
    buffer: &mut [u8; BUFFER],
    end: usize,
) -> Result<usize, ReadFailed>
    requires { end < BUFFER }
    ensures bound { IfOk result (λ n. end + n ≤ BUFFER) }
    ensures kept { take end buffer.new ≡ take end buffer.old }
    ensures bytes { ReadConsumes (R.left source.old) (R.left source.new) result (drop end buffer.new) }
    ensures cause { HasCause (R.faults source.old) (R.faults source.new) result }
{
    source.read(&mut buffer[end..])
}

/// Reads after the first `end` bytes of the buffer, which have no line feed, until a line feed, the
/// end of the buffer or the end of the input is reached. Answers where the line feed is.
fn read_line_feed<R: Source>(
    source: &mut R,
    buffer: &mut [u8; BUFFER],
    end: &mut usize,
) -> Result<Option<usize>, ReadFailed>
    requires within { end.old ≤ BUFFER }
    requires none { line_feeds (take end.old buffer.old) ≡ 0 }
    ensures size { length buffer.new ≡ BUFFER }
    ensures within { end.new ≤ BUFFER }
    ensures bytes { Keeps (prepend_known (take end.old buffer.old) (R.left source.old))
        (prepend_known (take end.new buffer.new) (R.left source.new)) }
    ensures found { IfOk result (IsFirstLineFeed buffer.new end.new) }
    ensures all { IfOk result (λ i. IfNone i (end.new < BUFFER → IsAtEnd (R.left source.new))) }
    ensures failed { OnErr result (line_feeds (take end.new buffer.new) ≡ 0) }
    ensures cause { HasCause (R.faults source.old) (R.faults source.new) result }
{
    while *end < BUFFER {
        let searched = *end;
        let count = read_behind(source, buffer, searched)?;
        if count == 0 {
            return Ok(None);
        }
        *end += count;
        if let Some(i) = first_line_feed(&buffer[searched..*end]) {
            return Ok(Some(searched + i));
        }
    }
    Ok(None)
}

/// Moves these bytes to the front of the buffer.
fn move_to_front(buffer: &mut [u8; BUFFER], start: usize, end: usize)
    requires ordered { start ≤ end }
    requires within { end ≤ BUFFER }
    ensures { take (end - start) buffer.new ≡ slice_range buffer.old start end }
{
    if start > 0 {
        buffer.copy_within(start..end, 0);
    }
}

/// Reads lines out of one buffer, which it fills again only where no whole line is left over.
#[derive(Drop)]
pub struct LineReader {
    buffer: [u8; BUFFER],
    line_start: usize,
    line_end: usize,
    start: usize,
    end: usize,
    ghost line_ordered: { line_start ≤ line_end },
    ghost line_within: { line_end ≤ 4096 },
    ghost ordered: { start ≤ end },
    ghost within: { end ≤ 4096 },
}

impl LineReader {
    ghost use Rattle.script_lines.specs.LineReader.{current_line, pending};

    /// Has read nothing yet.
    pub fn new() -> LineReader
        ensures { pending result ≡ [] }
    {
        LineReader {
            buffer: [0; BUFFER],
            line_start: 0,
            line_end: 0,
            start: 0,
            end: 0,
        }
    }

    /// The line that was found last, without its end.
    pub fn line(&self) -> &[u8]
        ensures { result.now ≡ current_line self.now }
    {
        &self.buffer[self.line_start..self.line_end]
    }

    /// Takes the pending bytes up to the first line feed, which stands at this place after the
    /// first of them, as a line.
    fn take_line(&mut self, at: usize)
        requires there { at < length (pending self.old) }
        ensures line { current_line self.new ≡ without_return (take at (pending self.old)) }
        ensures pending { pending self.new ≡ drop (at + 1) (pending self.old) }
    {
        let feed = self.start + at;
        let length = length_without_return(&self.buffer[self.start..feed]);
        self.line_start = self.start;
        self.line_end = self.start + length;
        self.start = feed + 1;
    }

    /// Takes all pending bytes as the last line, where there are any.
    fn take_last_line(&mut self) -> Found
        ensures line { result ≡ Found.LastLine → current_line self.new ≡ pending self.old }
        ensures one { (result ≡ Found.LastLine) × (0 < length (pending self.old))
            ⊎ (result ≡ Found.End) × (length (pending self.old) ≡ 0) }
        ensures pending { pending self.new ≡ [] }
    {
        if self.start == self.end {
            return Found::End;
        }
        self.line_start = self.start;
        self.line_end = self.end;
        self.start = self.end;
        Found::LastLine
    }

    /// Finds the next line.
    #[inline(always)]
    pub fn advance<R: Source>(&mut self, source: &mut R) -> Result<Found, ReadFailed>
        ensures found { IfOk result (λ found.
            Finds found (prepend_known (pending self.old) (R.left source.old))
            (prepend_known (pending self.new) (R.left source.new)) (current_line self.new)) }
        ensures failed { OnErr result (
            Keeps (prepend_known (pending self.old) (R.left source.old))
            (prepend_known (pending self.new) (R.left source.new))
            × (line_feeds (pending self.new) ≡ 0)) }
        ensures cause { HasCause (R.faults source.old) (R.faults source.new) result }
    {
        if let Some(at) = first_line_feed(&self.buffer[self.start..self.end]) {
            self.take_line(at);
            return Ok(Found::Line);
        }
        move_to_front(&mut self.buffer, self.start, self.end);
        self.end -= self.start;
        self.start = 0;
        match read_line_feed(source, &mut self.buffer, &mut self.end)? {
            Some(at) => {
                self.take_line(at);
                Ok(Found::Line)
            }
            None if self.end == BUFFER => Ok(Found::LongLine),
            None => Ok(self.take_last_line()),
        }
    }
}
