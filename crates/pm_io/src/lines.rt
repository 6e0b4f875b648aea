//! The lines of a source.
//!
//! `Lines` has one buffer, a byte longer than a line may be, and room for the line that it gave last. A read fills all
//! the free room of the buffer. What is buffered moves to the start of the buffer only when more has to be read, no byte
//! is searched twice for a line end, and each line is copied once. So neither long lines nor small reads cost more than
//! the bytes that they give.
ghost use Rattle.std.specs.Prelude.{◌≡◌, ◌≢◌, ◌↔◌, ◌+◌, ◌-◌, ◌<◌, ◌≤◌, ◌^◌, false, IfOk, IsTrue, List, ℕ, length, take, drop};
ghost use Rattle.std.specs.List.{Contains, between};
ghost use Rattle.pm_io.specs.Causes.{HasCause};
ghost use Rattle.pm_io.specs.Known.{Are, Keeps};
ghost use Rattle.pm_io.specs.LineBuffer.{Fills, FindsLineEnd, Finishes};
ghost use Rattle.pm_io.specs.Lines.{HasNoLineEnd, LineEndsAreAscii, LinesCutTheText, without_cr};
ghost use Rattle.pm_io.specs.Reading.{Gives, ahead, is_line, new_reading};
ghost use Rattle.pm_io.specs.Streams.{Reads};

use crate::buffer::{copy_to_start, move_to_start};
use crate::no_memory::NoMemory;
use crate::source::{Got, Source};
use memchr::memchr;
use std::alloc::Global;
use std::marker::Model;

/// The byte that ends a line.
pub const LF: u8 = b'\n';

/// The byte that may come before a line's LF, and then belongs to the line end.
pub const CR: u8 = b'\r';

/// What a reader of lines gave.
#[derive(Clone, Copy, PartialEq, Eq)]
pub enum LineGot {
    /// The next line, which `Lines::line` returns.
    Line,
    /// No line: nothing is left.
    End,
    /// No line: before the next LF or the end there are more bytes than the limit, counting a CR before that LF.
    TooLong,
    /// No line: a read of the source failed.
    Failed,
}

/// A reader of lines, each of at most `limit` bytes without its LF.
#[derive(Drop)]
pub struct Lines {
    limit: usize,
    // What is buffered lies from `start` to `filled`, and has no line end before `scanned`.
    buffer: Vec<u8>,
    start: usize,
    scanned: usize,
    filled: usize,
    // The line that was given last is the first `line_length` bytes.
    line: Vec<u8>,
    line_length: usize,
    live: bool,
}

impl Model for Lines {
    ghost use Rattle.std.specs.Prelude.{take};
    ghost use Rattle.std.specs.List.{between};
    ghost use Rattle.pm_io.specs.LineBuffer.{IsLineBuffer};
    ghost use Rattle.pm_io.specs.Reading.{Reading};

    ghost Value = { Reading };

    ghost view = { λ lines. record {
      limit = lines.limit;
      buffered = between lines.start lines.filled lines.buffer.items;
      line = take lines.line_length lines.line.items;
      live = lines.live;
    } };

    ghost invariant = { λ lines.
        IsLineBuffer lines.limit lines.buffer.items lines.start lines.scanned lines.filled lines.line.items lines.line_length };
}

impl Lines {
    /// A reader that hasn't read anything. It takes all the memory that it ever needs: twice the limit, and two bytes.
    pub fn new(alloc: Global, limit: usize) -> Result<Lines, NoMemory>
        requires { limit ≤ 2 ^ 30 }
        ensures { IfOk result (λ lines. lines ≡ new_reading limit) }
    {
        Ok(Lines {
            limit,
            buffer: vec![in alloc; 0; limit + 1]?,
            start: 0,
            scanned: 0,
            filled: 0,
            line: vec![in alloc; 0; limit + 1]?,
            line_length: 0,
            live: true,
        })
    }

    /// Gives the next line. `live` has to be true.
    ///
    /// It reads until a line end is buffered, and no further. The clause `no_read` says so when one is buffered at the
    /// call. That it also stops at the first read that brings one isn't proved: a test shows it.
    pub fn next<S: Source>(&mut self, source: &mut S) -> LineGot
        requires { IsTrue self.old.live }
        ensures line { Gives (ahead self.old.buffered (S.left source.old)) (ahead self.new.buffered (S.left source.new))
            self.old.limit self.new.line result }
        ensures limit { self.new.limit ≡ self.old.limit }
        ensures live { self.new.live ≡ is_line result }

        // The line that was given last stays until the next one is given.
        ensures kept { result ≢ LineGot.Line → self.new.line ≡ self.old.line }

        // It doesn't read when a line end is buffered already.
        ensures no_read { Contains self.old.buffered LF → source.new ≡ source.old }

        // After a failed read no whole line is buffered.
        ensures broken { result ≡ LineGot.Failed → ¬ Contains self.new.buffered LF }
        ensures cause { HasCause (S.faults source.old) (S.faults source.new) (result ≡ LineGot.Failed) }
    {
        match self.find_line_end() {
            Some(count) => self.take_line(count),
            None => self.read_line(source),
        }
    }

    /// Whether `next` may be called.
    pub fn live(&self) -> bool
        ensures { result ≡ self.now.live }
    {
        self.live
    }

    /// The line that was given last, without its LF and one CR before it; no bytes before the first line. It is still
    /// there after `next` gave no line.
    pub fn line(&self) -> &[u8]
        ensures { result.now ≡ self.now.line }
    {
        &self.line[..self.line_length]
    }

    /// Gives the next line when no line end is buffered, by reads.
    fn read_line<S: Source>(&mut self, source: &mut S) -> LineGot
        requires live { IsTrue self.old.live }
        requires searched { HasNoLineEnd self.old.buffered }
        ensures line { Gives (ahead self.old.buffered (S.left source.old)) (ahead self.new.buffered (S.left source.new))
            self.old.limit self.new.line result }
        ensures limit { self.new.limit ≡ self.old.limit }
        ensures live { self.new.live ≡ is_line result }
        ensures kept { result ≢ LineGot.Line → self.new.line ≡ self.old.line }
        ensures broken { result ≡ LineGot.Failed → HasNoLineEnd self.new.buffered }
        ensures cause { HasCause (S.faults source.old) (S.faults source.new) (result ≡ LineGot.Failed) }
    {
        while !self.is_over() {
            match self.fill(source) {
                Got::Bytes(_) => {
                    if let Some(count) = self.find_line_end() {
                        return self.take_line(count);
                    }
                }
                Got::End => return self.finish(),
                Got::Failed => return self.stop(LineGot::Failed),
            }
        }
        self.stop(LineGot::TooLong)
    }

    /// Whether more is buffered than a line may have.
    fn is_over(&self) -> bool
        ensures { IsTrue result ↔ (self.now.limit < length self.now.buffered) }
    {
        self.filled - self.start > self.limit
    }

    /// Reads once, into all the free room of the buffer.
    fn fill<S: Source>(&mut self, source: &mut S) -> Got
        requires { length self.old.buffered ≤ self.old.limit }
        ensures ahead { Keeps (ahead self.old.buffered (S.left source.old)) (ahead self.new.buffered (S.left source.new)) }
        ensures filled { Fills self.old.buffered self.new.buffered (S.left source.old) result }
        ensures limit { self.new.limit ≡ self.old.limit }
        ensures line { self.new.line ≡ self.old.line }
        ensures live { self.new.live ≡ self.old.live }
        ensures cause { HasCause (S.faults source.old) (S.faults source.new) (result ≡ Got.Failed) }
    {
        let got = read_after(source, &mut self.buffer, self.start, self.filled);
        self.filled -= self.start;
        self.scanned -= self.start;
        self.start = 0;
        if let Got::Bytes(count) = got {
            self.filled += count;
        }
        got
    }

    /// How long the first line is, if its end is buffered.
    fn find_line_end(&mut self) -> Option<usize>
        ensures same { self.new ≡ self.old }
        ensures found { FindsLineEnd self.old.buffered result }
        ensures room { length self.old.buffered ≤ self.old.limit + 1 }
    {
        match memchr(LF, &self.buffer[self.scanned..self.filled]) {
            Some(place) => {
                self.scanned += place;
                Some(self.scanned - self.start)
            }
            None => {
                self.scanned = self.filled;
                None
            }
        }
    }

    /// The bytes that were read and haven't been given.
    fn buffered(&self) -> &[u8]
        ensures { result.now ≡ self.now.buffered }
    {
        &self.buffer[self.start..self.filled]
    }

    /// Copies the first bytes that are buffered to where the line that was given last is kept.
    fn keep_line(&mut self, count: usize)
        requires { count ≤ length self.old.buffered }
        ensures { self.new ≡ record self.old { line = take count self.old.buffered } }
    {
        let end = self.start + count;
        copy_to_start(&mut self.line, &self.buffer[self.start..end]);
        self.line_length = count;
    }

    /// Drops the first bytes that are buffered.
    fn skip(&mut self, count: usize)
        requires { count ≤ length self.old.buffered }
        ensures { self.new ≡ record self.old { buffered = drop count self.old.buffered } }
    {
        self.start += count;
        self.scanned = self.start;
    }

    /// Gives the first line, which has `count` bytes before its LF.
    fn take_line(&mut self, count: usize) -> LineGot
        requires { count < length self.old.buffered }
        ensures taken { self.new ≡ record self.old {
          buffered = drop (count + 1) self.old.buffered;
          line = without_cr (take count self.old.buffered);
        } }
        ensures got { result ≡ LineGot.Line }
    {
        let kept = count_without_cr(&self.buffered()[..count]);
        self.keep_line(kept);
        self.skip(count + 1);
        LineGot::Line
    }

    /// Gives what is buffered as the last line, if anything is.
    fn finish(&mut self) -> LineGot
        ensures { Finishes self.old self.new result }
    {
        let count = self.buffered().len();
        if count == 0 {
            return self.stop(LineGot::End);
        }
        self.keep_line(count);
        self.skip(count);
        LineGot::Line
    }

    /// Gives no line, now or later.
    fn stop(&mut self, got: LineGot) -> LineGot
        ensures stopped { self.new ≡ record self.old { live = false } }
        ensures got { result ≡ got }
    {
        self.live = false;
        got
    }
}

/// How many bytes the line has without a CR at its end.
fn count_without_cr(line: &[u8]) -> usize
    ensures within { result ≤ length line.now }
    ensures value { take result line.now ≡ without_cr line.now }
{
    let count = line.len();
    if 0 < count && line[count - 1] == CR {
        count - 1
    } else {
        count
    }
}

/// Moves the bytes from `start` to `end` to the start of the buffer and reads after them, as much as there is room for.
fn read_after<S: Source>(source: &mut S, buffer: &mut [u8], start: usize, end: usize) -> Got
    requires ordered { start ≤ end }
    requires inside { end ≤ length buffer.old }
    requires room { end - start < length buffer.old }
    ensures kept { take (end - start) buffer.new ≡ between start end buffer.old }
    ensures len { length buffer.new ≡ length buffer.old }
    ensures bytes { Reads (S.left source.old) (S.left source.new) (drop (end - start) buffer.new) result }
    ensures cause { HasCause (S.faults source.old) (S.faults source.new) (result ≡ Got.Failed) }
{
    move_to_start(buffer, start, end);
    source.read(&mut buffer[end - start..])
}

/// The bytes of line ends are those of ASCII: `LF` is 10 and `CR` is 13.
pub fn line_ends_are_ascii()
    ensures { LineEndsAreAscii }
{}

/// A text is cut into its lines, and in no other way.
pub fn lines_cut_the_text()
    ensures { LinesCutTheText }
{}
