//! What a reader of lines gives of whole texts.
ghost use Rattle.std.specs.Prelude.{None};

use pm_io::{Got, LineGot, Lines, Source};
use std::alloc::Global;
use std::process::Abort;

/// A source that gives a text in pieces of at most `most` bytes, and then is at its end or fails. It counts its reads.
#[derive(Drop)]
struct Pieces<'a> {
    rest: &'a [u8],
    most: usize,
    fails: bool,
    reads: u64,
    faults: u64,
}

impl<'a> Pieces<'a> {
    fn new(rest: &'a [u8], most: usize, fails: bool) -> Pieces<'a> {
        Pieces {
            rest,
            most,
            fails,
            reads: 0,
            faults: 0,
        }
    }
}

impl<'a> Source for Pieces<'a> {
    ghost left = { λ _. None };

    ghost faults = { λ source. source.faults };

    fn read(&mut self, buffer: &mut [u8]) -> Got {
        self.reads = self.reads.saturating_add(1);
        let count = self.rest.len().min(buffer.len()).min(self.most);
        if count == 0 {
            if !self.fails {
                return Got::End;
            }
            self.faults = self.faults.saturating_add(1);
            return Got::Failed;
        }
        buffer[..count].copy_from_slice(&self.rest[..count]);
        self.rest = &self.rest[count..];
        Got::Bytes(count)
    }
}

// A reader of lines of at most four bytes.
fn reader(rt: &impl Abort, alloc: Global) -> Lines {
    Lines::new(alloc, 4).expect(rt, "memory")
}

// Asks for a line: the reader gives this, and then has this line.
fn ask(rt: &impl Abort, lines: &mut Lines, source: &mut Pieces, got: LineGot, line: &[u8]) {
    assert!(rt; lines.live());
    assert!(rt; lines.next(source) == got);
    assert!(rt; lines.live() == (got == LineGot::Line));
    assert!(rt; lines.line() == line);
}

// Reads the text in pieces of at most `most` bytes. It has these lines, each ended by `|`, and then the reader gives no
// more, but still has the last line.
fn read_in_pieces(
    rt: &impl Abort,
    alloc: Global,
    text: &[u8],
    most: usize,
    expected: &str,
    last: LineGot,
) {
    let mut lines = reader(rt, alloc);
    let mut source = Pieces::new(text, most, last == LineGot::Failed);
    let mut line: &[u8] = b"";
    for next in expected.split_terminator('|') {
        line = next.as_bytes();
        ask(rt, &mut lines, &mut source, LineGot::Line, line);
    }
    ask(rt, &mut lines, &mut source, last, line);
}

#[test]
fn texts_are_cut_into_lines(rt: HostRuntime) {
    // No line has more than four bytes, a CR before its LF counted.
    let table: &[(&[u8], &str, LineGot)] = &[
        (b"", "", LineGot::End),
        (b"ab\ncd\n", "ab|cd|", LineGot::End),
        (b"ab\ncd", "ab|cd|", LineGot::End),
        (b"\n\na\n\n", "||a||", LineGot::End),
        (b"ab\r\n\r\na\rb\n\r\r\n", "ab||a\rb|\r|", LineGot::End),
        (b"ab\r", "ab\r|", LineGot::End),
        (b"abcd\nabc\r\nabcd", "abcd|abc|abcd|", LineGot::End),
        (b"a\nabcde\nb\n", "a|", LineGot::TooLong),
        (b"a\nabcde", "a|", LineGot::TooLong),
        (b"abcd\r\n", "", LineGot::TooLong),
        (b"", "", LineGot::Failed),
        (b"a\nb\ncd", "a|b|", LineGot::Failed),
        (b"a\nabcd", "a|", LineGot::Failed),
    ];
    for (text, expected, last) in table {
        read_in_pieces(&rt, rt.alloc(), text, 1, expected, *last);
        read_in_pieces(&rt, rt.alloc(), text, 2, expected, *last);
        read_in_pieces(&rt, rt.alloc(), text, 100, expected, *last);
    }
}

// The next line is this. There were this number of reads by then, and this rest is left.
fn read_line(
    rt: &impl Abort,
    lines: &mut Lines,
    source: &mut Pieces,
    line: &[u8],
    reads: u64,
    rest: &[u8],
) {
    ask(rt, lines, source, LineGot::Line, line);
    assert!(rt; source.reads == reads);
    assert!(rt; source.rest == rest);
}

// Reads two lines in pieces of at most `most` bytes: how many reads there were after each line, and what was left.
fn count_reads(
    rt: &impl Abort,
    alloc: Global,
    most: usize,
    reads: (u64, u64),
    rests: (&[u8], &[u8]),
) {
    let mut lines = reader(rt, alloc);
    let mut source = Pieces::new(b"ab\n\ncd", most, true);
    read_line(rt, &mut lines, &mut source, b"ab", reads.0, rests.0);
    read_line(rt, &mut lines, &mut source, b"", reads.1, rests.1);
}

#[test]
fn no_read_follows_a_line_end(rt: HostRuntime) {
    count_reads(&rt, rt.alloc(), 1, (3, 4), (b"\ncd", b"cd"));
    count_reads(&rt, rt.alloc(), 2, (2, 2), (b"cd", b"cd"));
    count_reads(&rt, rt.alloc(), 100, (1, 1), (b"d", b"d"));
}
