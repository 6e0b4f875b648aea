//! Lines of a text, with their numbers.
ghost use Rattle.std.specs.Prelude.{◌≡◌, ◌+◌, ◌-◌, ◌≤◌, ◌<◌, ◌^◌, if◌then◌else◌, length};
ghost use Rattle.pm_syn.specs.Positions.{line_ends, has_line_end, last_line};

use pm_io::LF;

/// A line of a text.
#[derive(Clone, Copy)]
pub(crate) struct TextLine {
    /// Its number, counted from 1.
    pub number: u32,
    /// How many bytes of the text are before it.
    pub start: usize,
}

impl TextLine {
    /// The line after these bytes, which begin on this line after the given number of bytes of the text.
    pub fn after(self, at: usize, bytes: &[u8]) -> TextLine
        requires numbers { self.number + length bytes.now < 2 ^ 32 }
        requires positions { at + length bytes.now < 2 ^ 64 }
        ensures number { result.number ≡ self.number + line_ends bytes.now }
        ensures start { result.start ≡ (if has_line_end bytes.now then at + (length bytes.now - length (last_line bytes.now)) else self.start) }
    {
        let mut line = self;
        for (count, byte) in bytes.iter().enumerate() {
            if *byte == LF {
                line = TextLine {
                    number: line.number + 1,
                    start: at + count + 1,
                };
            }
        }
        line
    }
}
