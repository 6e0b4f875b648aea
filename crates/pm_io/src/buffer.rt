//! Bytes at the start of a buffer.
ghost use Rattle.std.specs.Prelude.{◌≡◌, ◌≤◌, ◌-◌, min, length, take};
ghost use Rattle.std.specs.List.{between};

/// Copies bytes to the start of the buffer.
pub fn copy_to_start(buffer: &mut [u8], bytes: &[u8])
    requires { length bytes.now ≤ length buffer.old }
    ensures len { length buffer.new ≡ length buffer.old }
    ensures bytes { take (length bytes.now) buffer.new ≡ bytes.now }
{
    let start = &mut buffer[..bytes.len()];
    start.copy_from_slice(bytes);
}

/// Moves the bytes from `start` to `end` to the start of the buffer.
pub fn move_to_start(buffer: &mut [u8], start: usize, end: usize)
    requires ordered { start ≤ end }
    requires inside { end ≤ length buffer.old }
    ensures moved { take (end - start) buffer.new ≡ between start end buffer.old }
    ensures len { length buffer.new ≡ length buffer.old }
{
    if 0 < start && start < end {
        buffer.copy_within(start..end, 0);
    }
}

/// Copies the first bytes of a piece to the start of the buffer, as many as there is room for.
pub fn fill(buffer: &mut [u8], piece: &[u8]) -> usize
    ensures count { result ≡ min (length buffer.old) (length piece.now) }
    ensures len { length buffer.new ≡ length buffer.old }
    ensures bytes { take result buffer.new ≡ take result piece.now }
{
    let count = buffer.len().min(piece.len());
    copy_to_start(buffer, &piece[..count]);
    count
}
