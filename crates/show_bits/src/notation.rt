//! How values are written.
use pm_bits::Bits;

/// A value, as `8'hff`.
pub fn read_value(text: &str) -> Option<Bits> {
    let (width, number) = text.split_once('\'')?;
    let width = width.parse().ok()?;
    Bits::new(width, read_hexadecimal(number)?)
}

/// A number in hexadecimal digits, as `hff`.
pub fn read_hexadecimal(text: &str) -> Option<u128> {
    u128::from_str_radix(text.strip_prefix('h')?, 16).ok()
}
