//! Pixels of 16 bits: their big-endian bytes, and their numbers (FITS 4.0, section 5.2.2).
ghost use Rattle.std.specs.Prelude.{◌≡◌, ◌+◌, ◌*◌, ◌≤◌, length, take, drop, All, FitsSigned};
ghost use Rattle.std.specs.Int.{w16};
ghost use Rattle.fz_tile.specs.Plain.{plain_bytes, pixel_of, stored_pixels};

/// Reads the pixels that these bytes store, two bytes each.
pub fn read_pixels(bytes: &[u8], numbers: &mut [i32])
    requires { length bytes.now ≡ 2 * length numbers.old }
    ensures pixels { numbers.new ≡ stored_pixels 16 (length numbers.old) bytes.now }
    ensures fit { All (FitsSigned w16) numbers.new }
{
    for i in 0..numbers.len() {
        numbers[i] = pixel_at(bytes, i);
    }
}

// The pixel of this index.
#[inline]
fn pixel_at(bytes: &[u8], i: usize) -> i32
    requires { 2 * i + 2 ≤ length bytes.now }
    ensures value { result ≡ pixel_of 16 (take 2 (drop (2 * i) bytes.now)) }
    ensures fits { FitsSigned w16 result }
{
    i32::from(i16::from_be_bytes([bytes[2 * i], bytes[2 * i + 1]]))
}

/// Writes the bytes that store these pixels, two bytes each.
pub fn write_pixels(numbers: &[i32], bytes: &mut [u8])
    requires fit { All (FitsSigned w16) numbers.now }
    requires room { length bytes.old ≡ 2 * length numbers.now }
    ensures { bytes.new ≡ plain_bytes 16 numbers.now }
{
    for i in 0..numbers.len() {
        let [high, low] = (numbers[i] as i16).to_be_bytes();
        bytes[2 * i] = high;
        bytes[2 * i + 1] = low;
    }
}
