// Numbers of two and four bytes, the low byte first.
ghost use Rattle.std.specs.Prelude.{◌≡◌, ◌+◌, ◌^◌, ◌<◌, length};
ghost use Rattle.scheme_file.specs.Numbers.{bytes_from, four, two_at, four_at};

// The bytes from a place on, each 0 that is past the end. (Byte by byte: a copy of those that are there would need their bounds
// first, and be no plainer.)
fn bytes_at<const N: usize>(bytes: &[u8], at: usize) -> [u8; N]
    requires { at + N < 2 ^ 64 }
    ensures { result ≡ bytes_from bytes.now at N }
{
    let mut here = [0; N];
    for (k, byte) in here.iter_mut().enumerate() {
        *byte = bytes.get(at + k).copied().unwrap_or(0);
    }
    here
}

pub(crate) fn get_u16(bytes: &[u8], at: usize) -> u16
    requires { at + 2 < 2 ^ 64 }
    ensures { result ≡ two_at bytes.now at }
{
    u16::from_le_bytes(bytes_at(bytes, at))
}

pub(crate) fn get_u32(bytes: &[u8], at: usize) -> u32
    requires { at + 4 < 2 ^ 64 }
    ensures { result ≡ four_at bytes.now at }
{
    u32::from_le_bytes(bytes_at(bytes, at))
}

pub(crate) fn put_u32(part: &mut [u8], x: u32)
    requires { length part.old ≡ 4 }
    ensures { part.new ≡ four x }
{
    part.copy_from_slice(&x.to_le_bytes());
}
