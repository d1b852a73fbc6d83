//! Numbers spelled in decimal digits, right where they are to stand.
ghost use Rattle.std.specs.Prelude.{◌≡◌, ◌+◌, ◌/◌, ◌%◌, ◌<◌, ◌≤◌, ◌∷◌, ◌++◌, length, take, drop};
ghost use Rattle.std.specs.Fmt.{decimal};

/// How many digits a number below 10,000 has.
fn count_few(value: u64) -> usize
    requires { value < 10000 }
    ensures { result ≡ length (decimal value) }
{
    if value < 10 {
        1
    } else if value < 100 {
        2
    } else if value < 1000 {
        3
    } else {
        4
    }
}

/// How many digits a number has.
pub fn count_digits(value: u64) -> usize
    ensures count { result ≡ length (decimal value) }
    ensures few { result ≤ 20 }
{
    let mut count = 0;
    let mut left = value;
    while left >= 10_000 {
        count += 4;
        left /= 10_000;
    }
    count + count_few(left)
}

/// Writes the two digits of a number below 100 at a place.
fn write_pair(pair: u64, bytes: &mut [u8], at: usize)
    requires { (pair < 100) × (at + 2 ≤ length bytes.old) }
    ensures written { drop at bytes.new ≡ (48 + pair / 10) ∷ (48 + pair % 10) ∷ drop (at + 2) bytes.old }
    ensures before { take at bytes.new ≡ take at bytes.old }
{
    bytes[at] = b'0' + (pair / 10) as u8;
    bytes[at + 1] = b'0' + (pair % 10) as u8;
}

/// Writes the digits of a number below 100 so that they end at a place, and answers where they begin.
fn write_first(value: u64, bytes: &mut [u8], end: usize) -> usize
    requires { (value < 100) × (length (decimal value) ≤ end) × (end ≤ length bytes.old) }
    ensures start { result + length (decimal value) ≡ end }
    ensures written { drop result bytes.new ≡ decimal value ++ drop end bytes.old }
    ensures before { take result bytes.new ≡ take result bytes.old }
{
    if value < 10 {
        bytes[end - 1] = b'0' + value as u8;
        return end - 1;
    }
    write_pair(value, bytes, end - 2);
    end - 2
}

/// Writes the digits of a number so that they end at a place, two at a time from the last to the first, and answers where they
/// begin.
pub fn write_digits(value: u64, bytes: &mut [u8], end: usize) -> usize
    requires { (length (decimal value) ≤ end) × (end ≤ length bytes.old) }
    ensures start { result + length (decimal value) ≡ end }
    ensures written { drop result bytes.new ≡ decimal value ++ drop end bytes.old }
    ensures before { take result bytes.new ≡ take result bytes.old }
{
    let mut left = value;
    let mut at = end;
    while left >= 100 {
        write_pair(left % 100, bytes, at - 2);
        left /= 100;
        at -= 2;
    }
    write_first(left, bytes, at)
}
