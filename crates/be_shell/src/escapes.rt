//! Shows control characters as codes, so that no value can control the terminal.
ghost use Rattle.std.specs.Prelude.{◌≡◌, ◌<◌, ◌≤◌, ◌++◌, length, take, drop, IfSome, IfNone};
ghost use Rattle.be_shell.specs.Escape as spec;

fn is_control(byte: u8) -> bool
    ensures { result ≡ spec.is_control byte }
{
    (byte < b' ' && byte != b'\n') || byte == 127
}

fn hex_digit(n: u8) -> u8
    requires { n < 16 }
    ensures { result ≡ spec.hex_digit n }
{
    if n < 10 { b'0' + n } else { 87 + n }
}

/// Returns a code in the form of `\x` and two hexadecimal digits.
pub(crate) fn mark(code: u8) -> [u8; 4]
    ensures { result ≡ spec.mark code }
{
    [b'\\', b'x', hex_digit(code / 16), hex_digit(code % 16)]
}

/// Returns the code of the control character at the start, and what follows it, or `None` if there
/// is no control character at the start.
pub(crate) fn control_at(bytes: &[u8]) -> Option<(u8, &[u8])>
    ensures some { IfSome result (λ found. spec.shown bytes.now ≡ spec.mark found.0
        ++ spec.shown found.1.now) }
    ensures shorter { IfSome result (λ found. length found.1.now < length bytes.now) }
    ensures none { IfNone result (spec.KeepsFirst bytes.now) }
{
    let (first, beyond) = bytes.split_first()?;
    if is_control(*first) {
        return Some((*first, beyond));
    }
    let (second, rest) = beyond.split_first()?;
    if *first == 0xc2 && *second >= 128 && *second < 160 {
        return Some((*second, rest));
    }
    None
}

/// Returns how many bytes at the start are shown unchanged. The first byte must be one of them.
pub(crate) fn plain_len(bytes: &[u8]) -> usize
    requires some { 1 ≤ length bytes.now }
    requires first { spec.KeepsFirst bytes.now }
    ensures within { (1 ≤ result) × (result ≤ length bytes.now) }
    ensures plain { spec.shown bytes.now ≡ take result bytes.now
        ++ spec.shown (drop result bytes.now) }
{
    let mut len = 1;
    while len < bytes.len() {
        match control_at(bytes.split_at(len).1) {
            Some(_) => return len,
            None => len += 1,
        }
    }
    len
}
