// Bytes as lowercase hexadecimal digits, `-` for none: decoded where they stand, and written.
ghost use Rattle.std.specs.Prelude.{◌≤◌, ◌<◌, length, IfSome};

fn value(digit: u8) -> Option<u8>
    ensures { IfSome result (λ n. n < 16) }
{
    match digit {
        b'0'..=b'9' => Some(digit - b'0'),
        b'a'..=b'f' => Some(digit - b'a' + 10),
        _ => None,
    }
}

// The bytes that a word says. They stand at its front afterwards.
pub fn decode(word: &mut [u8]) -> Option<&[u8]> {
    if matches!(word, [b'-']) {
        return Some(&[]);
    }
    if word.is_empty() || word.len() % 2 == 1 {
        return None;
    }
    let count = word.len() / 2;
    for i in 0..count {
        word[i] = 16 * value(word[2 * i])? + value(word[2 * i + 1])?;
    }
    Some(&word[..count])
}

fn digit(value: u8) -> u8
    requires { value < 16 }
{
    b"0123456789abcdef"[usize::from(value)]
}

// The digits of a few bytes.
fn write_some(rt: &impl Print, bytes: &[u8])
    requires { length bytes.now ≤ 256 }
{
    let mut text = [0u8; 512];
    for (i, b) in bytes.iter().enumerate() {
        text[2 * i] = digit(*b / 16);
        text[2 * i + 1] = digit(*b % 16);
    }
    let _ = rt.write_all(&text[..2 * bytes.len()]);
}

// The digits of bytes, so many at a time that few calls write them.
pub fn write(rt: &impl Print, bytes: &[u8]) {
    if bytes.is_empty() {
        let _ = rt.write_all(b"-");
    }
    for some in bytes.chunks(256) {
        write_some(rt, some);
    }
}
