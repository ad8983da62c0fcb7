// Numbers read as decimal text, at a place of a text.
#![tactic(auto)]

ghost use Rattle.std.specs.Prelude.{◌≡◌};
ghost use Rattle.base_reading.specs.Digits.{is_digit};
ghost use Rattle.base_reading.specs.Reads.{reading, read_at};

// Whether the byte is a digit.
fn is_digit(b: u8) -> bool
    ensures { result ≡ is_digit b }
{
    b.is_ascii_digit()
}

// What a run of digits from `at` to `end` comes to, whose number is `value`.
fn ended(at: usize, end: usize, value: u32) -> Option<(u32, usize)>
    ensures { result ≡ reading at end value }
{
    if end == at { None } else { Some((value, end)) }
}

// Reads the number whose digits begin at the place `at` and go on as far as there are digits.
pub fn read(s: &[u8], at: usize) -> Option<(u32, usize)>
    ensures { result ≡ read_at s.now at }
{
    let mut value: u32 = 0;
    for i in at..s.len() {
        let b = s[i];
        if !is_digit(b) {
            return ended(at, i, value);
        }
        let v = (value as u64) * 10 + (b - b'0') as u64;
        if 4294967295 < v {
            return None;
        }
        value = v as u32;
    }
    ended(at, at.max(s.len()), value)
}
