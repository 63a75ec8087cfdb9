// Bytes read as parts, fields and decimal numbers. Nothing here knows of trees or traces.
#![tactic(auto)]

ghost use Rattle.std.specs.Prelude.{◌≡◌, ◌==◌, ◌||◌, ◌+◌, ◌≤◌, length, drop, position};
ghost use Rattle.std.specs.List.{list_all, zip};
ghost use Rattle.text.specs.Text.{part_length, field_length, same, is_digit, digits_of, field_of};

// What a field says: "-", a number, or neither.
#[derive(Clone, Copy, PartialEq, Eq)]
pub enum Field {
    Malformed,
    Dash,
    Number(u64),
}

fn first_end(s: &[u8], sep: u8) -> Option<usize>
    ensures { result ≡ position (λ b. b == sep) s.now }
{
    s.iter().position(|b| *b == sep)
}

// Where the part that begins at `at` ends: at the next separator, or at the end of the bytes.
pub fn part_end(s: &[u8], at: usize, sep: u8) -> usize
    ensures { result ≡ at + part_length sep (drop at s.now) }
{
    let rest = &s[at.min(s.len())..];
    at + first_end(rest, sep).unwrap_or(rest.len())
}

fn first_field_end(s: &[u8]) -> Option<usize>
    ensures { result ≡ position (λ b. b == 9 || b == 10) s.now }
{
    s.iter().position(|b| *b == b'\t' || *b == b'\n')
}

// Where the field that begins at `at` ends: at the next tab or LF, or at the end of the bytes.
pub fn field_end(s: &[u8], at: usize) -> usize
    ensures { result ≡ at + field_length (drop at s.now) }
{
    let rest = &s[at.min(s.len())..];
    at + first_field_end(rest).unwrap_or(rest.len())
}

// Whether the bytes are equal as far as both go.
fn pairs_same(a: &[u8], b: &[u8]) -> bool
    ensures { result ≡ list_all (λ p. p.0 == p.1) (zip a.now b.now) }
{
    a.iter().zip(b).all(|(x, y)| x == y)
}

// Whether two byte strings are equal.
pub fn same_bytes(a: &[u8], b: &[u8]) -> bool
    ensures { result ≡ same a.now b.now }
{
    a.len() == b.len() && pairs_same(a, b)
}

fn is_digit(b: u8) -> bool
    ensures { result ≡ is_digit b }
{
    (b'0' <= b) & (b <= b'9')
}

// The number that at most ten digits write, held in 64 bits: ten digits may be above every limit of 32 bits.
fn read_digits(s: &[u8]) -> Field
    requires { length s.now ≤ 10 }
    ensures { result ≡ digits_of s.now }
{
    let mut value: u64 = 0;
    for b in s {
        if !is_digit(*b) {
            return Field::Malformed;
        }
        value = value * 10 + (*b - b'0') as u64;
    }
    Field::Number(value)
}

// What a field says. The field is a part of the file.
pub fn read_field(s: &[u8]) -> Field
    ensures { result ≡ field_of s.now }
{
    if same_bytes(s, b"-") {
        return Field::Dash;
    }
    if s.len() < 1 {
        return Field::Malformed;
    }
    if 10 < s.len() {
        return Field::Malformed;
    }
    if (s[0] == 48) & (s.len() != 1) {
        return Field::Malformed;
    }
    read_digits(s)
}
