// Parts of bytes, counted from 0: the lines of a file, the fields of a line, the rows of a table.
ghost use Rattle.std.specs.Prelude.{◌≡◌, ◌≤◌, length, drop};
ghost use Rattle.reasons.specs.Words.{from_part, part_at};

use text::part_end;

// Where part k of s begins: past k separators, or at the end of s.
pub fn part_start(s: &[u8], sep: u8, k: usize) -> usize
    ensures { (result ≤ length s.now) × (drop result s.now ≡ from_part sep k s.now) }
{
    let mut left = k;
    for (i, b) in s.iter().enumerate() {
        if left == 0 {
            return i;
        }
        if *b == sep {
            left -= 1;
        }
    }
    s.len()
}

// Part k of s, without its separator.
pub fn part(s: &[u8], sep: u8, k: usize) -> &[u8]
    ensures { (result.now ≡ part_at sep k s.now) × (length result.now ≤ length s.now) }
{
    let from = part_start(s, sep, k);
    let end = part_end(s, from, sep);
    &s[from..end]
}
