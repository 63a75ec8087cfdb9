// Files that stand one after the other in a list, each under a heading.

// The heading of a listed file: how many bytes the file has, and where it begins.
#[derive(Clone, Copy)]
pub struct Heading {
    pub size: usize,
    pub start: usize,
}

// The heading at `at`: its last field is the size.
pub fn heading_at(s: &[u8], at: usize) -> Heading {
    let mut size = 0;
    for i in at..s.len() {
        if s[i] == b'\n' {
            return Heading {
                size: size,
                start: i + 1,
            };
        }
        size = number_so_far(size, s[i]);
    }
    Heading {
        size: 0,
        start: at.max(s.len()),
    }
}

// The number that a digit makes longer, and any other byte ends.
fn number_so_far(x: usize, b: u8) -> usize {
    if b < 48 {
        return 0;
    }
    if 57 < b {
        return 0;
    }
    (x % 100000) * 10 + ((b - 48) as usize)
}
