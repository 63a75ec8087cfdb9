// Files at the limits of sizes and totals: a page filled with lines.

// Fills a page with a line, over and over.
fn repeat(page: &mut [u8], line: &[u8]) {
    let n = line.len();
    if n == 0 {
        return;
    }
    for (i, b) in page.iter_mut().enumerate() {
        *b = line[i % n];
    }
}

// Puts lines at the end of a page.
fn end_with(page: &mut [u8], lines: &[u8]) {
    let n = lines.len();
    if page.len() < n {
        return;
    }
    let from = page.len() - n;
    page[from..].copy_from_slice(lines);
}

// The first n bytes of a page: a line, over and over, and `last` at their end.
fn filled(page: &mut [u8], line: &[u8], last: &[u8], n: usize) -> usize {
    if page.len() < n {
        return 0;
    }
    repeat(&mut page[0..n], line);
    end_with(&mut page[0..n], last);
    n
}

// Traces with totals of 65,535 and 65,536, and one with a falling slot that is over the total too.
fn total_file(page: &mut [u8], i: usize) -> usize {
    let most = b"o\t0\t0\t16\n";
    if i == 0 {
        return filled(page, most, b"o\t1\t0\t15\no\t2\t1\t16\n", 36873);
    }
    if i == 1 {
        return filled(page, most, b"o\t1\t1\t16\no\t2\t0\t16\n", 36873);
    }
    filled(page, b"o\t1\t0\t16\n", most, 36864)
}

// The size of long file i, and the file at the start of the page: three traces by their totals, then traces and tree files
// of 65,536 and 65,537 bytes. No line of these trees ends.
pub fn long_file(page: &mut [u8], i: usize) -> usize {
    if i < 3 {
        return total_file(page, i);
    }
    let n = 65536 + (i - 3) % 2;
    if i < 5 {
        return filled(page, b"o\t0\t0\t1\n", b"", n);
    }
    filled(page, b"x", b"", n)
}
