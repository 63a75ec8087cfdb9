// The requests of an accepted trace, walked in its bytes, beside the lines of the log.
use answercheck::same_request;
use second::requests::{acc_at, count_at, lines, slot_at};
use trace::request_at;

// Is there no request at the place?
fn ends(s: &[u8], at: usize) -> bool {
    request_at(s, at).is_none()
}

// Is each request that of its line in the log, and is there none at the end of the last one, which is the file's?
pub fn same_requests(s: &[u8], d: &[usize; 16384]) -> bool {
    let mut at = 0;
    for i in 0..lines(d) {
        let Some((r, next)) = request_at(s, at) else {
            return false;
        };
        if !same_request(r, slot_at(d, i), acc_at(d, i), count_at(d, i)) {
            return false;
        }
        at = next;
    }
    (at == s.len()) & ends(s, at)
}
