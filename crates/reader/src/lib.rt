// The reader of a tree file: size, then line by line, then the end.
#![tactic(auto)]

ghost use Rattle.std.specs.Prelude.{◌≡◌};
ghost use Rattle.placing.specs.Placing.{tree_read};
ghost use Rattle.reader.specs.TreeFile.{read_tree};

use lines::read_line;
use model::Refusal;
use placing::{TreeReply, finished, refused, tree_line};
use records::empty_tree;
use text::part_end;

// The tree that a file writes, or why and at which line it is refused, with the empty tree.
pub fn read_tree(s: &[u8]) -> TreeReply
    ensures { tree_read result ≡ read_tree s.now }
{
    if 65536 < s.len() {
        return refused(Refusal::Limit, 0);
    }
    let mut at = 0;
    let mut n: u32 = 1;
    let mut t = empty_tree();
    // A `while`: a line begins where the one before it ends, so no index is counted.
    while at < s.len() {
        let end = part_end(s, at, 10);
        if end == s.len() {
            return refused(Refusal::Shape, n);
        }
        let r = tree_line(n, t, read_line(&s[at..end]));
        let Ok(()) = r.answer else {
            return r;
        };
        t = r.tree;
        at = end + 1;
        n += 1;
    }
    finished(n, t)
}
