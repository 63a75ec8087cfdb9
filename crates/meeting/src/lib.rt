// Where the paths of two accelerators meet: the deepest interconnect that both cross.
#![tactic(auto)]

ghost use Rattle.std.specs.Prelude.{◌≡◌, ◌≤◌};
ghost use Rattle.model.specs.Tree.{above, path};
ghost use Rattle.meeting.specs.Meeting.{crosses, meeting, meet_of};

use model::Tree;
use model::access::{accelerator_at, interconnect_at};

// Whether interconnect i is among the crossings above interconnect j, over at most n parents.
fn crosses_above(t: Tree, n: u8, j: u8, i: u8) -> bool
    requires { n ≤ 15 }
    ensures { result ≡ crosses i (above n t j) }
{
    if n == 0 {
        return false;
    }
    if j == 0 {
        return false;
    }
    let x = interconnect_at(t, j);
    let there = i == x.parent;
    there | crosses_above(t, n - 1, x.parent, i)
}

// Whether the path of accelerator b crosses interconnect i.
fn crosses_path(t: Tree, b: u8, i: u8) -> bool
    ensures { result ≡ crosses i (path t b) }
{
    let x = accelerator_at(t, b);
    let there = i == x.interconnect;
    there | crosses_above(t, 15, x.interconnect, i)
}

// The first interconnect above interconnect j, over at most n parents, that the path of accelerator b crosses too.
fn meet_above(t: Tree, n: u8, j: u8, b: u8) -> u8
    requires { n ≤ 15 }
    ensures { result ≡ (meeting (above n t j) (path t b)).interconnect }
{
    if n == 0 {
        return 0;
    }
    if j == 0 {
        return 0;
    }
    let x = interconnect_at(t, j);
    if crosses_path(t, b, x.parent) {
        return x.parent;
    }
    meet_above(t, n - 1, x.parent, b)
}

// The deepest interconnect that the paths of accelerators a and b both cross.
pub fn meet_of(t: Tree, a: u8, b: u8) -> u8
    ensures { result ≡ (meet_of t a b).interconnect }
{
    let x = accelerator_at(t, a);
    if crosses_path(t, b, x.interconnect) {
        return x.interconnect;
    }
    meet_above(t, 15, x.interconnect, b)
}
