// The search of the inclusion test: it finds pairs of a sender's state and the receiver's base state, which trees give, takes them one by
// one, and ends at the first that fails, or when none is left.
// specs/Search has what it is lent and what it answers.
ghost use Rattle.std.specs.Prelude.{ℕ, List};
ghost use Rattle.paper.specs.Limits.{limits};
ghost use Rattle.inclusion.specs.Search.{Searches, Searchable};

use pairs::{Queue, Sizes};

// Takes pair after pair, until one fails or all are taken; tells the place of the one that fails.
pub(crate) fn search(
    marks: &[u16],
    s: &[u16],
    r: &[u16],
    z: Sizes,
    work: &mut [u16],
) -> Option<usize>
    requires { (mB : List ℕ) × Searchable limits marks.now s.now mB r.now z work.old }
    ensures { Searches limits marks.now s.now r.now z work.old
        work.new result }
{
    let mut queue = Queue {
        sizes: z,
        work,
        count: 0,
    };
    steps::leaves(s, r, &mut queue);
    steps::close_eps(s, &mut queue, 0);
    for i in 0..z.pairs {
        if queue.count <= i {
            return None;
        }
        let pair = queue.take(i);
        if moves::fails(marks, queue.slice(), pair) {
            return Some(i);
        }
        let from = queue.count;
        steps::join_all(s, r, &mut queue, pair);
        steps::close_eps(s, &mut queue, from);
    }
    None
}
