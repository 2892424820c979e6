// The walk in steps: the position, the state and the work slice changed by one step. A step looks at the taken vertices and at what it decides or opens,
// and at nothing else of the position.
#![tactic(auto)]

ghost use Rattle.std.specs.Prelude.{◌≡◌, false, ◌<◌};
ghost use Rattle.model.specs.Walk.{finished, advance, retreat};
ghost use Rattle.model.specs.Listing.{apart};
ghost use Rattle.model.specs.Calls.{reopened};
ghost use Rattle.ranks.specs.Held.{ranked_graph};
ghost use Rattle.isolation.specs.Numbers.{settings_in};
ghost use Rattle.state.specs.State.{Stands};
ghost use Rattle.walk.specs.Walk.{Trimmed, Moved, Walking, Stepped};

use isolation::Criterion;
use ranks::Ranked;
use state::State;
use state::marks::{LEFT, OPEN, TAKEN};

// Document 01, "The walk": the lowest open rank becomes taken.
pub fn take(s: State, g: &Ranked, position: &mut [u8], work: &mut [u16]) -> State
    requires { Stands (ranked_graph g.now) position.old work.old s × (s.decided < g.now.lent.table.n) }
    ensures { Moved (ranked_graph g.now) (advance position.old) position.new work.new result }
{
    let d = s.decided;
    position[d] = TAKEN;
    s.push_taken(g, work)
}

// How many of some ranks, lowest first, stay when rank r and all after it open and k ranks are taken before it: none where k is 0, since then there
// is no pivot. Reads those that do not stay, and one more.
fn trim(ranks: &[u16], k: usize, r: usize) -> usize
    ensures { Trimmed ranks.now k r result }
{
    if k == 0 {
        return 0;
    }
    ranks
        .iter()
        .rposition(|rank| usize::from(*rank) < r)
        .map_or(0, |last| last + 1)
}

// Document 01, "The walk": the highest taken rank becomes left and all ranks after it become open. The taken ranks before it are pairwise adjacent,
// as long as the position with its last decided rank opened was not dead.
pub fn back(s: State, g: &Ranked, position: &mut [u8], work: &mut [u16]) -> State
    requires { Stands (ranked_graph g.now) position.old work.old s × (0 < s.taken) × (apart (ranked_graph g.now) (reopened position.old) ≡ false) }
    ensures { Moved (ranked_graph g.now) (retreat position.old) position.new work.new result }
{
    let n = g.lent.table.n;
    let d = s.decided;
    let k = s.taken - 1;
    let r = usize::from(work[k]);
    let last = usize::from(work[n + k]);
    let last_degree = g.lent.degree(last);
    let start = 2 * n;
    let end = start + s.left;
    let left = trim(&work[start..end], k, r);
    let rest = State {
        decided: r,
        taken: k,
        left,
        sum: s.sum - last_degree,
        apart: false,
    };
    let next = r + 1;
    position[r] = LEFT;
    position[next..d].fill(OPEN);
    rest.push_left(&g.lent.table, g.order, work)
}

// One step from a position that is not finished. Document 01, "The walk": live with an open rank, the lowest open rank is taken; otherwise the
// highest taken rank is left.
pub fn step(s: State, g: &Ranked, q: Criterion, position: &mut [u8], work: &mut [u16]) -> State
    requires walking { Walking (ranked_graph g.now) (settings_in q) position.old work.old s }
    requires unfinished { finished position.old ≡ false }
    ensures { Stepped (ranked_graph g.now) (settings_in q) position.old position.new work.new result }
{
    if s.is_dead(q) {
        return back(s, g, position, work);
    }
    if s.decided < g.lent.table.n {
        return take(s, g, position, work);
    }
    back(s, g, position, work)
}
