// Whether the taken set of a position qualifies, from what the walk's state keeps: no set is built and no vertex outside it is looked at but the left
// neighbours of the pivot.
#![tactic(auto)]

ghost use Rattle.std.specs.Prelude.{◌≡◌};
ghost use Rattle.ranks.specs.Held.{ranked_graph};
ghost use Rattle.qualify.specs.Qualify.{Sifts, Sifted, read_tally, TallyFits, Asks, SaysQualifies};

use graph::{Lent, Table};
use isolation::{Criterion, Tally};
use larger::{beaten, joined_to_all};
use ranks::Ranked;
use state::State;

// Writes those of the left neighbours of the pivot, whose ranks are the first `left` entries of part 2 of work, that are joined to each taken vertex, the
// first `taken` entries of part 1, into part 3, and says how many. Keeps the state's entries of work.
// A larger clique is a clique with common neighbours of its members added (the common neighbourhood of document 002, section 2.2.3). With all ranks
// decided each of these is left.
fn candidates(g: &Ranked, work: &mut [u16], taken: usize, left: usize) -> usize
    requires { Sifts (ranked_graph g.now) work.old taken left }
    ensures { Sifted (ranked_graph g.now) work.old work.new taken left result }
{
    let n = g.lent.table.n;
    let end = n + taken;
    let mut m: usize = 0;
    let (front, candidates) = work.split_at_mut(3 * n);
    for rank in &front[2 * n..2 * n + left] {
        let v = g.vertex_at(usize::from(*rank));
        if joined_to_all(&g.lent.table, v, &front[n..end]) {
            candidates[m] = v as u16;
            m += 1;
        }
    }
    m
}

// The numbers of the taken set, which has these members: how many and the sum of their degrees are kept in the state, the first member has the least
// degree and the last the largest. Reads these two members and their degrees.
// Document 002, section 2.2: vertices are in order of degree, and the pivot of a set is the lowest of it.
fn numbers(s: State, g: &Ranked, members: &[u16]) -> Tally
    requires { TallyFits g.now.lent.table.n members.now s }
    ensures { result ≡ read_tally (ranked_graph g.now) members.now s }
{
    let first = usize::from(members[0]);
    let last = usize::from(members[s.taken - 1]);
    Tally {
        members: s.taken,
        sum: s.sum,
        least: g.lent.degree(first),
        largest: g.lent.degree(last),
    }
}

// Whether all ranks are decided and the taken set qualifies, of the position that the state and the work slice stand for. Writes parts 3 and 4 of work.
// The notions are document 002's, section 2.1; kind 0 is its definition 2 (maximal isolated) and kind 1 its definition 1 (isolated maximal).
// A larger set is searched for, not screened by degree as in documents 000, section 3.2, and 002, section 2.2.3: that test is one vertex too
// generous, and in a star with three leaves at factor 2 it discards all three groups (document 01, "Where the papers tempt").
pub fn qualifies(s: State, q: Criterion, g: &Ranked, work: &mut [u16]) -> bool
    requires { Asks (ranked_graph g.now) work.old q s }
    ensures { SaysQualifies (ranked_graph g.now) work.old work.new q s result }
{
    let n = g.lent.table.n;
    if s.decided < n {
        return false;
    }
    if s.taken == 0 {
        return false;
    }
    if s.apart {
        return false;
    }
    let end = n + s.taken;
    let y = numbers(s, g, &work[n..end]);
    if !q.isolates(y) {
        return false;
    }
    let m = candidates(g, work, s.taken, s.left);
    // Copies made here field by field, so that the page's loop keeps its own in registers at every step.
    let lent = Lent {
        table: Table {
            numbers: g.lent.table.numbers,
            n,
            width: g.lent.table.width,
        },
        degrees: g.lent.degrees,
    };
    let criterion = Criterion {
        notion: q.notion,
        kind: q.kind,
        factor: q.factor,
    };
    !beaten(&lent, work, criterion, y, m)
}
