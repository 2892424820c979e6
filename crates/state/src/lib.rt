// The state of a page: how it stands for a position, rebuilt from one, and with the next rank taken or left. It looks at the taken vertices and at the
// rank that is decided, and at nothing else of the position.
#![tactic(auto)]

pub mod marks;

ghost use Rattle.std.specs.Prelude.{◌≡◌, false, not, ◌+◌, ◌-◌, ◌*◌, ◌≤◌, ◌<◌, length, get_or};
ghost use Rattle.model.specs.Below.{any, least};
ghost use Rattle.model.specs.Listing.{is};
ghost use Rattle.model.specs.Calls.{over, gap, reopened};
ghost use Rattle.graph.specs.Held.{graph_in};
ghost use Rattle.graph.specs.Vertices.{VerticesOf};
ghost use Rattle.ranks.specs.Ranks.{OrderOf};
ghost use Rattle.ranks.specs.Held.{ranked_graph};
ghost use Rattle.state.specs.State.{Stands, StandsOpen, SaysFinished, SaysDead, fresh};
ghost use Rattle.state.specs.NextRank.{Pushed, LeftOnceTaken};

use crate::marks::{OPEN, TAKEN};
use graph::Table;
use isolation::Criterion;
use ranks::{Ranked, vertex_at};

// What a page keeps beside the position and the work slice: how many ranks are decided, how many of them are taken, how many neighbours of the
// pivot are left, the sum of the taken vertices' degrees, and whether two taken ranks are not adjacent.
#[derive(Clone, Copy)]
pub struct State {
    pub decided: usize,
    pub taken: usize,
    pub left: usize,
    pub sum: usize,
    pub apart: bool,
}

// Whether some of the vertices is not joined to v. Reads them from the last, up to one that is not: a vertex that misses only the last one taken costs one test.
fn misses_one(table: &Table, vertices: &[u16], v: usize) -> bool
    requires vertex { v < table.now.n }
    requires vertices { VerticesOf table.now.n vertices.now }
    ensures { result ≡ any (length vertices.now) (λ j. not ((graph_in table.now).joined (get_or vertices.now j 0) v)) }
{
    for u in vertices.iter().rev() {
        if !table.joined(usize::from(*u), v) {
            return true;
        }
    }
    false
}

impl State {
    // The state of the fresh position, in which nothing is decided.
    pub fn fresh() -> State
        ensures { result ≡ fresh }
    {
        State {
            decided: 0,
            taken: 0,
            left: 0,
            sum: 0,
            apart: false,
        }
    }

    // Whether the walk is finished. Document 01, "The walk": finished is all 2, so all ranks are decided and nothing is taken.
    pub fn finished(self, n: usize) -> bool
        ensures { SaysFinished n self result }
    {
        n <= self.decided && self.taken == 0
    }

    // Whether the position is dead. Document 01, "The walk": two taken ranks are not adjacent, or something is taken and at least c neighbours of the
    // pivot are left. The pivot has the least outside count of a clique, so then no notion of document 002, section 2.1, can hold. Reads the factor of
    // the criterion.
    pub fn is_dead(self, q: Criterion) -> bool
        ensures { SaysDead q self result }
    {
        if self.apart {
            return true;
        }
        if self.taken == 0 {
            return false;
        }
        !q.within(1, self.left)
    }

    // How many neighbours of the pivot are left once the next rank, d, is taken; part 2 of work then holds them, lowest first. Document 01, "Graph and
    // ranks", after documents 000, section 2, and 002, section 2.2: the pivot is the member of lowest rank, one of least degree. So it stays where
    // something is taken. Else it is d, and the ranks below d, which are all left, are looked through once.
    fn left_once_taken(self, g: &Ranked, work: &mut [u16]) -> usize
        requires { StandsOpen (ranked_graph g.now) work.old self }
        ensures { LeftOnceTaken (ranked_graph g.now) work.old self work.new result }
    {
        if 0 < self.taken {
            return self.left;
        }
        let d = self.decided;
        let v = g.vertex_at(d);
        let start = 2 * g.lent.table.n;
        let mut m: usize = 0;
        for i in 0..d {
            let u = g.vertex_at(i);
            if g.lent.table.joined(v, u) {
                work[start + m] = i as u16;
                m += 1;
            }
        }
        m
    }

    // The state with the next rank taken: its vertex is tested against the taken ones. Does not touch the position. Inlined, since a call would make a step
    // longer by a quarter.
    #[inline(always)]
    pub fn push_taken(self, g: &Ranked, work: &mut [u16]) -> State
        requires { StandsOpen (ranked_graph g.now) work.old self }
        ensures { Pushed (ranked_graph g.now) 1 work.old self work.new result }
    {
        let n = g.lent.table.n;
        let d = self.decided;
        let k = self.taken;
        let v = g.vertex_at(d);
        let degree = g.lent.degree(v);
        let end = n + k;
        // `|`, and no branch: a step takes no rank where two that are taken are apart already.
        let apart = self.apart | misses_one(&g.lent.table, &work[n..end], v);
        let left = self.left_once_taken(g, work);
        work[k] = d as u16;
        work[end] = v as u16;
        State {
            decided: d + 1,
            taken: k + 1,
            left,
            sum: self.sum + degree,
            apart,
        }
    }

    // The state with the next rank left: a neighbour of the pivot goes onto part 2. Reads the table and the slice of its rank order. Does not touch the position.
    pub fn push_left(self, table: &Table, order: &[u16], work: &mut [u16]) -> State
        requires { OrderOf table.now.n table.now.numbers.now order.now × StandsOpen (graph_in table.now) work.old self }
        ensures { Pushed (graph_in table.now) 2 work.old self work.new result }
    {
        let n = table.n;
        let d = self.decided;
        let m = self.left;
        let passed = State {
            decided: d + 1,
            ..self
        };
        if self.taken == 0 {
            return passed;
        }
        let p = usize::from(work[n]);
        let v = vertex_at(order, n, d);
        if table.joined(p, v) {
            work[2 * n + m] = d as u16;
            return State {
                left: m + 1,
                ..passed
            };
        }
        passed
    }

    // The state with the next rank decided as the mark says. Document 01, "The walk": 1 is taken and 2 is left.
    fn push(self, mark: u8, g: &Ranked, work: &mut [u16]) -> State
        requires { StandsOpen (ranked_graph g.now) work.old self × (0 < mark) × (mark ≤ 2) }
        ensures { Pushed (ranked_graph g.now) mark work.old self work.new result }
    {
        if mark == TAKEN {
            return self.push_taken(g, work);
        }
        self.push_left(&g.lent.table, g.order, work)
    }

    // The state of a position that passes refusals 21 and 22, with its last decided rank opened; `upto` is that rank, and 0 where all are open. Goes once
    // through the ranks below it, and writes the work slice alone.
    pub fn rebuild(g: &Ranked, position: &[u8], upto: usize, work: &mut [u16]) -> State
        requires { (length position.now ≡ g.now.lent.table.n) × (8 * g.now.lent.table.n ≤ length work.old) × (over 2 position.now ≡ false) × (gap position.now ≡ false) × (upto ≡ least (length position.now) (is 0 position.now) - 1) }
        ensures { Stands (ranked_graph g.now) (reopened position.now) work.new result }
    {
        let mut s = State::fresh();
        for mark in &position[..upto] {
            s = s.push(*mark, g, work);
        }
        s
    }

    // The state of a position, from the state that stands for it with its last decided rank opened: its three parts go from `memory` into the work slice,
    // and that rank, which comes next, is decided as the position has it. A fresh position has none.
    pub fn go_on(self, g: &Ranked, position: &[u8], memory: &[u16], work: &mut [u16]) -> State
        requires { Stands (ranked_graph g.now) (reopened position.now) memory.now self × (8 * g.now.lent.table.n ≤ length work.old) × (over 2 position.now ≡ false) }
        ensures { Stands (ranked_graph g.now) position.now work.new result }
    {
        let n = g.lent.table.n;
        let d = self.decided;
        let end = 3 * n;
        work[..end].copy_from_slice(&memory[..end]);
        if d == n {
            return self;
        }
        let mark = position[d];
        if mark == OPEN {
            return self;
        }
        self.push(mark, g, work)
    }
}
