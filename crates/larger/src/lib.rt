// The search for a larger isolated clique over marks, and whether a clique is maximal of its kind. A candidate that cannot be added any more has the depth at
// which it dropped out as its mark, so that nothing is copied and the candidates that are still in are counted; the bound goes by their number and by a degree
// that none of them is below.
#![tactic(auto)]

ghost use Rattle.std.specs.Prelude.{◌≡◌, ◌*◌, ◌<◌, ◌≤◌, length};
ghost use Rattle.theory.specs.Search.{joined_all};
ghost use Rattle.theory.specs.Marks.{all_in, BringsBack};
ghost use Rattle.graph.specs.Held.{graph_in};
ghost use Rattle.graph.specs.Vertices.{VerticesOf};
ghost use Rattle.larger.specs.Places.{marks_of, Dropped};
ghost use Rattle.larger.specs.Search.{Lowest, Room, Searched, RoomWith, SearchedWith, RoomBelow, SearchedBelow, Posed, Found, Tested};

use graph::{Lent, Table};
use isolation::{Criterion, Kind, Notion, Tally};

// Whether v is joined to each of the vertices. Reads v's row of the table at them, up to the first that is not joined.
pub fn joined_to_all(table: &Table<'_>, v: usize, vertices: &[u16]) -> bool
    requires vertex { v < table.now.n }
    requires vertices { VerticesOf table.now.n vertices.now }
    ensures { result ≡ joined_all (graph_in table.now) v vertices.now }
{
    for u in vertices {
        if !table.joined(v, usize::from(*u)) {
            return false;
        }
    }
    true
}

// A number that no degree of the candidates is below, here the least of them. Reads the candidates and their degrees.
fn least_degree(lent: &Lent<'_>, candidates: &[u16]) -> usize
    requires { VerticesOf lent.now.table.n candidates.now }
    ensures { Lowest (graph_in lent.now.table) candidates.now result }
{
    let mut low = usize::from(u16::MAX);
    for v in candidates {
        let d = lent.degree(usize::from(*v));
        low = low.min(d);
    }
    low
}

// Adds the member v at the depth, while all these candidates are in, whatever marks stand there: marks with the depth each that is not joined to v and with 0
// each other one, and says how many have dropped out. Reads v's row of the table at the candidates; writes their marks, which stand in `marks` in the same
// order.
fn mark_first(
    table: &Table<'_>,
    candidates: &[u16],
    marks: &mut [u16],
    v: usize,
    depth: usize,
) -> usize
    requires member { (v < table.now.n) × (1 ≤ depth) × (depth ≤ 1024) }
    requires vertices { VerticesOf table.now.n candidates.now }
    requires beside { length candidates.now ≡ length marks.old }
    ensures { Dropped (graph_in table.now) candidates.now all_in marks.new v depth result }
{
    // A copy made here, so that the loop below keeps the place of v's row in a register.
    let table = *table;
    let depth = depth as u16;
    let mut out = 0;
    for (e, first_mark) in marks.iter_mut().enumerate() {
        if table.joined(v, usize::from(candidates[e])) {
            *first_mark = 0;
        } else {
            *first_mark = depth;
            out += 1;
        }
    }
    out
}

// Adds the member v at the depth: marks with it each of the candidates that is still in and not joined to v, and says how many have dropped out so. Reads v's
// row of the table at the candidates; writes their marks, which stand in `marks` in the same order.
fn drop_out(
    table: &Table<'_>,
    candidates: &[u16],
    marks: &mut [u16],
    v: usize,
    depth: usize,
) -> usize
    requires member { (v < table.now.n) × (1 ≤ depth) × (depth ≤ 1024) }
    requires vertices { VerticesOf table.now.n candidates.now }
    requires beside { length candidates.now ≡ length marks.old }
    ensures { Dropped (graph_in table.now) candidates.now (marks_of marks.old) marks.new v depth result }
{
    // A copy made here, so that the loop below keeps the place of v's row in a register.
    let table = *table;
    let depth = depth as u16;
    let mut out = 0;
    for (e, mark) in marks.iter_mut().enumerate() {
        if !table.joined(v, usize::from(candidates[e])) && *mark == 0 {
            *mark = depth;
            out += 1;
        }
    }
    out
}

// Returns from the depth: brings back exactly those of the candidates with these marks that dropped out there, and keeps every other mark (`BringsBack`, with
// the law `brings_back_exactly`; `marks_returned` says it of all candidates). Nothing is copied. Writes the marks.
fn bring_back(marks: &mut [u16], depth: usize)
    requires { depth ≤ 1024 }
    ensures { BringsBack depth (length marks.old) (marks_of marks.old) (marks_of marks.new) }
{
    let depth = depth as u16;
    for mark in marks.iter_mut() {
        if *mark == depth {
            *mark = 0;
        }
    }
}

// Searches for a larger isolated clique than that of the members, which have the numbers y: with some of those among the candidates i to m - 1 of part 3 of
// work that are still in, of which there are `left`; no degree of them is below low, which is for the caller to see to. Each is tried in turn as the next
// member, with the candidates after it: the candidates left fall. It is given up where nothing larger can be isolated by those after a candidate that was tried
// in vain. Reads the table and the degrees; writes the marks of the candidates, and leaves them as they were where it answers no.
#[cycle(search)]
fn search(
    lent: &Lent<'_>,
    work: &mut [u16],
    q: Criterion,
    y: Tally,
    low: usize,
    i: usize,
    m: usize,
    left: usize,
) -> bool
    requires parts { 5 * lent.now.table.n ≤ length work.old }
    requires state { Room lent.now.table.n work.old q y low i m left }
    ensures { Searched (graph_in lent.now.table) work.old work.new q y low i m result }
{
    let n = lent.table.n;
    let mut still = left;
    for j in i..m {
        if work[4 * n + j] == 0 {
            let v = usize::from(work[3 * n + j]);
            still -= 1;
            if search_with(lent, work, q, y, low, v, j + 1, m, still) {
                return true;
            }
            if q.hopeless(y, still, low) {
                return false;
            }
        }
    }
    false
}

// The same with v added to the members, which is the candidate right before place i: the set with v may be isolated, or a larger one with some of the
// candidates i to m - 1. Those that are not joined to v drop out for the search among them, and a return brings them back; where none
// does, there is none to bring back.
// Documents 000, section 3.2, and 002, section 2.2.3, screen under max without a search, by a clique of x + 1 common neighbours of degree at most size + c + x; that drops groups
// that are maximal, since x + 2 are needed, so the larger set's own isolation test decides here.
#[cycle(search)]
fn search_with(
    lent: &Lent<'_>,
    work: &mut [u16],
    q: Criterion,
    y: Tally,
    low: usize,
    v: usize,
    i: usize,
    m: usize,
    left: usize,
) -> bool
    requires parts { 5 * lent.now.table.n ≤ length work.old }
    requires state { RoomWith lent.now.table.n work.old q y low v i m left }
    ensures { SearchedWith (graph_in lent.now.table) work.old work.new q y low v i m result }
{
    let d = lent.degree(v);
    let z = y.with_member(d);
    if q.isolates(z) {
        return true;
    }
    if q.hopeless(z, left, low) {
        return false;
    }
    let n = lent.table.n;
    let (front, marks) = work.split_at_mut(4 * n);
    let candidates = &front[3 * n + i..3 * n + m];
    let out = drop_out(&lent.table, candidates, &mut marks[i..m], v, z.members);
    if out == 0 {
        return search(lent, work, q, z, low, i, m, left);
    }
    search_below(lent, work, q, z, low, i, m, left - out)
}

// The same once the last of the members, which have the numbers z, was added and the candidates that are not joined to it have dropped out at its depth: as
// many as are left may be too few. Returns from that depth where it answers no: exactly those that dropped out there are brought back.
#[cycle(search)]
fn search_below(
    lent: &Lent<'_>,
    work: &mut [u16],
    q: Criterion,
    z: Tally,
    low: usize,
    i: usize,
    m: usize,
    left: usize,
) -> bool
    requires parts { 5 * lent.now.table.n ≤ length work.old }
    requires state { RoomBelow lent.now.table.n work.old q z low i m left }
    ensures { SearchedBelow (graph_in lent.now.table) work.old work.new q z low i m left result }
{
    if !q.hopeless(z, left, low) && search(lent, work, q, z, low, i, m, left) {
        return true;
    }
    let n = lent.table.n;
    bring_back(&mut work[4 * n + i..4 * n + m], z.members);
    false
}

// Whether some larger set than a clique with the numbers y is an isolated clique, where the first m entries of part 3 of work are its common neighbours, which
// are all in. The first of them is often enough, so it is tried before any mark is written. Reads the table and the degrees; writes the
// candidates' marks alone.
fn search_all(lent: &Lent<'_>, work: &mut [u16], q: Criterion, y: Tally, m: usize) -> bool
    requires parts { 5 * lent.now.table.n ≤ length work.old }
    requires posed { Posed (graph_in lent.now.table) work.old q y m }
    ensures { Found (graph_in lent.now.table) work.old work.new q y m result }
{
    if m == 0 {
        return false;
    }
    if q.hopeless(y, m, 0) {
        return false;
    }
    let n = lent.table.n;
    let v = usize::from(work[3 * n]);
    let d = lent.degree(v);
    let first = y.with_member(d);
    if q.isolates(first) {
        return true;
    }
    let low = least_degree(lent, &work[3 * n + 1..3 * n + m]);
    // the first is in too
    work[4 * n] = 0;
    let (front, marks) = work.split_at_mut(4 * n);
    let candidates = &front[3 * n + 1..3 * n + m];
    let out = mark_first(&lent.table, candidates, &mut marks[1..m], v, first.members);
    if search_below(lent, work, q, first, low, 1, m, m - 1 - out) {
        return true;
    }
    if q.hopeless(y, m - 1, low) {
        return false;
    }
    search(lent, work, q, y, low, 1, m, m - 1)
}

// Whether a clique with the numbers y is not maximal of its kind, where the first m entries of part 3 of work are its common neighbours. Document 002,
// definition 2 (kind 0, maximal isolated): a larger isolated clique is searched for under avg and max; definition 1 (kind 1, isolated maximal): a larger
// clique, so a common neighbour decides, and under min it decides for both kinds (section 2.1). Reads the table and the degrees; writes the first m entries
// of part 4 of work, the candidates' marks, alone.
pub fn beaten(lent: &Lent<'_>, work: &mut [u16], q: Criterion, y: Tally, m: usize) -> bool
    requires parts { 5 * lent.now.table.n ≤ length work.old }
    requires posed { Posed (graph_in lent.now.table) work.old q y m }
    ensures { Tested (graph_in lent.now.table) work.old work.new q y m result }
{
    if q.kind == Kind::IsolatedMaximal || q.notion == Notion::Min {
        return 0 < m;
    }
    search_all(lent, work, q, y, m)
}
