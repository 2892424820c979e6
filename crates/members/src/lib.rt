// The members of a set that is lent as bytes: listed in the work slice, whether they are pairwise joined, their numbers and their common neighbours.
#![tactic(auto)]

ghost use Rattle.std.specs.Prelude.{◌≡◌, ◌≤◌, length};
ghost use Rattle.model.specs.Below.{passing};
ghost use Rattle.model.specs.Listing.{is};
ghost use Rattle.theory.specs.Search.{joined_all};
ghost use Rattle.graph.specs.Held.{graph_in};
ghost use Rattle.graph.specs.Vertices.{VerticesOf};
ghost use Rattle.theory.specs.Parts.{part, members_at, CandidatesIn};
ghost use Rattle.members.specs.Members.{MembersFit, HoldsMembers, MembersIn, pairwise, Tallies};

use graph::{Table, degree_at};
use isolation::Tally;
use larger::joined_to_all;

// Writes the vertices whose byte in set is 1 into part 1 of work, lowest first, and gives how many they are; the set has a byte for each vertex. Reads set.
pub fn members_of(set: &[u8], work: &mut [u16]) -> usize
    requires { MembersFit (length set.now) work.old }
    ensures { MembersIn (length set.now) (passing (length set.now) (is 1 set.now)) work.old work.new result }
{
    let n = set.len();
    let mut k = 0;
    for (v, byte) in set.iter().enumerate() {
        if *byte == 1 {
            work[n + k] = v as u16;
            k += 1;
        }
    }
    k
}

// Whether the members are pairwise joined: each is joined to all before it. Reads the table and the members.
pub fn pairwise_joined(table: &Table<'_>, members: &[u16]) -> bool
    requires { VerticesOf table.now.n members.now }
    ensures { result ≡ pairwise (graph_in table.now) members.now }
{
    for (i, v) in members.iter().enumerate() {
        if !joined_to_all(table, usize::from(*v), &members[..i]) {
            return false;
        }
    }
    true
}

// The numbers of the set with these members, by a list of the degrees of all vertices. Reads both.
pub fn tally_of(degrees: &[u16], members: &[u16]) -> Tally
    requires degrees_fit { length degrees.now ≤ 1024 }
    requires members_fit { length members.now ≤ length degrees.now }
    requires vertices { VerticesOf (length degrees.now) members.now }
    ensures { Tallies (length degrees.now) degrees.now members.now result }
{
    let mut y = Tally {
        members: 0,
        sum: 0,
        least: degrees.len(), // no degree is over the number of vertices
        largest: 0,
    };
    for v in members {
        y = y.with_member(degree_at(degrees, usize::from(*v)));
    }
    y
}

// Writes the vertices that are joined to each of the k members in part 1 of work into part 3, lowest first, and gives how many they are; with no loops
// in the graph they are the members' common neighbours, of which a larger clique is made (the common neighbourhood of document 002, section 2.2.3).
// Reads the table at the members; keeps the state's entries of work, these members among them.
pub fn common_neighbours(table: &Table<'_>, work: &mut [u16], k: usize) -> usize
    requires { HoldsMembers table.now.n work.old k }
    ensures { CandidatesIn table.now.n k (passing table.now.n (λ v. joined_all (graph_in table.now) v (part work.old (members_at table.now.n) k))) work.old work.new result }
{
    let n = table.n;
    let end = n + k;
    let mut m = 0;
    for v in 0..n {
        if joined_to_all(table, v, &work[n..end]) {
            work[3 * n + m] = v as u16;
            m += 1;
        }
    }
    m
}
