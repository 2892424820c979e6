// The set query.
#![tactic(auto)]

ghost use Rattle.std.specs.Prelude.{◌≡◌, IfOk};
ghost use Rattle.model.specs.Calls.{refuse_query};
ghost use Rattle.refusal.specs.Numbers.{fault};
ghost use Rattle.graph.specs.Table.{lent};
ghost use Rattle.graph.specs.Held.{graph_in};
ghost use Rattle.isolation.specs.Numbers.{settings_of, settings_in};
ghost use Rattle.input.specs.Given.{InputAs};
ghost use Rattle.query.specs.Query.{QueryReady, Decided, answer_of, Answers};

use graph::{Lent, any_over};
use input::lent_input;
use isolation::{Criterion, Settings};
use larger::beaten;
use members::{common_neighbours, members_of, pairwise_joined, tally_of};
use refusal::Refusal;

// The set query's answer: the refusal number, 0 where the call is accepted, and 1 for yes, 0 for no.
#[repr(C)]
#[derive(Clone, Copy, Debug, PartialEq, Eq)]
pub struct SetAnswer {
    pub refusal: u32,
    pub yes: u32,
}

// An accepted set query tells whether the set qualifies.
impl From<Result<bool, Refusal>> for SetAnswer {
    ghost from_gives = { λ r a. a ≡ answer_of r };

    fn from(r: Result<bool, Refusal>) -> SetAnswer {
        match r {
            Ok(qualifies) => SetAnswer {
                refusal: 0,
                yes: u32::from(qualifies),
            },
            Err(refusal) => SetAnswer {
                refusal: u32::from(refusal),
                yes: 0,
            },
        }
    }
}

// The graph on n vertices that a table and a list of degrees hold and the criterion of the settings, for a set query with a work slice of `length` entries,
// or the refusal: 1, 2, 45, 4, 5, 42 and 6 to 11 of document 01, "Turned back by the input", and document 02, C-12, in this order. Reads the table, the degrees and
// the set.
fn lent_query<'a>(
    table: &'a [u64],
    degrees: &'a [u16],
    set: &[u8],
    length: usize,
    n: usize,
    s: Settings,
) -> Result<(Lent<'a>, Criterion), Refusal>
    ensures refused { fault result ≡ refuse_query (lent n table.now degrees.now) (settings_of s) set.now length }
    ensures held { IfOk result (InputAs n table.now degrees.now s) }
{
    let input = lent_input(table, degrees, n, s, set.len(), length)?;
    if any_over(1, set) {
        return Err(Refusal::SetByte);
    }
    Ok(input)
}

// Whether the set qualifies, where the call is not refused: document 002, definitions 1 and 2, a clique that is
// isolated and that no larger one of its kind contains. Reads the table, the degrees and the set; writes parts 1, 3 and 4 of work.
fn set_qualifies(lent: &Lent<'_>, set: &[u8], work: &mut [u16], q: Criterion) -> bool
    requires { QueryReady lent.now set.now work.old q }
    ensures { Decided (graph_in lent.now.table) set.now work.old work.new (settings_in q) result }
{
    let n = lent.table.n;
    let k = members_of(set, work);
    if k == 0 {
        return false; // the empty set is a no
    }
    let members = &work[n..n + k];
    if !pairwise_joined(&lent.table, members) {
        return false;
    }
    let y = tally_of(lent.degrees, members);
    if !q.isolates(y) {
        return false;
    }
    let m = common_neighbours(&lent.table, work, k);
    !beaten(lent, work, q, y, m)
}

// Whether the set qualifies, or the refusal of the call. Reads the table, the degrees and the set; writes work only where the call is accepted.
fn decide(
    table: &[u64],
    degrees: &[u16],
    set: &[u8],
    work: &mut [u16],
    n: usize,
    s: Settings,
) -> Result<bool, Refusal>
    ensures { Answers (lent n table.now degrees.now) set.now work.old work.new s.notion s.kind s.factor (answer_of result) }
{
    let (lent, q) = lent_query(table, degrees, set, work.len(), n, s)?;
    Ok(set_qualifies(&lent, set, work, q))
}

// The set query, for arguments of any length and contents: table, the degrees of its graph, set (n bytes, 1 for a member), a work slice, n, notion, kind
// and the factor c. Reads the table, the degrees and the set; writes work only where the call is accepted.
pub fn set_query(
    table: &[u64],
    degrees: &[u16],
    set: &[u8],
    work: &mut [u16],
    n: usize,
    notion: u32,
    kind: u32,
    c: u32,
) -> SetAnswer
    ensures { Answers (lent n table.now degrees.now) set.now work.old work.new notion kind c result }
{
    let s = Settings {
        notion,
        kind,
        factor: c,
    };
    SetAnswer::from(decide(table, degrees, set, work, n, s))
}
