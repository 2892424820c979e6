// The group of a position: put out where all ranks are decided, the taken set qualifies and its entries fit.
#![tactic(auto)]

mod group;

ghost use Rattle.std.specs.Prelude.{◌≤◌, length};
ghost use Rattle.ranks.specs.Held.{ranked_graph};
ghost use Rattle.qualify.specs.Qualify.{Asks};
ghost use Rattle.emit.specs.Emit.{Emitted};

use crate::group::{put_group, record_length};
use isolation::{Criterion, outgoing};
use qualify::qualifies;
use ranks::Ranked;
use state::State;

// The output has no room for a position's group, which wants so many entries.
#[derive(Clone, Copy, Debug, PartialEq, Eq)]
pub struct Full {
    pub wanted: usize,
}

// Puts the group of the position that the state and the work slice stand for right after the used entries of the output, where there is one and it fits,
// and answers how many entries are used then; else writes nothing of the output.
// Document 01, "A page", point 3: a group whose record exceeds the unused entries is not written, and so many are wanted; point 4: else it is. Its outgoing
// edges are counted from the sum of degrees that the state keeps.
pub fn emit(
    s: State,
    q: Criterion,
    g: &Ranked,
    work: &mut [u16],
    output: &mut [u16],
    used: usize,
) -> Result<Option<usize>, Full>
    requires { Asks (ranked_graph g.now) work.old q s × (used ≤ length output.old) }
    ensures { Emitted (ranked_graph g.now) work.old work.new q s used output.old output.new result }
{
    let n = g.lent.table.n;
    let k = s.taken;
    if !qualifies(s, q, g, work) {
        return Ok(None);
    }
    let entries = record_length(k);
    if output.len() - used < entries {
        return Err(Full { wanted: entries });
    }
    put_group(output, used, outgoing(k, s.sum), &work[n..n + k]);
    let end = used + entries;
    Ok(Some(end))
}
