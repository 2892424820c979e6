// The refusals of a position, 21 to 23: document 01, "Turned back by the state". They read the table, the degrees, the rank order and the position, and write only the
// memory that the state of the position is built in. Document 01, "The walk": a position has one byte a rank, 0 open, 1 taken and 2 left.
#![tactic(auto)]

ghost use Rattle.std.specs.Prelude.{◌≡◌, ◌*◌, ◌≤◌, length};
ghost use Rattle.model.specs.Below.{least};
ghost use Rattle.model.specs.Listing.{is};
ghost use Rattle.model.specs.Calls.{gap};
ghost use Rattle.ranks.specs.Held.{ranked_graph};
ghost use Rattle.position.specs.Position.{PositionJudged};

use graph::any_over;
use isolation::Criterion;
use ranks::Ranked;
use refusal::Refusal;
use state::State;
use state::marks::{LEFT, OPEN};

// The lowest open rank, and the position's length where all are decided. Reads the position up to it.
fn decided_count(position: &[u8]) -> usize
    ensures { result ≡ least (length position.now) (is 0 position.now) }
{
    position
        .iter()
        .position(|mark| *mark == OPEN)
        .unwrap_or(position.len())
}

// Refusal 22: whether a decided rank comes after an open one. Reads the position.
fn has_gap(position: &[u8]) -> bool
    ensures { result ≡ gap position.now }
{
    let start = decided_count(position);
    position[start..].iter().any(|mark| *mark != OPEN)
}

// The state of a position of n ranks, whatever its bytes, with its last decided rank opened, or the refusal of the position. Document 01, "Turned back
// by the state": 21 a byte over 2; 22 a decided rank after an open one; 23 the position with its last decided rank opened is dead, and fresh passes. For
// 23 the state is built in `memory`. Reads the position.
pub fn open(g: &Ranked, q: Criterion, position: &[u8], memory: &mut [u16]) -> Result<State, Refusal>
    requires { (length position.now ≡ g.now.lent.table.n) × (8 * g.now.lent.table.n ≤ length memory.old) }
    ensures { PositionJudged (ranked_graph g.now) q position.now memory.new result }
{
    if any_over(LEFT, position) {
        return Err(Refusal::PositionByte);
    }
    if has_gap(position) {
        return Err(Refusal::Gap);
    }
    let last = decided_count(position).saturating_sub(1);
    let s = State::rebuild(g, position, last, memory);
    if s.is_dead(q) {
        return Err(Refusal::DeadPosition);
    }
    Ok(s)
}
