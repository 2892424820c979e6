// The refusals that page and set query have alike: 1, 2, 45, 4, 5, 42 and 6 to 10. Document 01, "Turned back by the input", and document 02, C-12 and C-15.
#![tactic(auto)]

ghost use Rattle.std.specs.Prelude.{◌≡◌, IfOk};
ghost use Rattle.model.specs.Calls.{refuse_input};
ghost use Rattle.refusal.specs.Numbers.{fault};
ghost use Rattle.graph.specs.Table.{lent};
ghost use Rattle.isolation.specs.Numbers.{settings_of};
ghost use Rattle.input.specs.Given.{InputAs};

use graph::Lent;
use isolation::{Criterion, Settings};
use refusal::Refusal;

// The graph that a table, a list of degrees and n hold and the criterion of the settings, for a call with a position or set of `bytes` bytes and a work slice
// of `work` entries, or the refusal: 1, 2, 45, 4 and 5 of the table, 42 of the list, 6 to 8 of the settings, 9 and 10 of the two lengths, in this order. Reads the table
// and the list.
pub fn lent_input<'a>(
    table: &'a [u64],
    degrees: &'a [u16],
    n: usize,
    s: Settings,
    bytes: usize,
    work: usize,
) -> Result<(Lent<'a>, Criterion), Refusal>
    ensures refused { fault result ≡ refuse_input (lent n table.now degrees.now) (settings_of s) bytes work }
    ensures held { IfOk result (InputAs n table.now degrees.now s) }
{
    let lent = Lent::new(table, degrees, n)?;
    let criterion = s.check()?;
    if bytes != n {
        return Err(Refusal::BytesLength);
    }
    if work < 8 * n {
        return Err(Refusal::WorkLength);
    }
    Ok((lent, criterion))
}
