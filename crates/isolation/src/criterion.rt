// What sets are judged by, and the isolation test over a set's numbers.
ghost use Rattle.std.specs.Prelude.{◌≤◌};

use crate::{Kind, Notion, Tally, outgoing};

// What sets are judged by, read off settings that are not refused: the notion, the kind, and the factor c, which is at most 1,024.
#[derive(Clone, Copy, Debug, PartialEq, Eq)]
pub struct Criterion {
    pub notion: Notion,
    pub kind: Kind,
    pub factor: u32,
    pub ghost fits: { factor ≤ 1024 },
}

impl Criterion {
    ghost use Rattle.std.specs.Prelude.{◌≡◌, ◌+◌};
    ghost use Rattle.model.specs.Groups.{within};
    ghost use Rattle.isolation.specs.Numbers.{isolated_of, hopeless_of};

    // Whether x is less than c × k, c being the factor: the one comparison with it. Document 002, section 2.1: "less than", never "at most".
    pub fn within(self, k: usize, x: usize) -> bool
        requires { k ≤ 1024 }
        ensures { result ≡ within self.factor k x }
    {
        // The library, as Rust's, has no From that leads from u32 to usize.
        let bound = (self.factor as usize) * k;
        x < bound
    }

    // The isolation test of a clique with the numbers t, a member of degree d having d - (k - 1) neighbours outside the k members. Document 002,
    // section 2.1: min, at least one member has less than c of them; avg, there are less than c × k in all; max, every member has less than c.
    pub fn isolates(self, t: Tally) -> bool
        requires { t.members ≤ 1024 }
        ensures { result ≡ isolated_of self t }
    {
        let others = t.members.saturating_sub(1);
        match self.notion {
            Notion::Min => self.within(1, t.least.saturating_sub(others)),
            Notion::Avg => self.within(t.members, outgoing(t.members, t.sum)),
            Notion::Max => self.within(1, t.largest.saturating_sub(others)),
        }
    }

    // Says yes only where no clique of the members with the numbers t and 1 to r further ones, each of degree low or more, is isolated: it is tested with r and,
    // under avg, with 1 of the least degree that they can have. Under min it says no.
    pub fn hopeless(self, t: Tally, r: usize, low: usize) -> bool
        requires { (t.members + r ≤ 1024) × (t.sum ≤ 67107840) × (low ≤ 65535) }
        ensures { result ≡ hopeless_of self t r low }
    {
        match self.notion {
            Notion::Min => false,
            Notion::Avg => {
                r == 0 || !self.isolates(t.grown(r, low)) && !self.isolates(t.grown(1, low))
            }
            Notion::Max => r == 0 || !self.isolates(t.grown(r, low)),
        }
    }
}
