// The settings of a call, the criterion that they are read as, and a set's numbers.
#![tactic(auto)]

ghost use Rattle.std.specs.Prelude.{◌≡◌, ◌+◌, ◌-◌, ◌*◌, ◌≤◌, IfOk};
ghost use Rattle.model.specs.Calls.{refuse_settings};
ghost use Rattle.refusal.specs.Numbers.{fault};
ghost use Rattle.isolation.specs.Numbers.{settings_of, settings_in, notion_of, kind_of, with_member, grown_of, FactorFits, CriterionOf};

pub mod criterion;

pub use crate::criterion::Criterion;
use refusal::Refusal;

// What is held against the factor c, document 002, section 2.1: of the members' outside counts the least, their sum, or the largest.
#[derive(Clone, Copy, Debug, PartialEq, Eq)]
pub enum Notion {
    Min,
    Avg,
    Max,
}

// Which larger sets keep an isolated clique off the list: any larger isolated clique (maximal isolated), or any larger clique (isolated maximal).
#[derive(Clone, Copy, Debug, PartialEq, Eq)]
pub enum Kind {
    MaximalIsolated,
    IsolatedMaximal,
}

// What a call fixes beside the graph: notion 0 min, 1 avg, 2 max; kind 0 maximal isolated, 1 isolated maximal; the factor c. They are numbers, not
// the enums above: C hands over any numbers, and the refusals 6 to 8 of them come only after those of the graph. Settings that are not refused are read as
// a `Criterion`.
#[derive(Clone, Copy, Debug, PartialEq, Eq)]
pub struct Settings {
    pub notion: u32,
    pub kind: u32,
    pub factor: u32,
}

// A set's numbers: how many members, the sum of their degrees, the least and the largest of them.
#[derive(Clone, Copy, Debug, PartialEq, Eq)]
pub struct Tally {
    pub members: usize,
    pub sum: usize,
    pub least: usize,
    pub largest: usize,
}

// The largest factor that is not refused, document 01.
const LARGEST_FACTOR: u32 = 1024;

impl Settings {
    // The notion by its number in document 01; every number over 1 is read as max, of which the settings that pass the check have only 2.
    pub fn notion(self) -> Notion
        ensures { result ≡ notion_of self.notion }
    {
        match self.notion {
            0 => Notion::Min,
            1 => Notion::Avg,
            _ => Notion::Max,
        }
    }

    // The kind by its number in document 01; every number over 0 is read as isolated maximal, of which the settings that pass the check have only 1.
    pub fn kind(self) -> Kind
        ensures { result ≡ kind_of self.kind }
    {
        match self.kind {
            0 => Kind::MaximalIsolated,
            _ => Kind::IsolatedMaximal,
        }
    }

    // The criterion that settings with any notion and kind numbers are read as.
    pub fn criterion(self) -> Criterion
        requires { FactorFits self }
        ensures { CriterionOf self result }
    {
        Criterion {
            notion: self.notion(),
            kind: self.kind(),
            factor: self.factor,
        }
    }

    // The criterion of settings that pass, or the refusal of the others: 6 to 8 of document 01, "Turned back by the input", lowest number first.
    pub fn check(self) -> Result<Criterion, Refusal>
        ensures refused { fault result ≡ refuse_settings (settings_of self) }
        ensures held { IfOk result (λ q. settings_in q ≡ settings_of self) }
    {
        if 2 < self.notion {
            return Err(Refusal::Notion);
        }
        if 1 < self.kind {
            return Err(Refusal::Kind);
        }
        if self.factor == 0 || LARGEST_FACTOR < self.factor {
            return Err(Refusal::Factor);
        }
        Ok(self.criterion())
    }
}

impl Tally {
    // The numbers with one more member, of degree d.
    pub fn with_member(self, d: usize) -> Tally
        requires { (self.members ≤ 1024) × (self.sum ≤ 67107840) × (d ≤ 65535) }
        ensures { result ≡ with_member self d }
    {
        Tally {
            members: self.members + 1,
            sum: self.sum + d,
            least: self.least.min(d),
            largest: self.largest.max(d),
        }
    }

    // The numbers with x further members, of the least degree that they can have: the larger of low and of how many others the clique then has. The least degree is left as
    // it is.
    pub fn grown(self, x: usize, low: usize) -> Tally
        requires { (self.members + x ≤ 1024) × (self.sum ≤ 67107840) × (low ≤ 65535) }
        ensures { result ≡ grown_of self x low }
    {
        let members = self.members + x;
        let each = low.max(members.saturating_sub(1));
        Tally {
            members,
            sum: self.sum + x * each,
            least: self.least,
            largest: self.largest.max(each),
        }
    }
}

// The outgoing edges of a clique, document 002, section 2.1, by how many members it has and the sum of their degrees: each of k members is joined to the k - 1
// others, and all its other edges leave.
pub fn outgoing(members: usize, sum: usize) -> usize
    requires { members ≤ 1024 }
    ensures { result ≡ sum - members * (members - 1) }
{
    sum.saturating_sub(members * members.saturating_sub(1))
}
