// The totals of a listing.
ghost use Rattle.std.specs.Prelude.{◌≡◌, ◌+◌};
ghost use Rattle.model.specs.Program.{held};

use rounds::PageAnswer;

// The groups and the steps of the pages so far: "Both totals stay at 4,294,967,295 once they would pass it."
#[derive(Clone, Copy)]
pub struct Totals {
    pub groups: u32,
    pub steps: u32,
}

impl Totals {
    // Adds those of a page.
    pub fn add(&mut self, page: &PageAnswer)
        ensures groups { self.new.groups ≡ held (self.old.groups + page.now.groups) }
        ensures steps { self.new.steps ≡ held (self.old.steps + page.now.steps) }
    {
        self.groups = self.groups.saturating_add(page.groups);
        self.steps = self.steps.saturating_add(page.steps);
    }
}
