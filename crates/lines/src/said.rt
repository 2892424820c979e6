// What the lines of a text say.
ghost use Rattle.std.specs.Prelude.{◌≤◌, ◌<◌};

// What the p line says, and the count of the e lines so far.
#[derive(Clone, Copy)]
pub struct Said {
    pub vertices: usize, // N
    pub stated: usize, // M
    pub edges: usize,
    pub ghost small: { vertices ≤ 1024 },
    pub ghost six_digits: { stated < 1000000 },
}

// M and the count of the e lines before a p line, when no line has said either: a text begins with both 0, and a reader hands them on as they are.
#[derive(Clone, Copy)]
pub struct Counts {
    pub stated: usize,
    pub edges: usize,
    pub ghost six_digits: { stated < 1000000 },
}

// What the lines so far say: no p line yet, or one has passed.
#[derive(Clone, Copy)]
pub enum Progress {
    Before(Counts),
    Passed(Said),
}
