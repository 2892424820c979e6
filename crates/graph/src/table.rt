// The packed table of a graph.
ghost use Rattle.std.specs.Prelude.{◌≡◌};
ghost use Rattle.model.specs.Graph.{row_length};
ghost use Rattle.graph.specs.Table.{TableFits};

// A graph on n vertices, lent as n rows of numbers: document 02, C-15. The width is how many numbers a row has, ceil(n / 64); it is kept beside n, so that no
// step works it out.
#[derive(Clone, Copy)]
pub struct Table<'a> {
    pub numbers: &'a [u64],
    pub n: usize,
    pub width: usize,
    pub ghost fits: { TableFits n numbers.now },
    pub ghost wide: { width ≡ row_length n },
}
