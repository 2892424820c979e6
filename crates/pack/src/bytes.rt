// The byte table of a graph.
ghost use Rattle.pack.specs.Bytes.{ByteFits};

// A graph on n vertices, lent as a table of n × n bytes: document 01, "Graph and ranks".
#[derive(Clone, Copy)]
pub struct ByteTable<'a> {
    pub bytes: &'a [u8],
    pub n: usize,
    pub ghost fits: { ByteFits n bytes.now },
}
