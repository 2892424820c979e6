// A text while it is read.
ghost use Rattle.std.specs.Prelude.{◌≤◌, length};
ghost use Rattle.lines.specs.Said.{area_of};

use crate::said::Progress;

// A text that is being read: the table slice it is read into, and what its lines say so far, whose N × N bytes the slice has.
#[derive(Drop)]
pub struct Reader<'a> {
    pub table: &'a mut [u8],
    pub said: Progress,
    pub ghost fits: { area_of said ≤ length table.now },
}
