// The search for a byte that ends a line or a field.
ghost use Rattle.number.specs.Field.{Found};

// The first place of byte b, or the end: byte 10 ends a line, and a space parts two fields.
pub fn find(s: &[u8], b: u8) -> usize
    ensures { Found s.now b result }
{
    s.iter().position(|x| *x == b).unwrap_or(s.len())
}
