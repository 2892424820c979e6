// The marks of ranks, the bytes of a position: document 01, "The walk".

pub const OPEN: u8 = 0;

pub const TAKEN: u8 = 1;

pub const LEFT: u8 = 2;
