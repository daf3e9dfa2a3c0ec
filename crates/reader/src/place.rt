// A place in a record.
ghost use Rattle.std.specs.Prelude.{◌≤◌, length};

// The cells of a record, and the place that is read next: at most their end.
#[derive(Clone, Copy)]
pub struct Place<'a> {
    pub cells: &'a [u16],
    pub at: usize,
    ghost inside: { at ≤ length cells.now },
}
