// The cells, or bytes, that a call is lent.
ghost use Rattle.std.specs.Prelude.{◌≡◌, drop};
ghost use Rattle.std.specs.List.{list_all};

// What every cell is before a call.
pub const BLANK_CELL: u16 = u16::MAX;

// Whether the places from one on are as they were filled.
pub fn blank_from<T: PartialEq>(places: &[T], first: usize, blank: &T) -> bool
    ensures { result ≡ list_all (λ x. T.eq x blank.now) (drop first places.now) }
{
    places.iter().skip(first).all(|place| place == blank)
}
