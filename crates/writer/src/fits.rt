// Which readings have a record of at most 1,024 cells.
#![tactic(auto, unfolding(readings::specs::Layouts::is_bare, readings::specs::Layouts::is_directed, readings::specs::Layouts::is_assigned))]

ghost use Rattle.std.specs.Prelude.{◌≡◌, ◌&&◌, ◌/◌, leb, length, take};
ghost use Rattle.std.specs.Simd.{first_chunks};
ghost use Rattle.lists.specs.Lists.{all};
ghost use Rattle.readings.specs.Layouts.{is_bare, is_directed, is_assigned};
ghost use Rattle.writer.specs.Write.{right, writable};

use readings::{Command, Reading};

// A 93rd offer would take the record past 1,024 cells.
const MOST_OFFERS: usize = 92;

// Nothing but joining and command. (Field by field, as its definition says it: the comparison with a bare reading would make one first.)
fn is_bare(r: &Reading) -> bool
    ensures { result ≡ is_bare r.now }
{
    (r.header == 0) & (r.new == 0) & !r.direct & !r.last & (r.offers == 0)
}

// Addresses up to 127, none behind a silent header, and no offers.
fn is_directed(r: &Reading) -> bool
    ensures { result ≡ is_directed r.now }
{
    let new = if r.direct { r.new <= 127 } else { r.new == 0 };
    (r.header <= 127) & new & !r.last & (r.offers == 0)
}

// Address bytes whose own ones are odd, and answers 0 or 1.
fn offers_right(count: usize, offers: &[u8]) -> bool
    ensures { result ≡ all right (take count (first_chunks 10 (length offers.now / 10) offers.now)) }
{
    offers
        .as_chunks::<10>()
        .0
        .iter()
        .take(count)
        .all(|offer| parity::odd_ones(offer[8]) & (offer[9] <= 1))
}

// Ten right bytes for each offer, at most 92 of them; an answered last header has its offer behind it; no addresses.
fn is_assigned(r: &Reading, offers: &[u8]) -> bool
    ensures { result ≡ (is_assigned r.now offers.now && leb r.now.offers 92) }
{
    let quiet = (r.header == 0) & (r.new == 0) & !r.direct & !(r.last & (r.offers == 0));
    quiet & (r.offers <= MOST_OFFERS) & (r.offers <= offers.len() / 10)
        && offers_right(r.offers, offers)
}

// Some record of at most 1,024 cells reads as this with these offers.
pub fn writable(r: &Reading, offers: &[u8]) -> bool
    ensures { result ≡ writable r.now offers.now }
{
    if !readings::may_follow(r.joining, r.command) {
        return false;
    }
    match r.command {
        Command::None | Command::ResetAll | Command::Silence | Command::Allow => is_bare(r),
        Command::Assign => is_assigned(r, offers),
        Command::SetFromStatic | Command::Move => is_directed(r),
    }
}
