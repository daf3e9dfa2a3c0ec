// The boards on the wire: who answers, what all of them send together, and what each does with the address byte that it sees.
//
// Boards stand in 32 places, with a flag beside each that says whether it is still in the round:
//
//     let still = boards::waiting(&boards, count);      who answers 7Eh/R
//     let heard = boards::listen(&boards, &still);      64 bits later: the identity that won, and its bearers
//     let after = boards::offer(&boards, &heard.still, byte);
#![tactic(auto)]

ghost use Rattle.std.specs.Prelude.{◌≡◌, ◌<◌, map};
ghost use Rattle.boards.specs.Wire.{board_of, wire_bit, stay_in, hear, takes, after_byte, waiting_first, anyone};

use std::array;

// A board: its identity (48-bit Provisioned ID, BCR, DCR, highest bit first), and its address, 0 for none. (Kept as a number, and no Option: a board
// can be handed in with any, and one over 127 is refused 2.)
#[derive(Clone, Copy, Debug, PartialEq, Eq)]
pub struct Board {
    pub identity: u64,
    pub address: u8,
}

impl Board {
    // What it does with the address byte that it sees: it takes the address if it is still in and the byte's ones are odd.
    fn take(self, byte: u8, still: bool) -> Board
        ensures { result ≡ takes byte still self }
    {
        if still & parity::odd_ones(byte) {
            Board {
                address: byte / 2,
                ..self
            }
        } else {
            self
        }
    }
}

// What a round hears, and who is still in at its end.
#[derive(Clone, Copy, Debug, PartialEq, Eq)]
pub struct Heard {
    pub identity: u64,
    pub still: [bool; 32],
}

// Who is in a round: of the first `count` boards those without an address. (A count and marks beside 32 places: document 01 has boards by value.)
pub fn waiting(boards: &[Board; 32], count: usize) -> [bool; 32]
    ensures { result ≡ waiting_first count boards.now }
{
    array::from_fn(|i| (i < count) & (boards[i].address == 0))
}

// Whether any board is in.
pub fn anyone(still: &[bool; 32]) -> bool
    ensures { result ≡ anyone still.now }
{
    still.iter().any(|still| *still)
}

// The identities of the boards, which are all that a round asks for: one behind the other they are read in fewer instructions than out of the boards.
fn identities(boards: &[Board; 32]) -> [u64; 32]
    ensures { result ≡ map (λ b. b.identity) boards.now }
{
    boards.map(|board| board.identity)
}

// Bit k on the wire: 0 if any board still in sends 0.
fn wire_bit(k: u64, sent: &[u64; 32], still: &[bool; 32]) -> u64
    requires { k < 64 }
    ensures { result ≡ wire_bit k (map board_of sent.now) still.now }
{
    let pulled = sent
        .iter()
        .zip(still)
        .any(|(identity, still)| *still & ((*identity >> k) % 2 == 0));
    u64::from(!pulled)
}

// At a 0 those that sent 1 leave.
fn stay_in(k: u64, sent: &[u64; 32], kept: &mut [bool; 32])
    requires { k < 64 }
    ensures { kept.new ≡ stay_in k 0 (map board_of sent.now) kept.old }
{
    for (i, identity) in sent.iter().enumerate() {
        if (*identity >> k) % 2 == 1 {
            kept[i] = false;
        }
    }
}

// The 64 bits of a round, highest first: all boards that are in send at once, and those that lose leave.
pub fn listen(boards: &[Board; 32], still: &[bool; 32]) -> Heard
    ensures { result ≡ hear 64 boards.now still.now 0 }
{
    let sent = identities(boards);
    let mut identity = 0;
    let mut kept = *still;
    for k in (0..64).rev() {
        let seen = wire_bit(k, &sent, &kept);
        if seen == 0 {
            stay_in(k, &sent, &mut kept);
        }
        identity = identity * 2 + seen;
    }
    Heard {
        identity,
        still: kept,
    }
}

// All boards see the same address byte.
pub fn offer(boards: &[Board; 32], still: &[bool; 32], byte: u8) -> [Board; 32]
    ensures { result ≡ after_byte byte still.now boards.now }
{
    array::from_fn(|i| boards[i].take(byte, still[i]))
}
