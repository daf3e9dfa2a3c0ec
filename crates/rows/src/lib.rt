// The rows of the table: 32 places by value, the rows in order of dynamic address, and behind them the unused places, all zero.
//
// Nothing here judges the rows: every function takes any 32 of them.
#![tactic(auto)]

ghost use Rattle.std.specs.Prelude.{◌≡◌, position, find};
ghost use Rattle.rows.specs.Rows.{in_use, used, has_address, has_ticket, has_identity, has_static, holds_address, holds_static};

// A board that has an address: its dynamic address, its ticket, its identity or the mark that it is unknown (then the number is 0), and the static
// address that it was set from, 0 if none. A place whose address is 0 is unused. (Kept as numbers with a mark, and no Option: a machine can be handed
// in with any of them, and is then refused 28.)
#[derive(Clone, Copy, Debug, PartialEq, Eq)]
pub struct Row {
    pub address: u8,
    pub ticket: u32,
    pub unknown: bool,
    pub identity: u64,
    pub from_static: u8,
}

// An unused place.
pub const NO_ROW: Row = Row {
    address: 0,
    ticket: 0,
    unknown: false,
    identity: 0,
    from_static: 0,
};

impl Row {
    // Whether a board stands here: no row has the address 0.
    pub fn in_use(self) -> bool
        ensures { result ≡ in_use self }
    {
        self.address != 0
    }

    fn has_address(self, address: u8) -> bool
        ensures { result ≡ has_address address self }
    {
        self.in_use() & (self.address == address)
    }

    fn has_ticket(self, ticket: u32) -> bool
        ensures { result ≡ has_ticket ticket self }
    {
        self.in_use() & (self.ticket == ticket)
    }

    // Whether the row's identity is known and is this one.
    fn has_identity(self, identity: u64) -> bool
        ensures { result ≡ has_identity identity self }
    {
        self.in_use() & !self.unknown & (self.identity == identity)
    }

    fn has_static(self, address: u8) -> bool
        ensures { result ≡ has_static address self }
    {
        self.in_use() & (self.from_static == address)
    }
}

// How many rows there are.
pub fn used_rows(rows: &[Row; 32]) -> usize
    ensures { result ≡ used rows.now }
{
    rows.iter().filter(|r| r.in_use()).count()
}

// Whether a row was set from this static address; of 0, whether one was set from none.
pub fn holds_static(rows: &[Row; 32], address: u8) -> bool
    ensures { result ≡ holds_static address rows.now }
{
    rows.iter().any(|r| r.has_static(address))
}

// Whether a row has this dynamic address.
pub fn holds_address(rows: &[Row; 32], address: u8) -> bool
    ensures { result ≡ holds_address address rows.now }
{
    rows.iter().any(|r| r.has_address(address))
}

// The place of the row with this dynamic address.
pub fn place_of_address(rows: &[Row; 32], address: u8) -> Option<usize>
    ensures { result ≡ position (has_address address) rows.now }
{
    rows.iter().position(|r| r.has_address(address))
}

// The place of the row with this ticket.
pub fn place_of_ticket(rows: &[Row; 32], ticket: u32) -> Option<usize>
    ensures { result ≡ position (has_ticket ticket) rows.now }
{
    rows.iter().position(|r| r.has_ticket(ticket))
}

// The place of the row with this known identity. A row marked unknown has none.
pub fn place_of_identity(rows: &[Row; 32], identity: u64) -> Option<usize>
    ensures { result ≡ position (has_identity identity) rows.now }
{
    rows.iter().position(|r| r.has_identity(identity))
}

// The row with this ticket.
pub fn row_of_ticket(rows: &[Row; 32], ticket: u32) -> Option<Row>
    ensures { result ≡ find (has_ticket ticket) rows.now }
{
    rows.iter().copied().find(|r| r.has_ticket(ticket))
}

// The row with this known identity.
pub fn row_of_identity(rows: &[Row; 32], identity: u64) -> Option<Row>
    ensures { result ≡ find (has_identity identity) rows.now }
{
    rows.iter().copied().find(|r| r.has_identity(identity))
}
