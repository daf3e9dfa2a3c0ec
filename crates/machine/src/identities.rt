// The eight bytes of an identity: its number, and its cells.
ghost use Rattle.std.specs.Prelude.{◌≡◌, map, length};
ghost use Rattle.parity.specs.Cells.{identity_cell};
ghost use Rattle.machine.specs.Steps.{identity_of};

// Eight lent bytes, by value.
pub fn eight(bytes: &[u8]) -> [u8; 8]
    requires { length bytes.now ≡ 8 }
    ensures { result ≡ bytes.now }
{
    bytes.try_into().unwrap()
}

// The number of eight bytes, highest first.
pub fn number(bytes: [u8; 8]) -> u64
    ensures { result ≡ identity_of bytes }
{
    u64::from_be_bytes(bytes)
}

// The cells of eight bytes.
pub fn cells(bytes: [u8; 8]) -> [u16; 8]
    ensures { result ≡ map identity_cell bytes }
{
    bytes.map(|byte| parity::identity_cell(byte))
}
