// Tests of one byte, and how many bytes of a range pass one.
use slots::Facts;

fn odd_count(number: u32) -> bool {
    number.count_ones() % 2 == 1
}

// In the byte and its ninth bit the processor counts odd ones, and odd_ones agrees with it on the byte alone.
pub fn ninth(byte: u8) -> bool {
    odd_count(parity::data_cell(byte) as u32) & (parity::odd_ones(byte) == odd_count(byte as u32))
}

// This flip turns the byte's parity, and a second one gives the byte again.
pub fn turns(k: u8, byte: u8) -> bool {
    let flipped = parity::flipped(k, byte);
    (parity::odd_ones(flipped) != parity::odd_ones(byte)) & (parity::flipped(k, flipped) == byte)
}

// The byte that offers this address has odd ones, the address above its lowest bit, and there the inverse of the address's own parity.
pub fn offer(address: u8) -> bool {
    let byte = parity::offered_byte(address);
    parity::odd_ones(byte) & (byte / 2 == address) & ((byte % 2 == 0) == odd_count(address as u32))
}

// The address is of class 1 just where the processor counts one bit in which it differs from 7Eh.
pub fn near(address: u8) -> bool {
    (slots::class_of(address) == 1) == ((address ^ 0x7E).count_ones() == 1)
}

// The address is open with these flags, no legacy device.
pub fn open(flags: u8, address: u8) -> bool {
    let facts = Facts {
        flags,
        legacy: [0; 16],
        last: 0,
    };
    facts.is_open(address)
}

// With this flag byte none of the seven addresses one bit away from 7Eh is open.
pub fn never_open(flags: u8) -> bool {
    let near = [0x3E, 0x5E, 0x6E, 0x76, 0x7A, 0x7C, 0x7F];
    !near.iter().any(|address| open(flags, *address))
}

// How many bytes from first to last pass a test. (No chain: of a count of a filtered range the check knows no bound that fits 32 bits.)
pub fn passing<F: Fn(u8) -> bool>(first: u8, last: u8, test: F) -> u32
    requires { F.IsAlwaysCallable test }
{
    let mut count = 0;
    for byte in first..=last {
        if test(byte) {
            count += 1;
        }
    }
    count
}
