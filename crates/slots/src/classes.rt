// The classes that decide by themselves or with a flag, and that of the numbers above 7Fh. (Kept as numbers: document 01 names the form, the class
// numbers of all 128 slots as one constant array.)
pub const OPEN_WITH_FLAG_2: u8 = 2;

pub const CLOSED_BY_FLAG_1: u8 = 3;

pub const OPEN: u8 = 4;

pub const NO_ADDRESS: u8 = 7;

// The class of each of the 128 addresses.
pub const CLASS: [u8; 128] = [
    // 00h to 02h: barred, reserved
    0, 0, 0,
    // 03h: open only with flag value 2
    2,
    // 04h to 07h: closed with flag value 1
    3, 3, 3, 3,
    // 08h to 3Dh: open
    4, 4, 4, 4, 4, 4, 4, 4, 4, 4, 4, 4, 4, 4, 4, 4, 4, 4, 4, 4, 4, 4, 4, 4, 4, 4, 4, 4, 4, 4, 4, 4,
    4, 4, 4, 4, 4, 4, 4, 4, 4, 4, 4, 4, 4, 4, 4, 4, 4, 4, 4, 4, 4, 4,
    // 3Eh: barred, one bit away from 7Eh
    1,
    // 3Fh to 5Dh: open
    4, 4, 4, 4, 4, 4, 4, 4, 4, 4, 4, 4, 4, 4, 4, 4, 4, 4, 4, 4, 4, 4, 4, 4, 4, 4, 4, 4, 4, 4, 4,
    // 5Eh: barred, one bit away from 7Eh
    1,
    // 5Fh to 6Dh: open
    4, 4, 4, 4, 4, 4, 4, 4, 4, 4, 4, 4, 4, 4, 4,
    // 6Eh: barred, one bit away from 7Eh
    1,
    // 6Fh to 75h: open
    4, 4, 4, 4, 4, 4, 4,
    // 76h: barred, one bit away from 7Eh
    1,
    // 77h: open
    4,
    // 78h to 79h: closed
    5, 5,
    // 7Ah: barred, one bit away from 7Eh
    1,
    // 7Bh: closed
    5,
    // 7Ch: barred, one bit away from 7Eh
    1,
    // 7Dh: closed
    6,
    // 7Eh: barred, reserved
    0,
    // 7Fh: barred, one bit away from 7Eh
    1,
];
