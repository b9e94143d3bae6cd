// The tests of a use of a pointer, by the numbers that events and journals give of them.

/// The number of the test that the instance is alive (C17 6.2.4p2).
pub const LIVE_TEST: u8 = 1;

/// The number of the test that the addresses lie in the instance (6.5.6p8).
pub const RANGE_TEST: u8 = 2;

/// The number of the test that the instance is a block of the heap that begins there (7.22.3.3p2).
pub const BLOCK_TEST: u8 = 3;

/// The number of the test that both pointers are to the instance (6.5.8p5).
pub const SAME_TEST: u8 = 4;

/// The number of the test that the instance is a function that begins there (6.5.2.2p1).
pub const CODE_TEST: u8 = 5;
