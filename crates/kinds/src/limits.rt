// Document 01's limits.

// Clients are 0 to 63; the manager is 0.
pub const CLIENTS: usize = 64;

pub const LAST_CLIENT: u32 = 63;

pub const MANAGER: u32 = 0;

// Times are below 2^40.
pub const END_OF_TIME: u64 = 1099511627776;

pub const LEAST_BLOCKS: usize = 8;

pub const MOST_BLOCKS: usize = 4096;

pub const START_KEY: u32 = 0;

pub const END_KEY: u32 = 65535;

// A key call visits at most 64 headers, and GetIds names at most 64 ids.
pub const MOST_HEADERS: usize = 64;

pub const MOST_IDS: u32 = 64;
