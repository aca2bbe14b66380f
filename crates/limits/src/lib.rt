// The limits of the node, each once, with the rules that have it (`docs/RULES.md`). Definitions have the rules' numbers as they stand.
#![tactic(auto)]

// ## The table

// T-1: bytes of a table.
pub const TABLE: usize = 16384;
// T-8: bytes of a name.
pub const NAME: usize = 63;
// T-12: modules, and parameters and commands together.
pub const MODULES: usize = 16;

pub const ACCESSIBLES: usize = 64;
// T-14: levels of a datainfo.
pub const DATAINFO_LEVELS: usize = 4;
// T-36: bytes of the structure report.
pub const REPORT: usize = 32000;

// ## Values

// V-1: levels of JSON.
pub const JSON_LEVELS: usize = 8;
// V-22, C-15: bytes of a stored form, and of a parameter's place in the values area.
pub const PLACE: usize = 256;

// ## Calls

// C-4: clients, and the number of the last.
pub const CLIENTS: usize = 8;

pub const LAST_CLIENT: u64 = 7;
// L-2: bytes of a line.
pub const LINE: usize = 1024;
// The number of the last parameter, where there are as many as there may be.
pub const LAST_PARAMETER: u64 = 63;
// C-10: bytes that the values area and the outbox have at least.
pub const VALUES: usize = 16384;

pub const OUTBOX: usize = 32768;
// C-2: the latest time, in milliseconds.
pub const LATEST: u64 = 9999999999999;
// C-26: readings of a list.
pub const READINGS: usize = 9;

// ## The index

// I-1: its bytes.
pub const INDEX: usize = 128;
// I-2: a byte of it that is free.
pub const FREE: u8 = 255;
