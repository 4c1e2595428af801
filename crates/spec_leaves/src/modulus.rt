// The modulus, and what is reckoned from it, as in specs/Zq.antt.
pub const Q: u32 = 4294967295;

pub const Q_U64: u64 = Q as u64;

// The greatest canonical value, which is the greatest base.
pub const TOP: u32 = Q - 1;

// The greatest size of a centre.
pub const HALF: u32 = Q / 2;

pub const HALF_I64: i64 = HALF as i64;

pub const MINUS_HALF: i64 = 0 - HALF_I64;

// What Q lacks of 2^32: 2^32 is that modulo Q.
pub const LACK: u32 = 4294967295 - Q + 1;
