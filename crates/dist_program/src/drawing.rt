//! Random numbers.

use std::io;
use std::random::RandomSource;

/// A random number of 32 bits from the system, for a challenge or a creation. An error is the system's.
pub fn draw<R: RandomSource>(rt: &R) -> io::Result<u32> {
    let mut bytes = [0u8; 4];
    rt.fill_bytes(&mut bytes)?;
    Ok(u32::from_be_bytes(bytes))
}
