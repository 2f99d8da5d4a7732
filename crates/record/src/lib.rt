// What the records of a sheet and of a reel share: their numbers.
#![tactic(auto)]

ghost use Rattle.std.specs.Prelude.{◌≡◌};
ghost use Rattle.record.specs.Number.{big_endian, big_endian_long};

// A number of two bytes, the high one first.
pub fn number(high: u8, low: u8) -> usize
    ensures { result ≡ big_endian high low }
{
    usize::from(u16::from_be_bytes([high, low]))
}

// A number of four bytes, the high ones first.
pub fn long_number(first: u8, second: u8, third: u8, fourth: u8) -> u32
    ensures { result ≡ big_endian_long first second third fourth }
{
    u32::from_be_bytes([first, second, third, fourth])
}
