// Bits and bytes: fields joined and cut out by shifts and masks, and the check.
ghost use Rattle.std.specs.Prelude.{◌≡◌, ◌+◌, ◌*◌, ◌/◌, ◌%◌, ◌^◌, ◌<◌, ◌≤◌, length};
ghost use Rattle.notice.specs.Packing.{gathered, check_of};

// What stands so far, and after it a value of so many bits.
pub(crate) fn after(bits: u128, width: u32, value: u128) -> u128
    requires width { width ≤ 32 }
    requires room { bits < 2 ^ 96 }
    requires fits { value < 2 ^ width }
    ensures { result ≡ bits * 2 ^ width + value }
{
    bits << width | value
}

// The value of so many bits that has `low` bits after it.
pub(crate) fn field(bits: u128, width: u32, low: u32) -> u128
    requires width { width ≤ 32 }
    requires low { low < 128 }
    ensures { result ≡ bits / 2 ^ low % 2 ^ width }
{
    bits >> low & ((1 << width) - 1)
}

// The check of up to 12 bytes: each times its place from 1, summed, modulo 257. A place, which is below 12, is narrowed: a
// range beside the bytes would be one iterator more.
pub(crate) fn check(bytes: &[u8]) -> u16
    requires { length bytes.now ≤ 12 }
    ensures { result ≡ check_of bytes.now }
{
    let sum: u16 = bytes
        .iter()
        .enumerate()
        .map(|(i, b)| (i as u16 + 1) * u16::from(*b))
        .sum();
    sum % 257
}

// The number that up to 12 bytes make, most significant first. `from_be_bytes` would ask for four more bytes in front of them.
pub(crate) fn gather(bytes: &[u8]) -> u128
    requires { length bytes.now ≤ 12 }
    ensures { result ≡ gathered 0 bytes.now }
{
    bytes.iter().fold(0, |bits, b| bits << 8 | u128::from(*b))
}
