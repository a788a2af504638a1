// Numbers as bytes, lowest byte first, for the records of `runner` and the probe programs. Each function answers on
// every argument.
#![tactic(auto)]

ghost use Rattle.std.specs.Prelude.{◌≡◌, ◌∷◌, ◌++◌, ◌+◌, ◌*◌, ◌%◌, pos};
ghost use Rattle.rfc9639.specs.Integers.{low, wrapped};
ghost use Rattle.probe_records.specs.LittleEndian.{little};
ghost use Rattle.rfc9639.specs.Stream.{first_known, first_number};

// An answer of the reader: its number, the bytes consumed, whether the number of the first sample is known, that number
// or 0, the channels, the bits and the block size.
pub fn answer_bytes(
    number: u8,
    consumed: u64,
    first: Option<u64>,
    channels: u64,
    bits: u64,
    size: u64,
) -> [u8; 18]
    ensures { result ≡ number ∷ (little 4 consumed ++ (little 1 (first_known first) ++ (little 8 (first_number first) ++ (little 1 channels ++ (little 1 bits ++ little 2 size))))) }
{
    let mut bytes = [0; 18];
    bytes[0] = number;
    bytes[1..5].copy_from_slice(&consumed.to_le_bytes()[..4]);
    bytes[5] = first.is_some() as u8;
    bytes[6..14].copy_from_slice(&first.unwrap_or(0).to_le_bytes());
    bytes[14] = (channels % 256) as u8;
    bytes[15] = (bits % 256) as u8;
    bytes[16..].copy_from_slice(&size.to_le_bytes()[..2]);
    bytes
}

// The four low bytes of a number.
pub fn four_bytes(v: u64) -> [u8; 4]
    ensures { result ≡ little 4 v }
{
    ((v % 0x1_0000_0000) as u32).to_le_bytes()
}

// The four bytes of a sample.
pub fn sample_bytes(x: i32) -> [u8; 4]
    ensures { result ≡ little 4 (low 32 x) }
{
    x.to_le_bytes()
}

// The number in four bytes.
pub fn number_from_bytes(a: u8, b: u8, c: u8, d: u8) -> u64
    ensures { result ≡ a + 256 * (b + 256 * (c + 256 * d)) }
{
    u32::from_le_bytes([a, b, c, d]) as u64
}

// The sample in four bytes.
pub fn sample_from_bytes(a: u8, b: u8, c: u8, d: u8) -> i32
    ensures { result ≡ wrapped 32 (pos (a + 256 * (b + 256 * (c + 256 * d)))) }
{
    i32::from_le_bytes([a, b, c, d])
}
