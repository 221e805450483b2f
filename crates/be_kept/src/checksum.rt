//! The CRC-32 of an entry.
ghost use Rattle.std.specs.Prelude.{◌≡◌};
ghost use Rattle.be_kept.specs.Crc.{halved, with_byte, with_bytes};
ghost use Rattle.be_kept.specs.Rows.{entry_crc};

const POLYNOMIAL: u32 = 0xedb8_8320;

/// Moves the checksum on by one bit.
#[tactic(auto, unfolding(crate::specs::Crc::halved))]
fn halved(sum: u32) -> u32
    ensures { result ≡ halved sum }
{
    if sum % 2 == 1 {
        (sum / 2) ^ POLYNOMIAL
    } else {
        sum / 2
    }
}

/// Moves the checksum on by one byte.
#[tactic(auto, unfolding(crate::specs::Crc::with_byte))]
fn with_byte(sum: u32, byte: u8) -> u32
    ensures { result ≡ with_byte sum byte }
{
    let sum = sum ^ u32::from(byte);
    let sum = halved(halved(halved(halved(sum))));
    halved(halved(halved(halved(sum))))
}

/// Moves the checksum on by these bytes.
fn with_bytes(start: u32, bytes: &[u8]) -> u32
    ensures { result ≡ with_bytes start bytes.now }
{
    let mut sum = start;
    for byte in bytes {
        sum = with_byte(sum, *byte);
    }
    sum
}

/// Returns the checksum of an entry's row. It costs about 40 instructions a byte.
pub fn entry_sum(number: u64, pass: u32, batch: &[u8]) -> u32
    ensures { result ≡ entry_crc number pass batch.now }
{
    let sum = with_bytes(u32::MAX, &number.to_le_bytes());
    let sum = with_bytes(sum, &u64::from(pass).to_le_bytes());
    let sum = with_bytes(sum, &(batch.len() as u64).to_le_bytes());
    with_bytes(sum, batch) ^ u32::MAX
}
