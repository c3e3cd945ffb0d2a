//! Unsigned numbers of four bytes, least byte first: reading one from bytes, and writing one into them.
#![tactic(auto)]

ghost use Rattle.std.specs.Prelude.{◌≡◌, ◌+◌, length, if◌then◌else◌, Some, None, nat_le};
ghost use Rattle.byte_numbers.specs.Numbers.{number_at, encoded, overwritten, WrittenIsRead, ReadIsWritten};

/// The number in the four bytes from `at` on, or `None` where fewer than four bytes are there.
pub fn number_at(bytes: &[u8], at: usize) -> Option<u32>
    ensures { result ≡ (if nat_le (at + 4) (length bytes.now) then Some (number_at bytes.now at) else None) }
{
    let number = bytes.get(at..)?.first_chunk()?;
    Some(u32::from_le_bytes(*number))
}

/// Writes the number over the four bytes from `at` on, and tells the index behind them. Where four bytes do not fit
/// it answers `None`, and `out` stays as it was.
pub fn put_number(out: &mut [u8], at: usize, number: u32) -> Option<usize>
    ensures told { result ≡ (if nat_le (at + 4) (length out.old) then Some (at + 4) else None) }
    ensures wrote { out.new ≡ (if nat_le (at + 4) (length out.old) then overwritten out.old at (encoded number) else out.old) }
{
    let (_, rest) = out.split_at_mut_checked(at)?;
    *rest.first_chunk_mut()? = number.to_le_bytes();
    Some(at + 4)
}

/// Wherever the bytes of a number stand, that number is read back.
pub fn written_is_read()
    ensures { WrittenIsRead }
{}

/// The bytes of the number that is read are the bytes that it was read from.
pub fn read_is_written()
    ensures { ReadIsWritten }
{}
