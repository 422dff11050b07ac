ghost use Rattle.std.specs.Prelude.{◌≡◌, ◌≤◌, IfOk};
ghost use Rattle.sp_message.specs.Decoding.{Gives};
ghost use Rattle.sp_unit.specs.UnitReading.{counted_at};

use sp_base::number::{CopyNo, GREATEST_NUMBER};
use sp_message::codec::{Codec, ReadError, read_number_within, write_number};
use std::alloc::{AllocError, Global};

/// Numbers of copies as bytes: 8 bytes, the lowest first.
pub struct CopyCodec;

impl Codec for CopyCodec {
    ghost use Rattle.std.specs.Prelude.{◌≤◌};
    ghost use Rattle.sp_message.specs.Encoding.{number_bytes};
    ghost use Rattle.sp_unit.specs.UnitBytes.{greatest_number};
    ghost use Rattle.sp_unit.specs.UnitReading.{counted_at};

    type Item = CopyNo;

    ghost fits = { λ _. Unit {0} };

    ghost valid = { λ n. n ≤ greatest_number };

    ghost bytes_of = { number_bytes };

    ghost read_at = { counted_at };

    fn read(_alloc: Global, bytes: &[u8]) -> Result<(CopyNo, &[u8]), ReadError> {
        let (n, rest) = read_counted(bytes)?;
        Ok((CopyNo::of(n), rest))
    }

    fn write(copy: &CopyNo, into: &mut Vec<u8>) -> Result<(), AllocError> {
        write_number(copy.value(), into)
    }
}

/// Reads the number of a flow or a copy, which is at most 2^62.
#[tactic(auto, unfolding(crate::specs::UnitReading::counted_at))]
pub fn read_counted(bytes: &[u8]) -> Result<(u64, &[u8]), ReadError>
    ensures read { Gives (λ x. (x.0, x.1.now)) result (counted_at bytes.now) }
    ensures most { IfOk result (λ x. x.0 ≤ GREATEST_NUMBER) }
{
    read_number_within(bytes, 0, GREATEST_NUMBER)
}
