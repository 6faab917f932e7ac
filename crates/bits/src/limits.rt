// Which refusal stands in the way of a call, if any: in a number call 6, 1, 2; in a slice call 6, 3, 2.
ghost use Rattle.std.specs.Prelude.{◌≡◌, ◌+◌, ◌-◌, ◌*◌, ◌<◌, ◌≤◌, min};
ghost use Rattle.bits.specs.Calls.{room_of, slice_room_of, saturated};

use crate::{BitPos, BitRefusal, ByteCount};

const BUFFER_MAX: usize = 65536;

const WIDTH_MAX: u32 = 64;

// A call of n bits, at most max, at bit `at` of a buffer of len bytes. For those that ask before they
// write.
pub fn room_for(len: usize, at: usize, n: u32, max: u32) -> Result<(), BitRefusal>
    ensures { result ≡ room_of len at n max }
{
    if BUFFER_MAX < len {
        return Err(BitRefusal::BufferTooLong {
            length: ByteCount(len),
        });
    }
    if n == 0 {
        return Err(BitRefusal::TooLongForType {
            max: WIDTH_MAX,
            asked: n,
        });
    }
    if max < n {
        return Err(BitRefusal::TooLongForType { max, asked: n });
    }
    let m = n as usize;
    let left = (len * 8).saturating_sub(at);
    if left < m {
        return Err(BitRefusal::OutOfBits {
            asked: BitPos(m),
            available: BitPos(left),
        });
    }
    Ok(())
}

// A call of n bytes at bit `at` of a buffer of len bytes.
pub(crate) fn slice_room_for(len: usize, at: usize, n: usize) -> Result<(), BitRefusal>
    ensures { result ≡ slice_room_of len at n }
{
    if BUFFER_MAX < len {
        return Err(BitRefusal::BufferTooLong {
            length: ByteCount(len),
        });
    }
    if at % 8 != 0 {
        return Err(BitRefusal::NonAlignedBit { cursor: BitPos(at) });
    }
    let end = (at / 8).saturating_add(n);
    let left = (len * 8).saturating_sub(at) / 8;
    // The end decides, not the bytes left: past the end an empty slice asks for no more than these, and is refused.
    if len < end {
        return Err(BitRefusal::OutOfBytes {
            asked: ByteCount(n),
            available: ByteCount(left),
        });
    }
    Ok(())
}
