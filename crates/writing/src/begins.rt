// Before the first field: refusals 7 and 8, and a buffer of ones.
ghost use Rattle.std.specs.Prelude.{◌≡◌};
ghost use Rattle.tables.specs.Table.{table_of};
ghost use Rattle.writing.specs.Encode.{begun_of};
ghost use Rattle.writing.specs.Clauses.{Begins};

use bits::ByteCount;
use weighing::EncodeRefusal;

// 7, 8, or nothing.
fn begun(words: &[u64], size: usize) -> Result<(), EncodeRefusal>
    ensures { result ≡ begun_of (table_of words.now) size }
{
    if tables::PAYLOAD_MAX < size {
        return Err(EncodeRefusal::WrongLength {
            length: ByteCount(size),
        });
    }
    tables::check(words)?;
    Ok(())
}

// Refusal 7 or 8, which leave the buffer as it was; else all of its bits are ones.
pub fn begin(words: &[u64], buffer: &mut [u8]) -> Result<(), EncodeRefusal>
    ensures { Begins result buffer.new words.now buffer.old }
{
    begun(words, buffer.len())?;
    buffer.fill(0xff);
    Ok(())
}
