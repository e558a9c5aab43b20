//! Fields that are put at the end of a file: numbers with their low byte first, and bytes.
ghost use Rattle.std.specs.Prelude.{◌≡◌, [], ◌∷◌, OnOk};
ghost use Rattle.byteorder.specs.Endian.{little_bytes};
ghost use Rattle.ckpt_fields.specs.Values.{words, doublewords};
ghost use Rattle.ckpt_file.specs.Putting.{IsPut};

use std::alloc::AllocError;

/// Puts a field of these bytes.
pub(crate) fn put_field(out: &mut Vec<u8>, bytes: &[u8]) -> Result<(), AllocError>
    ensures { OnOk result (IsPut (bytes.now ∷ []) out.old.items out.new.items) }
{
    out.extend_from_slice(bytes)?;
    Ok(())
}

/// Puts a number of one byte.
pub(crate) fn put_byte(out: &mut Vec<u8>, number: u8) -> Result<(), AllocError>
    ensures { OnOk result (IsPut (little_bytes 1 number ∷ []) out.old.items out.new.items) }
{
    put_field(out, &number.to_le_bytes())?;
    Ok(())
}

/// Puts a number of 4 bytes.
pub(crate) fn put_word(out: &mut Vec<u8>, number: u32) -> Result<(), AllocError>
    ensures { OnOk result (IsPut (little_bytes 4 number ∷ []) out.old.items out.new.items) }
{
    put_field(out, &number.to_le_bytes())?;
    Ok(())
}

/// Puts a number of 8 bytes.
pub(crate) fn put_doubleword(out: &mut Vec<u8>, number: u64) -> Result<(), AllocError>
    ensures { OnOk result (IsPut (little_bytes 8 number ∷ []) out.old.items out.new.items) }
{
    put_field(out, &number.to_le_bytes())?;
    Ok(())
}

/// Puts numbers of 4 bytes, one after the other.
pub(crate) fn put_words(out: &mut Vec<u8>, numbers: &[u32]) -> Result<(), AllocError>
    ensures { OnOk result (IsPut (words numbers.now) out.old.items out.new.items) }
{
    for number in numbers {
        put_word(out, *number)?;
    }
    Ok(())
}

/// Puts numbers of 8 bytes, one after the other.
pub(crate) fn put_doublewords(out: &mut Vec<u8>, numbers: &[u64]) -> Result<(), AllocError>
    ensures { OnOk result (IsPut (doublewords numbers.now) out.old.items out.new.items) }
{
    for number in numbers {
        put_doubleword(out, *number)?;
    }
    Ok(())
}
