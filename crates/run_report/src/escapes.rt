ghost use Rattle.plain_types.specs.Appends.{Appends};
ghost use Rattle.run_report.specs.Escapes.{escaped, escaped_byte};

use std::alloc::AllocError;

/// Appends the text, in which a line feed is written as the two characters `\n`.
pub fn put_escaped(bytes: &mut Vec<u8>, text: &[u8]) -> Result<(), AllocError>
    ensures { Appends bytes.old.items bytes.new.items (escaped text.now) result }
{
    for byte in text {
        put_byte(bytes, *byte)?;
    }
    Ok(())
}

fn put_byte(bytes: &mut Vec<u8>, byte: u8) -> Result<(), AllocError>
    ensures { Appends bytes.old.items bytes.new.items (escaped_byte byte) result }
{
    if byte == b'\n' {
        bytes.extend_from_slice(b"\\n")
    } else {
        bytes.push(byte)?;
        Ok(())
    }
}
