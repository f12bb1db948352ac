ghost use Rattle.std.specs.Prelude.{◌≤◌, length};
ghost use Rattle.archive.specs.Writing.{Wrote};

use crate::archived::WrongLength;

// Fills the place with the bytes, where it is as long as they are; a refusal leaves it as it was.
pub(crate) fn fill(out: &mut [u8], bytes: &[u8]) -> Result<(), WrongLength>
    requires { length bytes.now ≤ 16 }
    ensures { Wrote (length bytes.now) bytes.now out.old out.new result }
{
    if out.len() != bytes.len() {
        return Err(WrongLength);
    }
    out.copy_from_slice(bytes);
    Ok(())
}
