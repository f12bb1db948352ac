ghost use Rattle.std.specs.Prelude.{Some, codes};
ghost use Rattle.std.specs.Result.{IfErr};
ghost use Rattle.anyhow.specs.Error.{IsMadeOf};

use crate::input::read_day;
use anyhow::Context;
use listing::list_day;
use std::alloc::Global;
use std::io::Write;
use wording::Listed;

// The text of a day file, or that there was no memory for it.
fn day_text<A: Listed>(heap: Global, file: &[u8]) -> anyhow::Result<String>
    ensures { IfErr result (IsMadeOf (Some (codes "no memory"))) }
{
    list_day::<A>(heap, file).ok().context("no memory")
}

// Prints the listing of the day file on standard input.
pub fn list_input<A: Listed>(rt: &HostRuntime) -> anyhow::Result<()> {
    let file = read_day(rt)?;
    let text = day_text::<A>(rt.alloc(), file.as_slice())?;
    rt.stdout().write_all(text.as_bytes())?;
    Ok(())
}
