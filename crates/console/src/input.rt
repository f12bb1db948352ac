use std::io;
use std::io::Read;

// One byte more than a day file may have: enough to know that a file is too long.
const ENOUGH: u64 = 65537;

// The bytes of standard input, up to the first that shows it to be too long.
pub fn read_day(rt: &HostRuntime) -> io::Result<Vec<u8>> {
    let mut file = Vec::new(rt.alloc());
    let mut input = rt.stdin().take(ENOUGH);
    input.read_to_end(&mut file)?;
    Ok(file)
}
