use std::io;
use std::io::Read;

// One byte more than the largest image, so that a longer input is seen to be too long.
const KEPT: u64 = 65_537;

// The input as far as it matters. It is read to its end, whatever its length.
pub(crate) fn read_image(rt: &HostRuntime) -> io::Result<Vec<u8>> {
    let mut input = rt.stdin();
    let mut file = Vec::new(rt.alloc());
    input.by_ref().take(KEPT).read_to_end(&mut file)?;
    io::copy(&mut input, &mut io::sink())?;
    Ok(file)
}
