// Reads a bundle from standard input and prints its listing.
#![tactic(auto)]

use input::read_bundle;
use std::io;
use text::listing::listing;

fn main(rt: HostRuntime) -> io::Result<()> {
    let mut space = [0u8; 65536];
    let len = read_bundle(&mut rt.reader(), &mut space)?;
    let mut text = [0u8; 512];
    if let Ok(n) = listing(&space[..len], &mut text) {
        rt.write_all(&text[..n])?;
    }
    Ok(())
}
