// Numbers on standard output. No contract speaks of what is written there.
use std::io;

// Numbers, each after a space.
pub fn print_values(rt: &impl Print, values: &[usize]) -> io::Result<()> {
    for value in values {
        print!(rt; " {value}")?;
    }
    Ok(())
}
