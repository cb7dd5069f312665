// Replies compared and printed.
ghost use Rattle.std.specs.Prelude.{◌≡◌, true};

use crate::print::print_values;
use reply::Reply;
use std::io;

fn same_values(values: &[usize], others: &[usize]) -> bool
    ensures { (result ≡ true → values.now ≡ others.now) × (values.now ≡ others.now → result ≡ true) }
{
    values == others
}

pub fn is_same(reply: Reply, other: Reply) -> bool
    ensures { (result ≡ true → reply ≡ other) × (reply ≡ other → result ≡ true) }
{
    reply.number == other.number && same_values(&reply.values, &other.values)
}

pub fn print_reply(rt: &impl Print, reply: Reply) -> io::Result<()> {
    print!(rt; " {} values", reply.number)?;
    print_values(rt, &reply.values)
}
