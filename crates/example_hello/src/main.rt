//! A list that is longer by an item, and the list that it was made of.
#![tactic(auto)]

use rpds::List;
use std::io;

fn main(rt: HostRuntime) -> io::Result<()> {
    let list = List::new(rt.alloc()).push_front("list")?;
    let a_list = list.push_front("a")?;
    println!(rt; "{list} {a_list}")
}
