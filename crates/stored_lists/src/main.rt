// Runs the lists of calls of standard input and prints what each leaves (crates/tapes/specs). At most 688,128 bytes are read and 262,144 written.
// First come the lists of tools/edges.py, which says by a model what must be printed; then a sample of those that the Rust crate was run on, with
// its answers (oracle/driver/sample.rs).

#![tactic(auto)]

use std::io;
use std::io::Read;

fn main(rt: HostRuntime) -> io::Result<()> {
    let mut input = Vec::new(rt.alloc());
    rt.stdin().take(688128).read_to_end(&mut input)?;
    print(&rt, &input)
}

fn print(rt: &impl Print, lists: &[u8]) -> io::Result<()> {
    let mut text = [0u8; 262144];
    let used = tapes::answer_lists(lists, &mut text);
    rt.write_all(&text[..used])
}
