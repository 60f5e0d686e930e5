//! Prints the generator's scripts of three seeds and counts: with rounds and books behind them, at the greatest seed, and with one book.
//! Its `stdout` is what `tools/generate` writes of these, a second program that was written from docs/PROFILE.md, "The generator".
#![tactic(auto)]

ghost use Rattle.std.specs.Prelude.{◌≤◌, ◌<◌};

use std::alloc::Global;
use std::io;
use std::io::Print;
use workload_gen::Script;

fn main(rt: HostRuntime) -> io::Result<()> {
    let alloc = rt.alloc();
    print_script(&rt, alloc, 7, 20)?;
    print_script(&rt, alloc, u32::MAX, 9)?;
    print_script(&rt, alloc, 0, 1)
}

fn print_script<R: Print>(rt: &R, alloc: Global, seed: u32, count: u32) -> io::Result<()>
    requires { (0 < count) × (count ≤ 20000) }
{
    let mut script = Script::new(seed, count);
    while let Some(line) = script.next() {
        let text = line.text(alloc)?;
        println!(rt; "{text}")?;
    }
    Ok(())
}
