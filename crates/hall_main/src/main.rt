// Runs the built-in hall, cases 1 to 8, and prints one line. It takes no input.
#![tactic(auto)]

use std::io;

fn main(rt: HostRuntime) -> io::Result<()> {
    if hall::hall_ok() {
        println!(rt; "hall ok")
    } else {
        println!(rt; "hall bad")
    }
}
