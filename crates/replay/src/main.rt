// Replays the stored answers of the Rust crate: each case is called with outputs of several sizes, and the returned number
// and every byte of each output are compared. The files of answers lie in the folder where the program runs.
#![tactic(auto)]

mod files;
mod open_cases;
mod output_cases;
mod outputs;
mod stored;
mod tallies;

use std::io;

fn main(rt: HostRuntime) -> io::Result<()> {
    files::replay_all(&rt)
}
