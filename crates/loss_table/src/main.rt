// Reads one stream file from standard input and prints its loss table, or its refusal.
#![tactic(auto)]

use crate::whole_file::print_loss_text;
use std::io;

mod file_text;
mod whole_file;

fn main(rt: HostRuntime) -> io::Result<()> {
    print_loss_text(rt.alloc(), rt.reader(), &mut io::writer(&rt))
}
