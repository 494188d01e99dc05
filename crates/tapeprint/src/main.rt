// tapeprint: reads a tape on standard input, prints its fills and refusals as they come, and what is open at its end.
#![tactic(auto)]

fn main() {
    // One byte more than a tape may have: a longer one is then refused as too long.
    let mut buf = io::large_buffer();
    let n = io::read_full(0, &mut buf);
    print::print_tape(&buf[..n]);
}
