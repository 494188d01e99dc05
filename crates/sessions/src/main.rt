// Runs the stored sessions, the files 000.tape, 001.tape and so on of its folder, prints what each gives, and how many there were.
#![tactic(auto)]

ghost use Rattle.std.specs.Prelude.{◌<◌};

use output::STDOUT;
use std::fs::File;
use std::os::fd::AsRawFd;
use std::str;

// One session, or false where there is no such file.
fn run(rt: &HostRuntime, n: u8) -> bool
    requires { n < 200 }
{
    let path = [
        b'0' + n / 100,
        b'0' + n / 10 % 10,
        b'0' + n % 10,
        b'.',
        b't',
        b'a',
        b'p',
        b'e',
    ];
    let name = str::from_utf8(&path).unwrap();
    match File::open(rt, name) {
        Err(_) => false,
        Ok(file) => {
            let mut buf = io::large_buffer();
            let got = io::read_full(file.as_raw_fd(), &mut buf);
            drop(file);
            print::print_tape(&buf[..got]);
            true
        }
    }
}

fn main(rt: HostRuntime) {
    let mut n: u8 = 0;
    // No `for`: how many there were is printed behind the loop.
    while n < 200 && run(&rt, n) {
        n += 1;
    }
    io::print_decimal(STDOUT, n as u64);
    io::write_all(STDOUT, b" sessions\n");
}
