// tapeform: reads a tape on standard input and writes its form (document 02, M-100), or the line of a tape that is turned back.
#![tactic(auto)]

ghost use Rattle.std.specs.Prelude.{◌≡◌, ◌≤◌, length};
ghost use Rattle.output.specs.Counted.{counted};
ghost use Rattle.tapeform.specs.Forms.{form_text};

use tape::Header;

// The form of a tape, or its refused line, and how many bytes they are. A form is no longer than a tape may be.
fn print_form(tape: &[u8], page: &mut [u8]) -> u64
    requires { 65535 ≤ length page.old }
    ensures { result ≡ counted (length (form_text tape.now)) }
{
    match form::write(tape, page) {
        Ok(size) => {
            let h = output::hand_over(&page[..size], 0);
            h.bytes
        }
        Err(row) => {
            let mut line = [0u8; 128];
            let n = text::put_refused(&mut line, 0, u32::from(row));
            let h = output::hand_over(&line[..n], 0);
            h.bytes
        }
    }
}

fn main() {
    // One byte more than a tape may have: a longer one is then refused as too long.
    let mut buf = io::large_buffer();
    let n = io::read_full(0, &mut buf);
    let mut page = [0u8; Header::MOST_TAPE];
    print_form(&buf[..n], &mut page);
}
