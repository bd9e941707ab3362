// The listing program: reads a layout from standard input and lists its fields, or says why it is refused. Where the input cannot be read it says so on
// standard error, and nothing on standard output.
#![tactic(auto)]

ghost use Rattle.std.specs.Prelude.{◌≤◌, length, IfOk};

use std::io::{self, Read};

// Reads until the buffer is full or the input ends. Not by `copy`: that tries a read again which a signal interrupted, where this one has failed.
fn read_input(from: &mut impl Read, file: &mut [u8]) -> io::Result<usize>
    ensures { IfOk result (λ n. n ≤ length file.new) }
{
    let mut n = 0;
    while n < file.len() {
        let more = from.read(&mut file[n..])?;
        if more == 0 {
            break;
        }
        n += more;
    }
    Ok(n)
}

// One byte more than the longest layout is read, so that a longer one is refused however long it is. A write that fails is passed over.
fn main(rt: HostRuntime) {
    let mut file = [0u8; 4609];
    let Ok(n) = read_input(&mut rt.stdin(), &mut file) else {
        // Not `eprintln!`: it has a kibibyte of stack of its own.
        let _ = rt
            .stderr()
            .write_all(b"list: standard input cannot be read\n");
        return;
    };
    let mut out = [0u8; 4096];
    let m = listing::list_file(&file[..n], &mut out);
    let _ = rt.write_all(&out[..m]);
}
