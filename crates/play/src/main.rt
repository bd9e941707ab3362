// Plays a script of calls on two nodes, read from standard input; each call is printed with its answer and what it gave.
//
// The input has two bytes, the numbers of records of the two layouts, then the layouts, then steps of 40 bytes: byte 0 the node, 0 or 1; byte 1 the call;
// byte 2 the message or frame; byte 3 the length of the data or buffer; byte 4 the controller status; from byte 8 on the value's four bytes or the data.
// The file script.txt beside this folder has the calls in words, with their answers.
#![tactic(auto)]

ghost use Rattle.std.specs.Prelude.{◌≤◌, length};

use std::io::Read;
use store::Node;

type Step = [u8; 40];

// A call with what its step brings. A length above 32 has no data, and no buffer.
enum Call<'a> {
    Send {
        message: u64,
        value: i64,
    },
    Invalidate {
        message: u64,
    },
    Assemble {
        frame: u64,
        size: usize,
    },
    Consumed {
        frame: u64,
    },
    Flag {
        message: u64,
    },
    Deliver {
        frame: u64,
        valid: bool,
        bytes: Option<&'a [u8]>,
    },
    Close,
    Receive {
        message: u64,
    },
}

impl<'a> Call<'a> {
    // The call of a step, if its number is one.
    fn of(step: &'a Step) -> Option<Call<'a>> {
        let number = u64::from(step[2]);
        let size = usize::from(step[3]);
        let value = i32::from_le_bytes([step[8], step[9], step[10], step[11]]);
        let call = match step[1] {
            1 => Call::Send {
                message: number,
                value: i64::from(value),
            },
            2 => Call::Invalidate { message: number },
            3 => Call::Assemble {
                frame: number,
                size,
            },
            4 => Call::Consumed { frame: number },
            5 => Call::Flag { message: number },
            6 => Call::Deliver {
                frame: number,
                valid: step[4] != 0,
                bytes: step[8..].get(..size),
            },
            7 => Call::Close,
            8 => Call::Receive { message: number },
            _ => return None,
        };
        Some(call)
    }

    // Whatever becomes of the writes, the call is made.
    fn play(self, rt: &impl Print, node: &mut Node) {
        match self {
            Call::Send { message, value } => {
                say_call(rt, "send ", message);
                say_number(rt, u64::from(node::send(node, message, value)));
                say_value(rt, value);
            }
            Call::Invalidate { message } => {
                say_call(rt, "invalidate ", message);
                say_number(rt, u64::from(node::invalidate(node, message)));
            }
            Call::Assemble { frame, size } => {
                say_call(rt, "assemble ", frame);
                play_assemble(rt, node, frame, size);
            }
            Call::Consumed { frame } => {
                say_call(rt, "consumed ", frame);
                say_number(rt, u64::from(node::consumed(node, frame)));
            }
            Call::Flag { message } => {
                say_call(rt, "flag ", message);
                let mut flag = 9u8;
                say_number(rt, u64::from(node::read_flag(node, message, &mut flag)));
                say_value(rt, i64::from(flag));
            }
            Call::Deliver {
                frame,
                valid,
                bytes,
            } => {
                say_call(rt, "deliver ", frame);
                if let Some(bytes) = bytes {
                    say_number(rt, u64::from(node::deliver(node, frame, valid, bytes)));
                }
            }
            Call::Close => {
                say(rt, "close: ");
                say_number(rt, u64::from(node::close(node)));
            }
            Call::Receive { message } => {
                say_call(rt, "receive ", message);
                let mut value = 99i64;
                say_number(rt, u64::from(node::receive(node, message, &mut value)));
                say_value(rt, value);
            }
        }
    }
}

// ---- what is printed

// A piece of a line. Each is written by itself, so that a write that fails takes no other piece with it; it is passed over, and the calls go on.
fn say(rt: &impl Print, text: &str) {
    let _ = rt.write_all(text.as_bytes());
}

fn say_number(rt: &impl Print, n: u64) {
    let _ = rt.print(n);
}

fn say_call(rt: &impl Print, name: &str, number: u64) {
    say(rt, name);
    say_number(rt, number);
    say(rt, ": ");
}

fn say_value(rt: &impl Print, value: i64) {
    say(rt, if value < 0 { " -" } else { " " });
    say_number(rt, value.unsigned_abs());
}

fn play_assemble(rt: &impl Print, node: &mut Node, frame: u64, size: usize) {
    let mut memory = [255u8; 32];
    let Some(buffer) = memory.get_mut(..size) else {
        return;
    };
    say_number(rt, u64::from(node::assemble(node, frame, buffer)));
    for &byte in buffer.iter() {
        say_value(rt, i64::from(byte));
    }
}

// One step on its node: a line.
fn play_step(rt: &impl Print, name: &str, node: &mut Node, step: &Step) {
    say(rt, name);
    if let Some(call) = Call::of(step) {
        call.play(rt, node);
    }
    say(rt, "\n");
}

fn play_load(rt: &impl Print, node: &mut Node, file: &[u8]) {
    say(rt, "load: ");
    say_number(rt, u64::from(node::load(node, file)));
    say(rt, "\n");
}

// ---- what is played

// Reads until the buffer is full, the input ends or a read fails. Not by `copy`: that tries a read again which a signal interrupted, where this one has failed.
fn read_full(from: &mut impl Read, input: &mut [u8]) -> usize
    ensures { result ≤ length input.new }
{
    let mut n = 0;
    while n < input.len() {
        let Ok(more) = from.read(&mut input[n..]) else {
            break;
        };
        if more == 0 {
            break;
        }
        n += more;
    }
    n
}

fn main(rt: HostRuntime) {
    // Not cut to what was read: zeros beyond a short input are read as records.
    let mut input = [0u8; 8192];
    let n = read_full(&mut rt.stdin(), &mut input);
    let mut a: Node = [0; 2851];
    let mut b: Node = [0; 2851];
    let middle = 2 + 24 * (usize::from(input[0]) % 100);
    let end = middle + 24 * (usize::from(input[1]) % 100);
    play_load(&rt, &mut a, &input[2..middle]);
    play_load(&rt, &mut b, &input[middle..end]);
    let Some(steps) = input.get(end..n) else {
        return;
    };
    let (steps, _) = steps.as_chunks();
    for step in steps {
        let (name, node) = if step[0] == 0 {
            ("a ", &mut a)
        } else {
            ("b ", &mut b)
        };
        play_step(&rt, name, node, step);
    }
}
