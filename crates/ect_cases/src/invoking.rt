// How a test set calls `write_invoke`: invokes are written and read back, and a buffer is too small or has octets to
// spare.
use crate::show::{Hex, Invoke, Read, front};
use component::Operation;
use events::Refusal;
use invokes::write_invoke;
use octets::{InvokeIdentifier, LinkId};
use std::io;

fn case(rt: &impl Print, operation: Operation, identifier: InvokeIdentifier) -> io::Result<()> {
    let invoke = Invoke(operation, identifier);
    let mut buffer = [0u8; 32];
    match write_invoke(operation, identifier, &mut buffer) {
        Ok(n) => {
            let octets = front(&buffer, n);
            let back = Read(component::read(octets));
            println!(rt; "{invoke}: {}, read back {back}", Hex(octets))
        }
        Err(_) => println!(rt; "{invoke}: refused"),
    }
}

pub fn written_and_read(rt: &impl Print) -> io::Result<()> {
    for identifier in [-129, -128, -1, 0, 127, 128] {
        case(rt, Operation::EctExecute, InvokeIdentifier(identifier))?;
    }
    let lowest = LinkId(-32768);
    case(
        rt,
        Operation::ExplicitEctExecute(lowest),
        InvokeIdentifier(5),
    )?;
    case(rt, Operation::EctLinkIdRequest, InvokeIdentifier(5))
}

// Writes an EctExecute, and returns the number that the answer stands for, which is what is printed.
fn number_of_write(buffer: &mut [u8]) -> u8 {
    match write_invoke(Operation::EctExecute, InvokeIdentifier(5), buffer) {
        Ok(_) => 0,
        Err(_) => u8::from(Refusal::BufferTooSmall),
    }
}

// Buffers filled with ff: one is an octet too small, the other keeps what lies beyond the octets written.
pub fn buffers(rt: &impl Print) -> io::Result<()> {
    let mut small = [0xffu8; 31];
    let number = number_of_write(&mut small);
    let state = if small == [0xff; 31] {
        "untouched"
    } else {
        "touched"
    };
    println!(rt; "buffer of 31 octets: {number}, {state}")?;
    let mut buffer = [0xffu8; 32];
    let number = number_of_write(&mut buffer);
    println!(rt; "buffer of 32 octets: {number}, {}", Hex(&buffer))
}
