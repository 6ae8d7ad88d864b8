// Packing a log, or unpacking an archive, that is read whole.
ghost use Rattle.std.specs.Prelude.{◌≤◌, length, IfOk};

use crate::failure::Failure;
use log_archives::{MOST_OCTETS, NotRegrouped, pack, unpack};
use std::fs;
use std::io::Read;
use std::rt::Files;

#[derive(Clone, Copy)]
pub enum Way {
    Pack,
    Unpack,
}

// The most octets of an archive, which has four more than its log.
const MOST: usize = MOST_OCTETS + 4;

// One octet more is read, to see that there are more than may be.
const READ: usize = MOST + 1;

#[tactic(auto, using(crate::proofs::Bounds::within))]
fn regroup(way: Way, octets: &[u8], target: &mut [u8]) -> Result<usize, NotRegrouped>
    ensures { IfOk result (λ n. n ≤ length target.new) }
{
    match way {
        Way::Pack => pack(octets, target),
        Way::Unpack => unpack(octets, target),
    }
}

// Reads until the input ends or the buffer is full, and says how many octets that are.
fn read_all(reader: &mut impl Read, buffer: &mut [u8]) -> Result<usize, Failure>
    ensures { IfOk result (λ n. n ≤ length buffer.new) }
{
    let mut count = 0;
    for _ in 0..u64::MAX {
        match reader.read(&mut buffer[count..]) {
            Ok(0) => break,
            Ok(more) => count += more,
            Err(_) => return Err(Failure::CannotRead),
        }
    }
    Ok(count)
}

// Reads, regroups and writes.
fn regroup_all(rt: &impl Print, way: Way, reader: &mut impl Read) -> Result<(), Failure> {
    let mut octets = [0u8; READ];
    let mut target = [0u8; MOST];
    let count = read_all(reader, &mut octets)?;
    match regroup(way, &octets[..count], &mut target) {
        Ok(n) => rt.write_all(&target[..n]).map_err(|_| Failure::CannotWrite),
        Err(refused) => Err(Failure::Refused(refused)),
    }
}

pub fn regroup_input(rt: &(impl Input + Print), way: Way) -> Result<(), Failure> {
    regroup_all(rt, way, &mut rt.reader())
}

pub fn regroup_file(rt: &(impl Files + Print), way: Way, name: &str) -> Result<(), Failure> {
    let mut file = fs::open(rt, name).map_err(|_| Failure::CannotRead)?;
    regroup_all(rt, way, &mut file)
}
