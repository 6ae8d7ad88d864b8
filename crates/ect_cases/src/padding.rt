// Integers of two octets in each place where a component has one: a padded one is not of the required form.
use crate::show::{Hex, Read};
use std::io;

// The integer, its place, and what the component that holds it is read as.
fn in_each_place(rt: &impl Print, a: u8, b: u8) -> io::Result<()> {
    let cases: [(&str, &[u8]); 3] = [
        ("identifier", &[0xa1, 7, 2, 2, a, b, 2, 1, 6]),
        ("operation", &[0xa1, 7, 2, 1, 5, 2, 2, a, b]),
        (
            "LinkId",
            &[0xa1, 15, 2, 1, 5, 6, 6, 4, 0, 0x82, 0x71, 1, 1, 2, 2, a, b],
        ),
    ];
    for (place, component) in cases {
        let read = Read(component::read(component));
        println!(rt; "{} as {place}: {read}", Hex(&[2, 2, a, b]))?;
    }
    Ok(())
}

pub fn padded_or_not(rt: &impl Print) -> io::Result<()> {
    for [a, b] in [[0x00, 0x05], [0xff, 0x80], [0x00, 0x80], [0xff, 0x7f]] {
        in_each_place(rt, a, b)?;
    }
    Ok(())
}
