// The event records of the cases.
use board::Direction;
use std::array;

// A record that begins with these octets; the others are zero.
pub fn padded<const N: usize>(front: &[u8]) -> [u8; N] {
    array::from_fn(|i| front.get(i).copied().unwrap_or(0))
}

// Open of a reference and a leg, shown, with two digits.
pub fn open(reference: u8, leg: u8, direction: Direction, digits: [u8; 2]) -> [u8; 25] {
    let [a, b] = digits;
    padded(&[1, 0, reference, 0, 0, 0, leg, direction as u8, 0, 2, a, b])
}

// The same of kind 9, with a type of number.
pub fn typed_open(
    reference: u8,
    leg: u8,
    direction: Direction,
    type_of_number: u8,
    digits: [u8; 2],
) -> [u8; 26] {
    let [a, b] = digits;
    padded(&[
        9,
        0,
        reference,
        0,
        0,
        0,
        leg,
        direction as u8,
        0,
        type_of_number,
        2,
        a,
        b,
    ])
}

// EctExecute on the call with that reference: a1 06, identifier 02 01 05, operation 02 01 06.
pub fn execute(reference: u8) -> [u8; 36] {
    padded(&[5, 0, reference, 8, 0xa1, 6, 2, 1, 5, 2, 1, 6])
}

// EctLinkIdRequest on the call with that reference: a1 0b, identifier 02 01 05, and the object identifier that ends 04.
pub fn request(reference: u8) -> [u8; 36] {
    padded(&[
        5, 0, reference, 13, 0xa1, 11, 2, 1, 5, 6, 6, 4, 0, 0x82, 0x71, 1, 4,
    ])
}

// ExplicitEctExecute on the call with that reference, with that LinkId.
pub fn execute_explicitly(reference: u8, link_id: u8) -> [u8; 36] {
    padded(&[
        5, 0, reference, 16, 0xa1, 14, 2, 1, 5, 6, 6, 4, 0, 0x82, 0x71, 1, 1, 2, 1, link_id,
    ])
}

// The Leg facility of this leg with a subaddress of one octet, 37, in an invoke of the object identifier that ends so.
pub fn leg_facility(leg: u8, last: u8) -> [u8; 70] {
    padded(&[
        7, 0, 0, 0, leg, 16, 0xa1, 14, 2, 1, 5, 6, 6, 4, 0, 0x82, 0x71, 1, last, 4, 1, 0x37,
    ])
}

// The Inform of the call with this reference, with this indication and the digits 21.
pub fn inform(reference: u8, indication: u8) -> [u8; 68] {
    padded(&[
        8, 0, reference, 24, 0xa1, 22, 2, 1, 5, 6, 6, 4, 0, 0x82, 0x71, 1, 5, 0x30, 9, 0x0a, 1,
        indication, 0xa0, 4, 0x80, 2, 0x32, 0x31,
    ])
}
