// Components as a joined leg sends them: which are SubaddressTransfer invokes.
use std::io;
use subaddresses::is_subaddress_transfer;

fn case(rt: &impl Print, words: &str, component: &[u8]) -> io::Result<()> {
    if is_subaddress_transfer(component) {
        println!(rt; "{words}: SubaddressTransfer")
    } else {
        println!(rt; "{words}: no such invoke")
    }
}

// `component_forms` has the same loop, over cases of its own: a library of it would be more.
fn cases(rt: &impl Print, cases: &[(&str, &[u8])]) -> io::Result<()> {
    for (words, component) in cases {
        case(rt, words, component)?;
    }
    Ok(())
}

// The argument as 04, the subaddress alone.
fn alone(rt: &impl Print) -> io::Result<()> {
    cases(
        rt,
        &[
            (
                "subaddress of 1 octet",
                b"\xa1\x0e\x02\x01\x05\x06\x06\x04\x00\x82\x71\x01\x03\x04\x01\x37",
            ),
            (
                "of 20 octets",
                b"\xa1\x21\x02\x01\x05\x06\x06\x04\x00\x82\x71\x01\x03\x04\x14ABCDEFGHIJKLMNOPQRST",
            ),
            (
                "of none",
                b"\xa1\x0d\x02\x01\x05\x06\x06\x04\x00\x82\x71\x01\x03\x04\x00",
            ),
            (
                "of 21 octets",
                b"\xa1\x22\x02\x01\x05\x06\x06\x04\x00\x82\x71\x01\x03\x04\x15ABCDEFGHIJKLMNOPQRSTU",
            ),
            (
                "an element behind the argument",
                b"\xa1\x10\x02\x01\x05\x06\x06\x04\x00\x82\x71\x01\x03\x04\x01\x37\x05\x00",
            ),
        ],
    )
}

// The argument as 30, with what may stand behind the subaddress.
fn in_sequence(rt: &impl Print) -> io::Result<()> {
    cases(
        rt,
        &[
            (
                "in a sequence",
                b"\xa1\x10\x02\x01\x05\x06\x06\x04\x00\x82\x71\x01\x03\x30\x03\x04\x01\x37",
            ),
            (
                "with one 01",
                b"\xa1\x13\x02\x01\x05\x06\x06\x04\x00\x82\x71\x01\x03\x30\x06\x04\x01\x37\x01\x01\xff",
            ),
            (
                "with two 01",
                b"\xa1\x16\x02\x01\x05\x06\x06\x04\x00\x82\x71\x01\x03\x30\x09\x04\x01\x37\x01\x01\xff\x01\x01\xff",
            ),
            (
                "with 01 of two octets",
                b"\xa1\x14\x02\x01\x05\x06\x06\x04\x00\x82\x71\x01\x03\x30\x07\x04\x01\x37\x01\x02\xff\xff",
            ),
            (
                "empty sequence",
                b"\xa1\x0d\x02\x01\x05\x06\x06\x04\x00\x82\x71\x01\x03\x30\x00",
            ),
        ],
    )
}

// What is no such invoke.
fn no_transfer(rt: &impl Print) -> io::Result<()> {
    cases(
        rt,
        &[
            (
                "padded identifier",
                b"\xa1\x0f\x02\x02\x00\x05\x06\x06\x04\x00\x82\x71\x01\x03\x04\x01\x37",
            ),
            (
                "object identifier ending 04",
                b"\xa1\x0e\x02\x01\x05\x06\x06\x04\x00\x82\x71\x01\x04\x04\x01\x37",
            ),
            ("EctExecute", b"\xa1\x06\x02\x01\x05\x02\x01\x06"),
            ("result", b"\xa2\x03\x02\x01\x05"),
            ("no octets", b""),
        ],
    )
}

pub fn forms(rt: &impl Print) -> io::Result<()> {
    alone(rt)?;
    in_sequence(rt)?;
    no_transfer(rt)
}
