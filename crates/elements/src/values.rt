// Elements read as values: integers and object identifiers, each with the octets after it.
ghost use Rattle.std.specs.Prelude.{◌≡◌};
ghost use Rattle.elements.specs.Elements.{first_element};
ghost use Rattle.elements.specs.Values.{integer_octets_in, integer_in, object_in, with_rest};
ghost use Rattle.elements.specs.Code.Readers.{integer_read, object_read};

use crate::first_element;
use octets::IntegerOctets;

// One or two octets of contents, padded or not.
pub fn read_integer_octets(s: &[u8]) -> Option<(IntegerOctets, &[u8])>
    ensures { integer_read result ≡ with_rest (integer_octets_in (first_element s.now)) (first_element s.now) }
{
    let Some(element) = first_element(s) else {
        return None;
    };
    if element.tag != 0x02 {
        return None;
    }
    match element.contents {
        [a] => Some((IntegerOctets::One(*a), element.rest)),
        [a, b] => Some((IntegerOctets::Two(*a, *b), element.rest)),
        _ => None,
    }
}

// An integer of the required form: what is padded is none.
pub fn read_integer(s: &[u8]) -> Option<(IntegerOctets, &[u8])>
    ensures { integer_read result ≡ with_rest (integer_in (first_element s.now)) (first_element s.now) }
{
    read_integer_octets(s).filter(|(octets, _)| !octets.is_padded())
}

// The octets of an object identifier: one or more.
pub fn read_object(s: &[u8]) -> Option<(&[u8], &[u8])>
    ensures { object_read result ≡ with_rest (object_in (first_element s.now)) (first_element s.now) }
{
    let Some(element) = first_element(s) else {
        return None;
    };
    if element.tag != 0x06 {
        return None;
    }
    if element.contents.is_empty() {
        return None;
    }
    Some((element.contents, element.rest))
}
