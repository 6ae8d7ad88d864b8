// Elements: a tag octet, a length octet, and that many octets of contents; and those that are integers or object
// identifiers.
#![tactic(auto)]

ghost use Rattle.elements.specs.Elements.{first_element, only_element, whole_elements};
ghost use Rattle.elements.specs.Code.Readers.{element_of, checked};
ghost use Rattle.std.specs.Prelude.{◌≡◌};

pub mod values;

// The first element of some octets: its tag, its contents, and the octets after it.
#[derive(Clone, Copy)]
pub struct FirstElement<'a> {
    pub tag: u8,
    pub contents: &'a [u8],
    pub rest: &'a [u8],
}

// Leaves the contents unread.
#[tactic(auto, using(crate::proofs::ElementLaws::one))]
pub fn first_element(s: &[u8]) -> Option<FirstElement<'_>>
    ensures { element_of result ≡ first_element s.now }
{
    let [tag, len, after @ ..] = s else {
        return None;
    };
    if tag % 32 == 31 {
        return None;
    }
    if 128 <= *len {
        return None;
    }
    let (contents, rest) = after.split_at_checked(usize::from(*len))?;
    Some(FirstElement {
        tag: *tag,
        contents,
        rest,
    })
}

// An element that nothing follows.
pub fn only_element(s: &[u8]) -> Option<FirstElement<'_>>
    ensures { element_of result ≡ only_element (first_element s.now) }
{
    first_element(s).filter(|element| element.rest.is_empty())
}

// The first element, whose contents may nest `depth` deep.
#[cycle(read_element_are_elements)]
#[tactic(auto, using(crate::proofs::ElementLaws::parts))]
pub fn read_element(s: &[u8], depth: u8) -> Option<FirstElement<'_>>
    ensures { element_of result ≡ checked (whole_elements depth) (first_element s.now) }
{
    let Some(element) = first_element(s) else {
        return None;
    };
    if element.tag / 32 % 2 == 1 && !are_elements(element.contents, depth) {
        return None;
    }
    Some(element)
}

// Whether these are elements up to the end that nest at most `depth` deep, these counted. None are left at depth 0.
#[cycle(read_element_are_elements)]
#[tactic(auto, using(crate::proofs::ElementLaws::nested))]
pub fn are_elements(s: &[u8], depth: u8) -> bool
    ensures { result ≡ whole_elements depth s.now }
{
    if s.is_empty() {
        return true;
    }
    if depth == 0 {
        return false;
    }
    let Some(element) = read_element(s, depth - 1) else {
        return false;
    };
    #[tactic(auto, using(crate::proofs::ElementLaws::judged_parts))]
    are_elements(element.rest, depth)
}
