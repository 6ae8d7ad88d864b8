// Subaddresses that joined parties send each other: which components carry one.
#![tactic(auto)]

ghost use Rattle.std.specs.Prelude.{◌≡◌};
ghost use Rattle.elements.specs.Elements.{first_element};
ghost use Rattle.subaddresses.specs.SubaddressTransfer.{is_subaddress, perhaps_odd_count, is_user_specified};
ghost use Rattle.subaddresses.specs.SubaddressTransfer.{is_argument, is_subaddress_transfer};

use component::SUBADDRESS_TRANSFER;
use component::arguments::read_arguments;
use elements::{first_element, only_element};

// An element's tag and length as those of a subaddress.
fn is_subaddress(tag: u8, len: usize) -> bool
    ensures { result ≡ is_subaddress tag len }
{
    tag == 0x04 && matches!(len, 1..=20)
}

// What may follow a subaddress: nothing, or whether its count of digits is odd, and nothing behind that.
fn is_perhaps_odd_count(s: &[u8]) -> bool
    ensures { result ≡ perhaps_odd_count s.now }
{
    s.is_empty()
        || only_element(s).is_some_and(|element| element.tag == 0x01 && element.contents.len() == 1)
}

// The contents of a user-specified subaddress.
fn is_user_specified(s: &[u8]) -> bool
    ensures { result ≡ is_user_specified (first_element s.now) }
{
    first_element(s).is_some_and(|element| {
        is_subaddress(element.tag, element.contents.len()) && is_perhaps_odd_count(element.rest)
    })
}

// The octets behind the operation: a subaddress in one of its two forms, and nothing behind it.
fn is_argument(s: &[u8]) -> bool
    ensures { result ≡ is_argument (first_element s.now) }
{
    only_element(s).is_some_and(|element| {
        is_subaddress(element.tag, element.contents.len())
            || element.tag == 0x30 && is_user_specified(element.contents)
    })
}

// Whether a component, of any length and content, is a SubaddressTransfer invoke.
#[tactic(auto, unfolding(crate::specs::SubaddressTransfer::is_subaddress_transfer))]
pub fn is_subaddress_transfer(component: &[u8]) -> bool
    ensures { result ≡ is_subaddress_transfer component.now }
{
    read_arguments(component, SUBADDRESS_TRANSFER).is_some_and(is_argument)
}
