// Transfers made inside a private exchange: what an EctInform invoke says of one.
#![tactic(auto)]

ghost use Rattle.std.specs.Prelude.{◌≡◌};
ghost use Rattle.std.specs.Result.{result_ok};
ghost use Rattle.elements.specs.Elements.{first_element};
ghost use Rattle.private_transfers.specs.EctInform.{digits_in, number_in, indicated};
ghost use Rattle.private_transfers.specs.EctInform.{inform_held, inform_argument, inform_in};
ghost use Rattle.private_transfers.specs.Code.Readers.{number_read, inform_read};

use component::ECT_INFORM;
use component::arguments::read_arguments;
use digits::all_digits;
use elements::{first_element, only_element};
use thiserror::Error;

// How the other call of the transfer stands.
#[derive(Clone, Copy, Debug, PartialEq, Eq)]
pub enum Indication {
    Alerting,
    Active,
}

impl TryFrom<u8> for Indication {
    type Error = UnknownIndication;

    ghost try_from_gives = { λ octet result. result_ok result ≡ indicated octet };

    fn try_from(octet: u8) -> Result<Self, UnknownIndication> {
        match octet {
            0 => Ok(Indication::Alerting),
            1 => Ok(Indication::Active),
            _ => Err(UnknownIndication),
        }
    }
}

// The refusal to read an octet as an indication: none has that number. Its own type: nothing here knows of a board.
#[derive(Clone, Copy, Debug, PartialEq, Eq, Error)]
#[error("no indication has that number")]
pub struct UnknownIndication;

// The number of the other call's party: not sent, sent without its digits, or given.
#[derive(Clone, Copy, Debug, PartialEq, Eq)]
pub enum RedirectionNumber<'a> {
    NotSent,
    Restricted,
    // 1 to 15 digits, where the component has them.
    Given(&'a [u8]),
}

// What a component says as an EctInform invoke.
#[derive(Clone, Copy, Debug, PartialEq, Eq)]
pub struct EctInform<'a> {
    pub indication: Indication,
    pub number: RedirectionNumber<'a>,
}

// What an A0 holds: one 80 with 1 to 15 digits, and nothing behind it.
fn read_digits(s: &[u8]) -> Option<RedirectionNumber<'_>>
    ensures { number_read result ≡ digits_in (first_element s.now) }
{
    let element = only_element(s)?;
    if element.tag != 0x80 {
        return None;
    }
    let digits = element.contents;
    if !matches!(digits.len(), 1..=15) || !all_digits(digits) {
        return None;
    }
    Some(RedirectionNumber::Given(digits))
}

// What may follow an indication: nothing, or one element in one of two forms, and nothing behind it.
fn read_number(rest: &[u8]) -> Option<RedirectionNumber<'_>>
    ensures { number_read result ≡ number_in rest.now }
{
    if rest.is_empty() {
        return Some(RedirectionNumber::NotSent);
    }
    let element = only_element(rest)?;
    match (element.tag, element.contents) {
        (0x81, []) => Some(RedirectionNumber::Restricted),
        (0xa0, held) => read_digits(held),
        _ => None,
    }
}

// What the argument holds: an indication, and perhaps a number.
fn read_held(s: &[u8]) -> Option<EctInform<'_>>
    ensures { inform_read result ≡ inform_held (first_element s.now) }
{
    let element = first_element(s)?;
    if element.tag != 0x0a {
        return None;
    }
    let [octet] = element.contents else {
        return None;
    };
    Some(EctInform {
        indication: Indication::try_from(*octet).ok()?,
        number: read_number(element.rest)?,
    })
}

// The octets behind the operation: the argument, and nothing behind it.
fn read_argument(behind: &[u8]) -> Option<EctInform<'_>>
    ensures { inform_read result ≡ inform_argument (first_element behind.now) }
{
    let element = only_element(behind)?;
    if element.tag != 0x30 {
        return None;
    }
    read_held(element.contents)
}

// Reads a component of any length and content.
#[tactic(auto, unfolding(crate::specs::EctInform::inform_in))]
pub fn read_inform(component: &[u8]) -> Option<EctInform<'_>>
    ensures { inform_read result ≡ inform_in component.now }
{
    read_argument(read_arguments(component, ECT_INFORM)?)
}
