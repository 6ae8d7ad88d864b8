// Digits as octets: whether octets are digits, and digits in the 15 octets that a number has.
#![tactic(auto)]

ghost use Rattle.std.specs.Prelude.{◌≡◌};
ghost use Rattle.octets.specs.Lists.{all};
ghost use Rattle.digits.specs.Digits.{is_digit, in_fifteen, zeros};

// Whether each octet is a digit.
pub fn all_digits(s: &[u8]) -> bool
    ensures { result ≡ all is_digit s.now }
{
    s.iter().all(|octet| octet.is_ascii_digit())
}

// Whether each octet is zero, as those behind digits or a component are.
pub fn all_zeros(s: &[u8]) -> bool
    ensures { result ≡ zeros s.now }
{
    s.iter().all(|octet| *octet == 0)
}

// The octets in front of zeros, 15 in all, as digits stand in rows and records: for a number read from a
// component. No const parameter: no field of digits has another length.
pub fn in_fifteen(s: &[u8]) -> [u8; 15]
    ensures { result ≡ in_fifteen s.now }
{
    let mut digits = [0u8; 15];
    let len = s.len().min(15);
    digits[..len].copy_from_slice(&s[..len]);
    digits
}
