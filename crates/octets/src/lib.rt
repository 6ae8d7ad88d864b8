// Numbers as octets: call references, LinkIds, invoke identifiers, and the integers of a component.
#![tactic(auto)]

ghost use Rattle.std.specs.Prelude.{◌≡◌};
ghost use Rattle.octets.specs.Numbers.{signed, bits, integer_of, padded, fewest, next_link_id};

// A call reference: unsigned; its low 15 bits are not all zero where a board is sound.
#[derive(Clone, Copy, Debug, Default, PartialEq, Eq)]
pub struct CallReference(pub u16);

// A LinkId: from -32768 to 32767, and negative ones are ordinary.
#[derive(Clone, Copy, Debug, Default, PartialEq, Eq)]
pub struct LinkId(pub i16);

// An invoke identifier, by which an answer names its invoke: from -32768 to 32767.
#[derive(Clone, Copy, Debug, PartialEq, Eq)]
pub struct InvokeIdentifier(pub i16);

// An integer of a component: from -32768 to 32767, two's complement in one or two octets.
#[derive(Clone, Copy, Debug, PartialEq, Eq)]
pub struct Integer(pub i16);

// The contents of an integer element: one octet, or two with the high one first.
#[derive(Clone, Copy, Debug, PartialEq, Eq)]
pub enum IntegerOctets {
    One(u8),
    Two(u8, u8),
}

impl IntegerOctets {
    // Whether two octets say what the second alone would: their first nine bits are all equal.
    // By arithmetic, so that it says the rule's own words.
    pub fn is_padded(self) -> bool
        ensures { result ≡ padded self }
    {
        match self {
            IntegerOctets::One(_) => false,
            IntegerOctets::Two(a, b) => {
                let first_nine = u16::from(a) * 2 + u16::from(b) / 128;
                first_nine == 0 || first_nine == 511
            }
        }
    }
}

impl From<Integer> for LinkId {
    ghost from_gives = { λ integer id. id ≡ record { 0 = integer.0 } };

    fn from(integer: Integer) -> LinkId {
        LinkId(integer.0)
    }
}

impl From<LinkId> for Integer {
    ghost from_gives = { λ id integer. integer ≡ record { 0 = id.0 } };

    fn from(id: LinkId) -> Integer {
        Integer(id.0)
    }
}

impl LinkId {
    // The LinkId after this one.
    pub fn next(self) -> LinkId
        ensures { result ≡ record { 0 = next_link_id self.0 } }
    {
        LinkId(self.0.wrapping_add(1))
    }
}

// As for a LinkId: an impl that a macro writes is refused, so each sort has its own.
impl From<Integer> for InvokeIdentifier {
    ghost from_gives = { λ integer identifier. identifier ≡ record { 0 = integer.0 } };

    fn from(integer: Integer) -> InvokeIdentifier {
        InvokeIdentifier(integer.0)
    }
}

impl From<InvokeIdentifier> for Integer {
    ghost from_gives = { λ identifier integer. integer ≡ record { 0 = identifier.0 } };

    fn from(identifier: InvokeIdentifier) -> Integer {
        Integer(identifier.0)
    }
}

// Not From, which would not say that bits are read anew.
impl Integer {
    // The integer whose two's complement is these sixteen bits.
    pub fn from_bits(n: u16) -> Integer
        ensures { result ≡ record { 0 = signed n } }
    {
        Integer(n.cast_signed())
    }

    // Its sixteen bits of two's complement.
    pub fn to_bits(self) -> u16
        ensures { result ≡ bits self.0 }
    {
        self.0.cast_unsigned()
    }
}

// The integer that an element says. One octet is widened by its sign.
impl From<IntegerOctets> for Integer {
    ghost from_gives = { λ octets integer. integer ≡ record { 0 = integer_of octets } };

    fn from(octets: IntegerOctets) -> Integer {
        match octets {
            IntegerOctets::One(a) => Integer(i16::from(a.cast_signed())),
            IntegerOctets::Two(a, b) => Integer(i16::from_be_bytes([a, b])),
        }
    }
}

// The fewest octets that say this integer: one where the high octet only repeats the sign.
impl From<Integer> for IntegerOctets {
    ghost from_gives = { λ integer octets. octets ≡ fewest integer.0 };

    fn from(integer: Integer) -> IntegerOctets {
        if let Ok(n) = i8::try_from(integer.0) {
            return IntegerOctets::One(n.cast_unsigned());
        }
        let [a, b] = integer.0.to_be_bytes();
        IntegerOctets::Two(a, b)
    }
}
