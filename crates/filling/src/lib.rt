// Octets put one behind the other into a buffer that is lent.
#![tactic(auto)]

ghost use Rattle.std.specs.Prelude.{◌≡◌};
ghost use Rattle.filling.specs.Code.Putting.{PutIfRoom};

// A buffer, and the place in it that the next octet goes to. No Model: the two fields are all that definitions speak
// of. No invariant: `put` tests for room, wherever the place is.
#[derive(Drop)]
pub struct Filling<'a> {
    buffer: &'a mut [u8],
    at: usize,
}

impl<'a> Filling<'a> {
    // Of a buffer, from a place on.
    pub fn new(buffer: &'a mut [u8], at: usize) -> Filling<'a>
        ensures same_reference { result.buffer.ghost_name ≡ buffer.entry.ghost_name }
        ensures kept { result.buffer.now ≡ buffer.old }
        ensures place { result.at ≡ at }
    {
        Filling { buffer, at }
    }

    // The place behind what was put.
    pub fn end(&self) -> usize
        ensures { result ≡ self.now.at }
    {
        self.at
    }

    // Puts the octets there, and the place moves behind them. Where the buffer has no room for them, nothing changes:
    // `end` shows which. Who begins to fill knows that there is room, and would only unwrap a result.
    pub fn put(&mut self, octets: &[u8])
        ensures { PutIfRoom octets.now self.old self.new }
    {
        let Filling { buffer, at } = self;
        if let Some(end) = at.checked_add(octets.len())
            && end <= buffer.len()
        {
            buffer[*at..end].copy_from_slice(octets);
            *at = end;
        }
    }
}
