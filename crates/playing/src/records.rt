// What the component answered for a record, as a number returned and a count of octets.
ghost use Rattle.std.specs.Prelude.{◌≡◌};
ghost use Rattle.ect.specs.Contract.{answer_number, answer_count};

use events::Refusal;

pub fn returned(answer: Result<usize, Refusal>) -> u8
    ensures { result ≡ answer_number answer }
{
    answer.map_or_else(u8::from, |_| 0)
}

pub fn written(answer: Result<usize, Refusal>) -> usize
    ensures { result ≡ answer_count answer }
{
    answer.unwrap_or(0)
}
