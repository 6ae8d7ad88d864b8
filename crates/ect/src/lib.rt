// The network side of Explicit Call Transfer for one access: one call for every event.
#![tactic(auto)]

ghost use Rattle.std.specs.Prelude.{◌≤◌, ◌≡◌, length};
ghost use Rattle.octets.specs.Buffers.{front_written};
ghost use Rattle.ect.specs.Contract.{Steps, StepsTested};
ghost use Rattle.ect.specs.Code.Testing.{decision_tested, stepped};
ghost use Rattle.effects.specs.Code.Effects.{EffectOf, board_by};
ghost use Rattle.rules.specs.Step.{decision};

use board::Board;
use effects::{ChangeKind, Effect, done, effect_of};
use events::Refusal;
use soundness::sound;

// The answer to an event, the number of octets written where it is accepted, and the board. A number, as the buffer is
// the caller's.
#[derive(Clone, Copy)]
pub struct Stepped {
    pub answer: Result<usize, Refusal>,
    pub board: Board,
}

// Copies octets to the front of a buffer, keeps what lies beyond, and returns how many they are.
fn copy_out(reply: &mut [u8], octets: &[u8]) -> usize
    requires { length octets.now ≤ length reply.old }
    ensures { (result ≡ length octets.now) × (reply.new ≡ front_written octets.now reply.old) }
{
    let n = octets.len();
    reply[..n].copy_from_slice(octets);
    n
}

// What an event comes to, where no check refuses it.
fn accepted(board: &Board, is_sound: bool, event: &[u8], room: usize) -> Result<Effect, Refusal>
    ensures { EffectOf result board.now (decision_tested room is_sound (decision board.now event.now)) }
{
    // The number that the rules name, which the replies of no event exceed.
    if room < 128 {
        return Err(Refusal::BufferTooSmall);
    }
    if !is_sound {
        return Err(Refusal::UnsoundBoard);
    }
    effect_of(board, event)
}

// The answer to the event, with the replies in the front of the buffer, and what changes on the board.
// A pair, with no change beside a refusal: so the board is changed, and the answer built, in one place, on which an
// event's speed depends.
fn answered(
    board: &Board,
    is_sound: bool,
    event: &[u8],
    reply: &mut [u8],
) -> (Result<usize, Refusal>, Option<ChangeKind>)
    ensures { StepsTested is_sound board.now event.now reply.old
        (stepped result.0 (board_by result.1 board.now)) reply.new }
{
    match accepted(board, is_sound, event, reply.len()) {
        Ok(effect) => (Ok(copy_out(reply, effect.out.written())), effect.change),
        Err(refusal) => (Err(refusal), None),
    }
}

// The board after the event, with the replies in the front of the buffer; or a refusal that leaves both.
// Board, event and buffer may have any content, event and buffer any length.
#[tactic(auto, unfolding(rules::specs::Step::step))]
pub fn step(board: Board, event: &[u8], reply: &mut [u8]) -> Stepped
    ensures { Steps board event.now reply.old result reply.new }
{
    step_tested(board, sound(board), event, reply)
}

// The same for a caller that knows whether the board is sound. The board returned is sound exactly where the one
// given is, so a run of events needs one test.
// Board and test stay apart: a caller tells what it knows of any board, and a struct that tied them would ask more.
pub fn step_tested(mut board: Board, is_sound: bool, event: &[u8], reply: &mut [u8]) -> Stepped
    ensures { StepsTested is_sound board event.now reply.old result reply.new }
{
    let (answer, change) = answered(&board, is_sound, event, reply);
    done(&mut board, change);
    Stepped { answer, board }
}
