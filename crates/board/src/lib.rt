// The board: 64 rows by value, two options and the next LinkId candidate.
#![tactic(auto)]

ghost use Rattle.std.specs.Prelude.{◌≡◌};
ghost use Rattle.std.specs.Result.{result_ok};
ghost use Rattle.board.specs.States.{direction_with, auxiliary_with, valid_reference};
ghost use Rattle.board.specs.RuleSets.{rule_set, alerting_allowed};
ghost use Rattle.board.specs.Subscription.{is_subscribed, is_explicit_only};
ghost use Rattle.board.specs.Soundness.{valid_digits, valid_number, valid_options};
ghost use Rattle.board.specs.Code.Tallies.{counts_in};
ghost use Rattle.board.specs.declared.OptionFault.{OptionFault};
ghost use Rattle.board.specs.Making.{empty_row, empty_board, options, option_fault_number, made_answer};
ghost use Rattle.board.specs.Making.{Live, ForOldLog, fresh as fresh_board};

use digits::{all_digits, all_zeros};
use octets::{CallReference, LinkId};
use thiserror::Error;

pub mod finding;

// "at most 16": the LinkIds that may be live at a time.
pub const MOST_LINK_IDS: usize = 16;

// 0 outgoing, 1 incoming.
#[derive(Clone, Copy, Debug, PartialEq, Eq)]
pub enum Direction {
    Outgoing,
    Incoming,
}

impl TryFrom<u8> for Direction {
    type Error = OutOfRange;

    ghost try_from_gives = { λ octet result. result_ok result ≡ direction_with octet };

    fn try_from(octet: u8) -> Result<Self, OutOfRange> {
        match octet {
            0 => Ok(Direction::Outgoing),
            1 => Ok(Direction::Incoming),
            _ => Err(OutOfRange),
        }
    }
}

// The call states of ETS 300 102-1 that a served call can have: 3, 4, 7 and 10.
#[derive(Clone, Copy, Debug, PartialEq, Eq)]
pub enum CallState {
    OutgoingCallProceeding,
    CallDelivered,
    CallReceived,
    Active,
}

// The auxiliary states, 0 to 3.
#[derive(Clone, Copy, Debug, PartialEq, Eq)]
pub enum AuxiliaryState {
    Idle,
    HoldRequest,
    CallHeld,
    RetrieveRequest,
}

impl TryFrom<u8> for AuxiliaryState {
    type Error = OutOfRange;

    ghost try_from_gives = { λ octet result. result_ok result ≡ auxiliary_with octet };

    fn try_from(octet: u8) -> Result<Self, OutOfRange> {
        match octet {
            0 => Ok(AuxiliaryState::Idle),
            1 => Ok(AuxiliaryState::HoldRequest),
            2 => Ok(AuxiliaryState::CallHeld),
            3 => Ok(AuxiliaryState::RetrieveRequest),
            _ => Err(OutOfRange),
        }
    }
}

// The refusal to read an octet as a direction or an auxiliary state: none has that number.
#[derive(Clone, Copy, Debug, PartialEq, Eq, Error)]
#[error("no direction or auxiliary state has that number")]
pub struct OutOfRange;

// A call of a far party with the served user.
#[derive(Clone, Copy, Debug)]
pub struct Call {
    pub reference: CallReference,
    pub direction: Direction,
    pub state: CallState,
    pub auxiliary: AuxiliaryState,
    pub link: Option<LinkId>,
}

// The standing of a row: empty, a call with the served user, or joined with the leg of a partner. One of three, as the
// rules name it, where a `Connection`, which is what an entry has, is never empty.
#[derive(Clone, Copy, Debug)]
pub enum Standing {
    Empty,
    Served(Call),
    Joined { partner: u32, alerting: bool },
}

// The number of a far party: its presentation (0 shown, 1 restricted), its type of number (0 unknown, 1 international,
// 2 national), and as many digits as the count says.
// Octets and a count, as a board that is lent may hold any, and soundness judges it.
#[derive(Clone, Copy, Debug, PartialEq, Eq)]
pub struct PartyNumber {
    pub presentation: u8,
    pub type_of_number: u8,
    pub count: u8,
    pub digits: [u8; 15],
}

// A row: the leg number of a far party, its number, and beside it the standing.
#[derive(Clone, Copy, Debug)]
pub struct Row {
    pub leg: u32,
    pub number: PartyNumber,
    pub standing: Standing,
}

// Octets, as in a PartyNumber. The first is 0 where the service is refused, 1 where it is served, and 2 where it is
// served, explicit only: the operation that names one call alone is not. The second says two things: the rule set, and
// whether a party that still alerts is transferred.
#[derive(Clone, Copy, Debug)]
pub struct Options {
    pub subscribed: u8,
    pub alerting: u8,
}

// The rules by which calls pair, and by which parties are told: those of ETS 300 369-1, or of T1.643.
#[derive(Clone, Copy, Debug, PartialEq, Eq)]
pub enum RuleSet {
    European,
    American,
}

impl Options {
    pub fn is_subscribed(self) -> bool
        ensures { result ≡ is_subscribed self }
    {
        matches!(self.subscribed, 1 | 2)
    }

    pub fn is_explicit_only(self) -> bool
        ensures { result ≡ is_explicit_only self }
    {
        self.subscribed == 2
    }

    pub fn rule_set(self) -> RuleSet
        ensures { result ≡ rule_set self }
    {
        if 2 <= self.alerting {
            return RuleSet::American;
        }
        RuleSet::European
    }

    pub fn is_alerting_allowed(self) -> bool
        ensures { result ≡ alerting_allowed self }
    {
        matches!(self.alerting, 1 | 3)
    }
}

#[derive(Clone, Copy, Debug)]
pub struct Board {
    // By value: fixed memory, no heap.
    pub rows: [Row; 64],
    pub options: Options,
    pub candidate: LinkId,
}

// What a row that is not empty says of its leg: its call with the served user,
// or its partner's leg and whether it still alerts.
#[derive(Clone, Copy)]
pub enum Connection {
    WithUser(Call),
    WithPartner { partner: u32, alerting: bool },
}

// A far party: its leg and its connection. The book's term "entry".
#[derive(Clone, Copy)]
pub struct Entry {
    pub leg: u32,
    pub connection: Connection,
}

// A far party with a call: its leg and its call with the served user.
#[derive(Clone, Copy)]
pub struct Party {
    pub leg: u32,
    pub call: Call,
}

// A change that an accepted event makes to rows that are taken: of the call with a reference its call state,
// its auxiliary state or its LinkId; two legs joined; a leg's alerting ended; a leg's row emptied, or a pair's.
// A closed set of data, on which definitions, book and history match too.
#[derive(Clone, Copy)]
pub enum Change {
    SetState(CallReference, CallState),
    SetAuxiliary(CallReference, AuxiliaryState),
    SetLinkId(CallReference, LinkId),
    Join(u32, u32),
    EndAlerting(u32),
    Release(u32),
    ReleasePair(u32, u32),
}

// Why a board is not made. Implicit linkage is the transfer that names one call: it is retired on live boards.
#[derive(Clone, Copy, Debug, PartialEq, Eq, Error)]
pub enum OptionFault {
    #[error("an option is outside its range")]
    OutsideItsRange,
    #[error("implicit linkage is retired")]
    ImplicitLinkage,
}

// The number that a refusal to make a board is returned as.
impl From<OptionFault> for u8 {
    ghost from_gives = { λ fault number. number ≡ option_fault_number fault };

    fn from(fault: OptionFault) -> u8 {
        match fault {
            OptionFault::OutsideItsRange => 5,
            OptionFault::ImplicitLinkage => 14,
        }
    }
}

// The refusal to make a board. It brings the empty board with both options 0, whatever the octets were.
#[derive(Clone, Copy, Debug, Error)]
#[error("{fault}")]
pub struct BadOptions {
    pub fault: OptionFault,
    pub board: Board,
}

// Legs, joined rows and live LinkIds.
#[derive(Clone, Copy, Default)]
pub struct Tally {
    pub legs: usize,
    pub joined: usize,
    pub links: usize,
}

// The three counts of rows.
#[derive(Clone, Copy, Default, PartialEq, Eq)]
pub struct Counts {
    pub legs: usize,
    pub pairs: usize,
    pub links: usize,
}

impl From<Tally> for Counts {
    ghost from_gives = { λ tally counts. counts ≡ counts_in tally };

    fn from(tally: Tally) -> Counts {
        Counts {
            legs: tally.legs,
            pairs: tally.joined / 2,
            links: tally.links,
        }
    }
}

// The refusal to count: the rows are not sound.
#[derive(Clone, Copy, Debug, PartialEq, Eq, Error)]
#[error("the rows are not sound")]
pub struct Unsound;

pub fn empty_row() -> Row
    ensures { result ≡ empty_row }
{
    let number = PartyNumber {
        presentation: 0,
        type_of_number: 0,
        count: 0,
        digits: [0u8; 15],
    };
    Row {
        leg: 0,
        number,
        standing: Standing::Empty,
    }
}

fn empty_board(options: Options) -> Board
    ensures { result ≡ empty_board options }
{
    let row = empty_row();
    Board {
        rows: [row; 64],
        options,
        candidate: LinkId(0),
    }
}

// As many digits as the count says, then zeros.
pub fn valid_digits(count: u8, digits: &[u8; 15]) -> bool
    ensures { result ≡ valid_digits count digits.now }
{
    let n = usize::from(count);
    n <= 15 && all_digits(&digits[..n]) && all_zeros(&digits[n..])
}

// Not zero in the low 15 bits.
pub fn valid_reference(reference: CallReference) -> bool
    ensures { result ≡ valid_reference reference.0 }
{
    reference.0 % 32768 != 0
}

// Shown or restricted, of a type that there is, with digits that are valid: none, of any type, and as many as 15.
pub fn valid_number(number: PartyNumber) -> bool
    ensures { result ≡ valid_number number }
{
    number.presentation <= 1
        && number.type_of_number <= 2
        && valid_digits(number.count, &number.digits)
}

// The first is 0 to 2, the second 0 to 3.
pub fn valid_options(options: Options) -> bool
    ensures { result ≡ valid_options options }
{
    options.subscribed <= 2 && options.alerting <= 3
}

fn bad_options(fault: OptionFault) -> BadOptions
    ensures { result ≡ record { fault = fault; board = empty_board (options 0 0) } }
{
    let board = empty_board(Options {
        subscribed: 0,
        alerting: 0,
    });
    BadOptions { fault, board }
}

// A fresh live board of two option octets, as an exchange makes it: a first octet 1 is refused before the second is
// judged.
#[tactic(auto, unfolding(crate::specs::Making::fresh))]
pub fn fresh(subscribed: u8, alerting: u8) -> Result<Board, BadOptions>
    ensures { made_answer result ≡ fresh_board Live subscribed alerting }
{
    if subscribed == 1 {
        return Err(bad_options(OptionFault::ImplicitLinkage));
    }
    fresh_for_old_log(subscribed, alerting)
}

// A fresh board of the option octets of a stored log, as a reader of logs makes it: a first octet 1 is taken, and means
// what it meant.
#[tactic(auto, unfolding(crate::specs::Making::fresh))]
pub fn fresh_for_old_log(subscribed: u8, alerting: u8) -> Result<Board, BadOptions>
    ensures { made_answer result ≡ fresh_board ForOldLog subscribed alerting }
{
    let options = Options {
        subscribed,
        alerting,
    };
    if valid_options(options) {
        return Ok(empty_board(options));
    }
    Err(bad_options(OptionFault::OutsideItsRange))
}
