// Screens that are lent and boards that are not sound, which a script of `ect_console` never has: a leg on two lines, a
// leg that the board does not have.
use crate::records::open;
use attendant_console::{Screen, ShownAs, ShownLeg, empty_screen, name, pin, play};
use board::{Board, Direction, Options};
use std::io;

fn print_screen(rt: &impl Print, words: &str, number: u8, screen: &Screen) -> io::Result<()> {
    print!(rt; "{words}: {number}")?;
    for (place, line) in screen.lines.iter().enumerate() {
        if let Some(shown) = line {
            let line_number = place + 1;
            print!(rt;
                ", line {line_number} leg {} {:?}",
                shown.leg, shown.shown_as
            )?;
        }
    }
    println!(rt; "")
}

// Pins a leg on a screen that is lent, and prints the screen afterwards.
fn pin_on(rt: &impl Print, words: &str, lent: Screen, board: &Board, leg: u32) -> io::Result<()> {
    let mut screen = lent;
    let number = match pin(&mut screen, board, leg) {
        Ok(()) => 0,
        Err(refused) => u8::from(refused),
    };
    print_screen(rt, words, number, &screen)
}

// Plays an event with a screen that is lent, and prints the screen afterwards.
fn play_on(
    rt: &impl Print,
    words: &str,
    lent: Screen,
    board: Board,
    event: &[u8],
) -> io::Result<()> {
    let mut screen = lent;
    let mut reply = [0u8; 128];
    let number = match play(&mut screen, board, event, &mut reply).answer {
        Ok(_) => 0,
        Err(refusal) => u8::from(refusal),
    };
    print_screen(rt, words, number, &screen)
}

fn shown(leg: u32, shown_as: ShownAs) -> Option<ShownLeg> {
    Some(ShownLeg { leg, shown_as })
}

// A board with leg 1, whose call is in state 3, and a screen with that leg on two lines and leg 9, which the board does
// not have.
pub fn lent_screens(rt: &impl Print, fresh: Board) -> io::Result<()> {
    let opening = open(1, 1, Direction::Outgoing, *b"21");
    let mut reply = [0u8; 128];
    let board = ect::step(fresh, &opening, &mut reply).board;
    let options = Options {
        subscribed: 2,
        alerting: 4,
    };
    let unsound = Board { options, ..board };
    let mut lent = empty_screen();
    lent.lines[0] = shown(9, ShownAs::WithUser);
    lent.lines[2] = shown(1, ShownAs::Joined);
    lent.lines[3] = shown(1, ShownAs::JoinedAlerting);
    let full = Screen {
        lines: [shown(9, ShownAs::Joined); 16],
    };
    pin_on(rt, "pin of leg 1", empty_screen(), &board, 1)?;
    pin_on(rt, "pin on a board that is not sound", lent, &unsound, 9)?;
    pin_on(rt, "pin of a leg that a line shows alone", lent, &board, 9)?;
    pin_on(rt, "pin of a leg on two lines", lent, &board, 1)?;
    pin_on(rt, "pin with no line empty", full, &board, 1)?;
    let active = b"\x02\x00\x01\x0a";
    play_on(rt, "Progress with a lent screen", lent, board, active)?;
    play_on(
        rt,
        "Progress on a board that is not sound",
        lent,
        unsound,
        active,
    )?;
    play_on(rt, "an empty record", lent, board, b"")
}

fn print_name(rt: &impl Print, line: &str, digits: &str) -> io::Result<()> {
    print!(rt; "name of '{line}' and '{digits}': '")?;
    rt.write_all(name(line.as_bytes(), digits.as_bytes()))?;
    println!(rt; "'")
}

pub fn names(rt: &impl Print) -> io::Result<()> {
    for line in [
        "Ward 4, Wing B",
        "Ward 4",
        "Ward 4, Wing B, East",
        ", Wing B",
        "",
        " , Wing B",
    ] {
        print_name(rt, line, "21")?;
    }
    print_name(rt, ",", "")
}
