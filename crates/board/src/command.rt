// The commands by their names.

#[derive(Clone, Copy, PartialEq, Eq)]
pub enum Command {
    Startpos,
    Empty,
    Move,
    Put,
    Hand,
    Side,
    Ply,
    Position,
    Sfen,
    Show,
    Lamps,
    Numbers,
    Help,
    Quit,
    Usi,
    IsReady,
    Go,
    // A line of USI that asks for nothing.
    Silent,
}

impl Command {
    // In the order in which `help` lists them.
    pub const LISTED: [Command; 17] = [
        Command::Startpos,
        Command::Empty,
        Command::Move,
        Command::Put,
        Command::Hand,
        Command::Side,
        Command::Ply,
        Command::Position,
        Command::Sfen,
        Command::Show,
        Command::Lamps,
        Command::Numbers,
        Command::Help,
        Command::Quit,
        Command::Usi,
        Command::IsReady,
        Command::Silent,
    ];

    pub fn named(word: &[u8]) -> Option<Self> {
        let command = match word {
            b"startpos" => Command::Startpos,
            b"empty" => Command::Empty,
            b"move" => Command::Move,
            b"put" => Command::Put,
            b"hand" => Command::Hand,
            b"side" => Command::Side,
            b"ply" => Command::Ply,
            b"position" => Command::Position,
            b"sfen" => Command::Sfen,
            b"show" | b"d" => Command::Show,
            b"lamps" => Command::Lamps,
            b"numbers" => Command::Numbers,
            b"help" => Command::Help,
            b"quit" => Command::Quit,
            b"usi" => Command::Usi,
            b"isready" => Command::IsReady,
            b"go" => Command::Go,
            b"usinewgame" | b"setoption" | b"gameover" | b"ponderhit" | b"stop" => Command::Silent,
            _ => return None,
        };
        Some(command)
    }

    // How a line of the command looks. Those of USI that take any words are never told so.
    pub fn form(self) -> &'static str {
        match self {
            Command::Startpos => {
                "startpos, startpos 7g7f 3c3d: the start position, and moves from it"
            }
            Command::Empty => "empty: no piece, for put and hand to begin from",
            Command::Move => "move 7g7f 3c3d, or 7g7f alone: moves; 8h2b+ promotes, P*5e drops",
            Command::Put => "put 5e P, put 5e +p, put 5e . (none): a cell, upper case is Black's",
            Command::Hand => "hand b P 2, hand white P 0: how many of a kind are held, 0 to 255",
            Command::Side => "side b, side w, side black, side white: who is to move",
            Command::Ply => "ply 7: the number of the move to come, 1 to 65535",
            Command::Position => {
                "position startpos, position startpos moves 7g7f 3c3d: as in USI"
            }
            Command::Sfen => "sfen: the position as text",
            Command::Show => "show, d: the board, upper case is Black's, and its text",
            Command::Lamps => {
                "lamps black (white, occupied, vacant), b (bishops), 7g (all like it)"
            }
            Command::Numbers => "numbers: what the answer numbers mean",
            Command::Help => "help: these lines",
            Command::Quit => "quit: ends the program, as ctrl-D does",
            Command::Usi => "usi: the program's name, as in USI",
            Command::IsReady => "isready: readyok, as in USI",
            Command::Go | Command::Silent => {
                "usinewgame, setoption, gameover, ponderhit, stop: taken silently"
            }
        }
    }
}
