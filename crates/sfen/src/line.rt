// The line that is being written.
#![tactic(auto, using(crate::proofs::Cases::line_cases))]

ghost use Rattle.std.specs.Prelude.{◌≡◌, [], ◌∷◌, ◌++◌, ◌≤◌};
ghost use Rattle.sfen.specs.Text.{number_text};
ghost use Rattle.sfen.specs.Inner.{Fits, place};

use arrayvec::ArrayVec;
use std::marker::Model;

// "The text is never longer than 168 bytes."
const ROOM: usize = 168;

#[derive(Drop)]
pub(crate) struct Line {
    bytes: ArrayVec<u8, ROOM>,
}

// A contract sees the bytes that are written.
impl Model for Line {
    ghost use Rattle.std.specs.Prelude.{List, ℕ};

    ghost Value = { List ℕ };

    ghost view = { λ l. l.bytes.items };
}

// What appends asks that the text fits (`Fits`): of two values, so that it is no type's invariant.
impl Line {
    pub(crate) fn new() -> Line
        ensures { result ≡ [] }
    {
        Line {
            bytes: ArrayVec::new(),
        }
    }

    pub(crate) fn written(&self) -> &[u8]
        ensures { result.now ≡ self.now }
    {
        self.bytes.as_slice()
    }

    pub(crate) fn put(&mut self, b: u8)
        requires { Fits (self.old ++ b ∷ []) }
        ensures { self.new ≡ self.old ++ b ∷ [] }
    {
        self.bytes.push(b);
    }

    // The digit of `n` at the place of `unit`, unless it would be a leading zero. (`as` loses nothing of a digit, and try_from would
    // bring in a refusal that never comes.)
    fn put_place(&mut self, n: u16, unit: u16)
        requires room { Fits (self.old ++ place unit n) }
        requires nonzero { 1 ≤ unit }
        ensures { self.new ≡ self.old ++ place unit n }
    {
        if unit <= n {
            self.put(48 + (n / unit % 10) as u8);
        }
    }

    // A number in decimal: it has at most five digits. (`as` as in `put_place`.)
    pub(crate) fn put_number(&mut self, n: u16)
        requires { Fits (self.old ++ number_text n) }
        ensures { self.new ≡ self.old ++ number_text n }
    {
        self.put_place(n, 10000);
        self.put_place(n, 1000);
        self.put_place(n, 100);
        self.put_place(n, 10);
        self.put(48 + (n % 10) as u8);
    }
}
