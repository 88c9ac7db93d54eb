// The writer: the whole text into a line of its own, and from there into the caller's bytes, if it fits.
#![tactic(auto, using(crate::proofs::Cases::text_cases))]

ghost use Rattle.std.specs.Prelude.{◌≡◌, ◌++◌, ◌<◌, ◌≤◌, length, drop};
ghost use Rattle.position.specs.declared.answers.Refusal.TheVariants.{ShortBuffer};
ghost use Rattle.sfen.specs.Text.{side_byte, position_text};
ghost use Rattle.sfen.specs.Writes.{text_given, text_answer, bytes_after};
ghost use Rattle.sfen.specs.Inner.{Fits};

use crate::line::Line;
use position::{Position, Refusal, Told};
use squares::Color;

// What C is handed: the number with the square that goes with 1, and how many bytes were written, 0 on a refusal.
#[repr(C)]
#[derive(Clone, Copy)]
pub struct TextAnswer {
    pub told: Told,
    pub length: usize,
}

impl From<Result<usize, Refusal>> for TextAnswer {
    ghost from_gives = { λ answer text. text ≡ text_given answer };

    fn from(answer: Result<usize, Refusal>) -> Self {
        match answer {
            Ok(length) => Self {
                told: Told::from(Ok(())),
                length,
            },
            Err(refusal) => Self {
                told: Told::from(refusal),
                length: 0,
            },
        }
    }
}

#[tactic(auto, unfolding(crate::specs::Text::side_byte))]
fn side_byte(side: u8) -> u8
    ensures { result ≡ side_byte side }
{
    if side == Color::BLACK { b'b' } else { b'w' }
}

impl Line {
    fn put_position(&mut self, position: &Position)
        requires { Fits (self.old ++ position_text position.now) }
        ensures { self.new ≡ self.old ++ position_text position.now }
    {
        self.put_board(&position.board);
        self.put(b' ');
        self.put(side_byte(position.side));
        self.put(b' ');
        self.put_hands(&position.hands);
        self.put(b' ');
        self.put_number(position.ply);
    }
}

// All of a text in the first bytes of `out`, or none of it.
fn copy_whole(text: &[u8], out: &mut [u8]) -> Result<usize, Refusal>
    ensures short { length out.old < length text.now → (result ≡ Err ShortBuffer) × (out.new ≡ out.old) }
    ensures fitting { length text.now ≤ length out.old → (result ≡ Ok (length text.now)) × (out.new ≡ text.now ++ drop (length text.now) out.old) }
{
    if out.len() < text.len() {
        return Err(Refusal::ShortBuffer);
    }
    out[..text.len()].copy_from_slice(text);
    Ok(text.len())
}

// The text in the first bytes of `out`, and no other byte changed; the answer is how many. 1 for an unsound position, then 12
// where `out` is shorter than the text: no byte is changed.
pub fn write_sfen(position: Position, out: &mut [u8]) -> Result<usize, Refusal>
    ensures { (text_given result ≡ text_answer position out.old) × (out.new ≡ bytes_after position out.old) }
{
    position.soundness()?;
    let mut line = Line::new();
    line.put_position(&position);
    copy_whole(line.written(), out)
}
