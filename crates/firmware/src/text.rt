// The text of a lent position, into a lent buffer.
ghost use Rattle.std.specs.Prelude.{◌≡◌};
ghost use Rattle.sfen.specs.Writes.{text_answer, bytes_after};

use position::Position;
use sfen::{TextAnswer, write_sfen};

#[unsafe(no_mangle)]
pub extern "C" fn pulfredan_write_sfen(p: &Position, out: &mut [u8]) -> TextAnswer
    ensures { (result ≡ text_answer p.now out.old) × (out.new ≡ bytes_after p.now out.old) }
{
    TextAnswer::from(write_sfen(*p, out))
}
