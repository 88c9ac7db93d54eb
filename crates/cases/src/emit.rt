// Answers as text. The text is gathered in an array, which is written out when it is full and before each read.
ghost use Rattle.std.specs.Prelude.{◌≡◌, ◌+◌, ◌≤◌, length, OnOk};
ghost use Rattle.arrayvec.specs.ArrayVec.{array_vec_len};

use crate::Failure;
use arrayvec::ArrayVec;
use itoa::Buffer;

pub const ROOM: usize = 65536;

#[derive(Drop)]
pub struct Output {
    rt: HostRuntime,
    text: ArrayVec<u8, ROOM>,
}

impl Output {
    pub fn new(rt: HostRuntime) -> Self {
        Self {
            rt,
            text: ArrayVec::new(),
        }
    }

    // The numbers of an answer as a line.
    pub fn put_line(&mut self, numbers: &[u64]) -> Result<(), Failure> {
        for (i, n) in numbers.iter().enumerate() {
            if i != 0 {
                self.put(b" ")?;
            }
            self.put(Buffer::new().format(*n).as_bytes())?;
        }
        self.put(b"\n")
    }

    // The answer to a line that is not of the form.
    pub fn put_malformed(&mut self) -> Result<(), Failure> {
        self.put(b"?\n")
    }

    fn put(&mut self, bytes: &[u8]) -> Result<(), Failure>
        requires { length bytes.now ≤ ROOM }
    {
        self.make_room(bytes.len())?;
        self.text.try_extend_from_slice(bytes).unwrap();
        Ok(())
    }

    fn make_room(&mut self, n: usize) -> Result<(), Failure>
        requires { n ≤ ROOM }
        ensures { OnOk result (array_vec_len self.new.text + n ≤ ROOM) }
    {
        if self.text.remaining_capacity() < n {
            self.flush()?;
        }
        Ok(())
    }

    // Writes out what is gathered.
    pub fn flush(&mut self) -> Result<(), Failure>
        ensures { OnOk result (array_vec_len self.new.text ≡ 0) }
    {
        let text = self.text.as_slice();
        self.rt.write_all(text).map_err(|_| Failure::Writing)?;
        self.text.clear();
        Ok(())
    }
}
