// Gathering a line. `held` is what the buffer holds of the bytes since it was cleared: all of them, or nothing if they
// are more than 120.
ghost use Rattle.callfile.specs.Gathering.{Holds, held, with_byte};
ghost use Rattle.std.specs.Option.{option_map};
ghost use Rattle.std.specs.Prelude.{◌≡◌, ◌≤◌, ◌↔◌, ℕ, List, [], ◌∷◌, ◌++◌, length, Some, IfSome, IsTrue};

use crate::line::{LONGEST_LINE, LineBuffer};
use arrayvec::ArrayVec;

impl LineBuffer {
    pub fn new() -> Self
        ensures { Holds result [] }
    {
        LineBuffer {
            bytes: Some(ArrayVec::new()),
        }
    }

    // Adds a byte. After 120 bytes it is only remembered that the line is too long.
    pub fn push(&mut self, byte: u8)
        ensures grown { held self.new ≡ with_byte (held self.old) byte }
        ensures holds { (line : List ℕ) → Holds self.old line → Holds self.new (line ++ byte ∷ []) }
    {
        if let Some(bytes) = &mut self.bytes
            && bytes.try_push(byte).is_err()
        {
            self.bytes = None;
        }
    }

    // The line, unless it is too long.
    pub fn line(&self) -> Option<&[u8]>
        ensures bytes { option_map (λ x. x.now) result ≡ held self.now }
        ensures within { IfSome result (λ x. length x.now ≤ LONGEST_LINE) }
    {
        match &self.bytes {
            Some(bytes) => Some(bytes.as_slice()),
            None => None,
        }
    }

    // Whether no byte was added. A line that is too long is not empty.
    pub fn is_empty(&self) -> bool
        ensures { IsTrue result ↔ (held self.now ≡ Some []) }
    {
        match &self.bytes {
            Some(bytes) => bytes.is_empty(),
            None => false,
        }
    }

    // Begins a new line.
    pub fn clear(&mut self)
        ensures { Holds self.new [] }
    {
        match &mut self.bytes {
            Some(bytes) => bytes.clear(),
            None => *self = LineBuffer::new(),
        }
    }
}
