//! Bytes of a text.
ghost use Rattle.std.specs.Prelude.{◌≡◌, [], ◌++◌, OnOk, OnErr};

use std::alloc::{AllocError as OutOfMemory, Global};
use std::marker::Model;

/// Bytes that are added one piece after another.
#[derive(Drop)]
pub struct Text {
    bytes: Vec<u8>,
}

impl Model for Text {
    ghost use Rattle.std.specs.Prelude.{List, ℕ};

    ghost Value = { List ℕ };

    ghost view = { λ t. t.bytes.items };
}

impl Text {
    /// A text without bytes. It takes no memory yet; `alloc` is where it will come from.
    pub fn new(alloc: Global) -> Text
        ensures { result ≡ [] }
    {
        Text {
            bytes: Vec::new(alloc),
        }
    }

    /// A text of these bytes, which are moved in. It takes no memory.
    pub fn of_bytes(bytes: Vec<u8>) -> Text
        ensures { result ≡ bytes.items }
    {
        Text { bytes }
    }

    /// Adds the bytes at the end. `OutOfMemory` where no memory is left for them: the text is then as it was.
    pub fn add(&mut self, bytes: &[u8]) -> Result<(), OutOfMemory>
        ensures ok { OnOk result (self.new ≡ self.old ++ bytes.now) }
        ensures err { OnErr result (self.new ≡ self.old) }
    {
        self.bytes.extend_from_slice(bytes)?;
        Ok(())
    }

    /// All the bytes.
    pub fn bytes(&self) -> &[u8]
        ensures { result.now ≡ self.now }
    {
        self.bytes.as_slice()
    }

    /// All the bytes, moved out. It takes no memory.
    pub fn into_bytes(self) -> Vec<u8>
        ensures { result.items ≡ self }
    {
        self.bytes
    }
}

#[cfg(test)]
mod tests {
    use super::*;
    use std::test::Fail;

    // No clause can say that memory is left, so a body that always refuses would meet those of `add`.
    #[test]
    fn pieces_follow_one_another(rt: HostRuntime) -> Result<(), Fail> {
        let mut text = Text::new(rt.alloc());
        assert_eq!(rt; text.bytes(), b"".as_slice());
        text.add(b"3 ")?;
        text.add(b"5\n")?;
        assert_eq!(rt; text.bytes(), b"3 5\n".as_slice());
        let again = Text::of_bytes(text.into_bytes());
        assert_eq!(rt; again.bytes(), b"3 5\n".as_slice());
        Ok(())
    }
}
