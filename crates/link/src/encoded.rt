// A frame as bytes, and how its fields are appended.
ghost use Rattle.std.specs.Prelude.{◌≡◌, ◌+◌, ◌≤◌, [], ◌++◌, length};
ghost use Rattle.link.specs.Encoding.{field as field_of};
ghost use Rattle.link.specs.View as view;

use registers::BLOCK;

// The longest frame, a WELCOME: a session field of 7 bytes, a field header of 3 and the settings block.
pub const FRAME_LIMIT: usize = 10 + BLOCK;

// A frame's first len bytes, as a value that may be copied.
#[derive(Clone, Copy)]
pub struct Encoded {
    pub bytes: [u8; FRAME_LIMIT],
    pub len: usize,
}

impl Encoded {
    pub(crate) fn empty() -> Encoded
        ensures { result ≡ view.encoded [] }
    {
        Encoded {
            bytes: [0; FRAME_LIMIT],
            len: 0,
        }
    }

    // A frame that begins with this field.
    #[tactic(auto, using(crate::proofs::Building::bytes_of_encoded))]
    pub(crate) fn field(tag: u8, contents: &[u8]) -> Encoded
        requires { length (field_of tag contents.now) ≤ view.frame_limit }
        ensures { result ≡ view.encoded (field_of tag contents.now) }
    {
        let mut frame = Encoded::empty();
        frame.append_field(tag, contents);
        frame
    }

    // Appends a field: its tag, the length of its contents, and the contents.
    #[tactic(auto, using(crate::proofs::Building::bytes_of_encoded))]
    pub(crate) fn append_field(&mut self, tag: u8, contents: &[u8])
        requires built { self.old ≡ view.encoded (view.bytes_of self.old) }
        requires room { length (view.bytes_of self.old) + length (field_of tag contents.now) ≤ view.frame_limit }
        ensures { self.new ≡ view.encoded (view.bytes_of self.old ++ field_of tag contents.now) }
    {
        let [low, high] = (contents.len() as u16).to_le_bytes();
        self.append(&[tag, low, high]);
        self.append(contents);
    }

    // Room is asked of the caller, since a Result would never be an Err here.
    pub(crate) fn append(&mut self, bytes: &[u8])
        requires built { self.old ≡ view.encoded (view.bytes_of self.old) }
        requires room { length (view.bytes_of self.old) + length bytes.now ≤ view.frame_limit }
        ensures { self.new ≡ view.encoded (view.bytes_of self.old ++ bytes.now) }
    {
        let end = self.len + bytes.len();
        self.bytes[self.len..end].copy_from_slice(bytes);
        self.len = end;
    }

    // Where len is over the limit, which no call returns, all bytes.
    pub fn as_slice(&self) -> &[u8]
        ensures value { result.now ≡ view.bytes_of self.now }
        ensures fits { length result.now ≤ view.frame_limit }
    {
        &self.bytes[..FRAME_LIMIT.min(self.len)]
    }
}
