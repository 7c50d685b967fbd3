// Text laid over a buffer, byte by byte, as far as the buffer reaches.
#![tactic(auto)]

ghost use Rattle.std.specs.Prelude.{◌≡◌, [], ◌∷◌};
ghost use Rattle.output_laws.specs.How.Overlay.{LaidOn};

// A buffer and the place of its next byte, which goes on past the buffer's end, up to the largest of the machine's
// numbers.
#[derive(Drop)]
pub struct Page<'a> {
    pub text: &'a mut [u8],
    pub at: usize,
}

impl<'a> Page<'a> {
    // A buffer from its start on.
    pub fn new(text: &'a mut [u8]) -> Page<'a>
        ensures same { result.text.ghost_name ≡ text.entry.ghost_name }
        ensures text { result.text.now ≡ text.old }
        ensures place { result.at ≡ 0 }
    {
        Page { text, at: 0 }
    }

    // Lays one byte.
    pub fn put(&mut self, byte: u8)
        ensures { LaidOn self.old.at (byte ∷ []) self.old.text self.new.at self.new.text }
    {
        if self.at < self.text.len() {
            self.text[self.at] = byte;
        }
        self.at = self.at.saturating_add(1);
    }

    // Lays a word.
    pub fn put_word(&mut self, word: &[u8])
        ensures { LaidOn self.old.at word.now self.old.text self.new.at self.new.text }
    {
        for byte in word {
            self.put(*byte);
        }
    }
}
