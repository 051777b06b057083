ghost use Rattle.std.specs.Prelude.{◌≡◌, ◌<◌, [], IfOk, Some};
ghost use Rattle.text_places.specs.Text.{GrowsBy};

use asio_types::{Failed, NoMemory, Sink};
use itoa::Buffer;
use std::alloc::Global;

/// A text that is put together piece by piece, and a sink that takes as much as there is memory for.
/// Where memory runs out, what comes next is left out, and the text can't be had at the end.
#[derive(Drop)]
pub struct Text {
    /// What it holds.
    pub bytes: Vec<u8>,
    /// How often a piece found no memory; the count stands still at its end.
    pub faults: u64,
}

impl Text {
    /// An empty text.
    pub fn empty(alloc: Global) -> Text
        ensures bytes { result.bytes.items ≡ [] }
        ensures faults { result.faults ≡ 0 }
    {
        Text {
            bytes: Vec::new(alloc),
            faults: 0,
        }
    }

    /// What it holds.
    pub fn as_bytes(&self) -> &[u8]
        ensures { result.now ≡ self.now.bytes.items }
    {
        self.bytes.as_slice()
    }

    /// The whole text, where each piece found memory.
    pub fn finish(self) -> Result<Vec<u8>, NoMemory>
        ensures { IfOk result (λ bytes. (bytes ≡ self.bytes) × (self.faults ≡ 0)) }
    {
        if self.faults == 0 {
            Ok(self.bytes)
        } else {
            Err(NoMemory)
        }
    }

    /// Says that a piece of it found no memory.
    pub fn cut(&mut self)
        ensures { (0 < self.new.faults) × (self.new.bytes ≡ self.old.bytes) }
    {
        self.faults = self.faults.saturating_add(1);
    }

    /// Appends bytes.
    pub fn bytes(&mut self, bytes: &[u8])
        ensures { GrowsBy self.old bytes.now self.new }
    {
        if self.bytes.extend_from_slice(bytes).is_err() {
            self.cut();
        }
    }

    /// Appends words.
    pub fn words(&mut self, words: &str)
        ensures { GrowsBy self.old words.now self.new }
    {
        self.bytes(words.as_bytes());
    }

    /// Appends a number.
    pub fn number(&mut self, number: u64) {
        self.words(Buffer::new().format(number));
    }

    /// Appends words and a number behind them.
    pub fn field(&mut self, words: &str, number: u64) {
        self.words(words);
        self.number(number);
    }

    /// Appends words and a token behind them, in backticks.
    pub fn quoted(&mut self, words: &str, token: &[u8]) {
        self.words(words);
        self.words("`");
        self.bytes(token);
        self.words("`");
    }

    /// Appends words and a line end.
    pub fn line(&mut self, words: &str) {
        self.words(words);
        self.words("\n");
    }

    /// Appends so many blanks.
    pub fn blanks(&mut self, count: usize) {
        for _ in 0..count {
            self.words(" ");
        }
    }
}

impl Sink for Text {
    ghost faults = { λ s. s.faults };

    ghost written = { λ s. Some s.bytes.items };

    fn write(&mut self, bytes: &[u8]) -> Result<usize, Failed> {
        if self.bytes.extend_from_slice(bytes).is_err() {
            self.faults = self.faults.saturating_add(1);
            return Err(Failed);
        }
        Ok(bytes.len())
    }
}
