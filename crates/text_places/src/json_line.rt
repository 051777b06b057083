use crate::pieces::lines_of;
use crate::text::Text;
use asio_types::NoMemory;
use json::Writer;
use std::alloc::Global;

/// One JSON object on a line of its own.
#[derive(Drop)]
pub struct JsonLine {
    alloc: Global,
    text: Text,
    /// Whether it has a member.
    is_begun: bool,
}

/// Words as a JSON string.
fn string_of(alloc: Global, words: &str) -> Result<Vec<u8>, NoMemory> {
    let mut writer = Writer::new(Vec::new(alloc));
    writer.string(words)?;
    Ok(writer.into_inner())
}

/// Bytes as a JSON string; what isn't UTF-8 in them is replaced.
fn string_of_bytes(alloc: Global, bytes: &[u8]) -> Result<Vec<u8>, NoMemory> {
    let words = String::from_utf8_lossy(alloc, bytes)?;
    string_of(alloc, words.as_str())
}

impl JsonLine {
    /// An object without members.
    pub fn empty(alloc: Global) -> JsonLine {
        let mut text = Text::empty(alloc);
        text.words("{");
        JsonLine {
            alloc,
            text,
            is_begun: false,
        }
    }

    /// An object that begins with the name of a file and an exit status.
    pub fn begin(alloc: Global, name: &str, status: u8) -> JsonLine {
        let mut line = JsonLine::empty(alloc);
        line.words("file", name);
        line.number("status", status as u64);
        line
    }

    /// The name of a member, which has no byte that JSON would escape.
    fn key(&mut self, key: &str) {
        self.text.words(if self.is_begun { ",\"" } else { "\"" });
        self.text.words(key);
        self.text.words("\":");
        self.is_begun = true;
    }

    fn string(&mut self, string: Result<Vec<u8>, NoMemory>) {
        match string {
            Ok(string) => self.text.bytes(string.as_slice()),
            Err(NoMemory) => self.text.cut(),
        }
    }

    /// A member that is words.
    pub fn words(&mut self, key: &str, words: &str) {
        self.key(key);
        self.string(string_of(self.alloc, words));
    }

    /// A member that is bytes as text; what isn't UTF-8 in them is replaced.
    pub fn text(&mut self, key: &str, bytes: &[u8]) {
        self.key(key);
        self.string(string_of_bytes(self.alloc, bytes));
    }

    /// A member that is a number.
    pub fn number(&mut self, key: &str, number: u64) {
        self.key(key);
        self.text.number(number);
    }

    /// A member that is a list of the lines of a text; none where it is empty.
    pub fn lines(&mut self, key: &str, bytes: &[u8]) {
        if bytes.is_empty() {
            return;
        }
        self.key(key);
        self.text.words("[");
        let mut is_first = true;
        for line in lines_of(bytes) {
            self.text.words(if is_first { "" } else { "," });
            self.string(string_of_bytes(self.alloc, line));
            is_first = false;
        }
        self.text.words("]");
    }

    /// Ends the object and its line, and appends it to a text.
    pub fn end(self, text: &mut Text) {
        text.bytes(self.text.as_bytes());
        text.line("}");
        if self.text.faults > 0 {
            text.cut();
        }
    }
}
