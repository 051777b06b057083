ghost use Rattle.std.specs.Prelude.{◌≡◌, ◌≤◌, ◌++◌, length, OnOk};
ghost use Rattle.http_handlers.specs.Answers.{closing, framed, line_of, opening, printed, reason_of, refused, unless_bodiless, with_text};

use asio_types::NoMemory;
use itoa::Buffer;

/// The status of an answer (RFC 9110, section 15; RFC 6585, section 5).
#[derive(Clone, Copy, Drop, PartialEq)]
pub enum Status {
    /// 200
    Ok,
    /// 400
    BadRequest,
    /// 404
    NotFound,
    /// 405
    MethodNotAllowed,
    /// 408
    RequestTimeout,
    /// 413
    ContentTooLarge,
    /// 431
    HeaderFieldsTooLarge,
    /// 501
    NotImplemented,
}

impl Status {
    /// Its code and its reason phrase, and the fields that only it has.
    fn line(self) -> &'static [u8]
        ensures { result.now ≡ line_of self }
    {
        match self {
            Status::Ok => b"200 OK",
            Status::BadRequest => b"400 Bad Request",
            Status::NotFound => b"404 Not Found",
            Status::MethodNotAllowed => b"405 Method Not Allowed\r\nAllow: GET, HEAD",
            Status::RequestTimeout => b"408 Request Timeout",
            Status::ContentTooLarge => b"413 Content Too Large",
            Status::HeaderFieldsTooLarge => b"431 Request Header Fields Too Large",
            Status::NotImplemented => b"501 Not Implemented",
        }
    }

    /// Why nothing else is answered.
    fn reason(self) -> &'static [u8]
        ensures value { result.now ≡ reason_of self }
        ensures short { length result.now ≤ 64 }
    {
        match self {
            Status::Ok => b"",
            Status::BadRequest => b"the request can't be read",
            Status::NotFound => b"nothing is there",
            Status::MethodNotAllowed => b"this can only be got",
            Status::RequestTimeout => b"the request came too slowly",
            Status::ContentTooLarge => b"the request has content",
            Status::HeaderFieldsTooLarge => b"the head is too long",
            Status::NotImplemented => b"the content has a coding",
        }
    }
}

/// What a request is answered.
#[derive(Clone, Copy, Drop)]
pub struct Answer {
    pub status: Status,
    /// Whether the connection is kept open behind it.
    pub keeps: bool,
    /// Whether it ends with its head, as an answer to HEAD does.
    pub bodiless: bool,
    /// How many requests of the connection were answered before.
    pub served: u64,
}

impl Answer {
    /// What closes a connection.
    pub fn refusal(status: Status) -> Answer
        ensures { result ≡ refused status }
    {
        Answer {
            status,
            keeps: false,
            bodiless: false,
            served: 0,
        }
    }

    /// Appends its first line and fields, up to its length.
    #[tactic(auto, unfolding(crate::specs::Answers::opening))]
    fn write_opening(&self, out: &mut Vec<u8>) -> Result<(), NoMemory>
        ensures { OnOk result (out.new.items ≡ out.old.items ++ opening self.now.status) }
    {
        out.extend_from_slice(b"HTTP/1.1 ")?;
        out.extend_from_slice(self.status.line())?;
        out.extend_from_slice(b"\r\nContent-Type: text/plain\r\nContent-Length: ")?;
        Ok(())
    }

    /// Appends what it says of the connection, and the end of its head.
    #[tactic(auto, unfolding(crate::specs::Answers::closing))]
    fn write_closing(&self, out: &mut Vec<u8>) -> Result<(), NoMemory>
        ensures { OnOk result (out.new.items ≡ out.old.items ++ closing self.now.keeps) }
    {
        if self.keeps {
            out.extend_from_slice(b"\r\nConnection: keep-alive\r\n\r\n")?;
        } else {
            out.extend_from_slice(b"\r\nConnection: close\r\n\r\n")?;
        }
        Ok(())
    }

    /// Appends its head, for a text of this length.
    fn write_head(&self, size: usize, out: &mut Vec<u8>) -> Result<(), NoMemory>
        ensures { OnOk result (out.new.items ≡ out.old.items ++ framed self.now size) }
    {
        let mut digits = Buffer::new();
        self.write_opening(out)?;
        out.extend_from_slice(digits.format(size).as_bytes())?;
        self.write_closing(out)?;
        Ok(())
    }

    /// Appends a text in three parts, unless the answer ends with its head.
    fn write_text(
        &self,
        before: &[u8],
        number: &[u8],
        behind: &[u8],
        out: &mut Vec<u8>,
    ) -> Result<(), NoMemory>
        ensures { OnOk result (out.new.items ≡ out.old.items
            ++ unless_bodiless self.now.bodiless (before.now ++ number.now ++ behind.now)) }
    {
        if !self.bodiless {
            out.extend_from_slice(before)?;
            out.extend_from_slice(number)?;
            out.extend_from_slice(behind)?;
        }
        Ok(())
    }

    /// Appends it, with a text in three parts.
    fn write_parts(
        &self,
        before: &[u8],
        number: &[u8],
        behind: &[u8],
        out: &mut Vec<u8>,
    ) -> Result<(), NoMemory>
        requires before { length before.now ≤ 64 }
        requires number { length number.now ≤ 40 }
        requires behind { length behind.now ≤ 64 }
        ensures { OnOk result (out.new.items ≡ out.old.items
            ++ with_text self.now (before.now ++ number.now ++ behind.now)) }
    {
        self.write_head(before.len() + number.len() + behind.len(), out)?;
        self.write_text(before, number, behind, out)
    }

    /// Appends its bytes.
    pub fn write(&self, out: &mut Vec<u8>) -> Result<(), NoMemory>
        ensures { OnOk result (out.new.items ≡ out.old.items ++ printed self.now) }
    {
        match self.status {
            Status::Ok => {
                let mut digits = Buffer::new();
                let number = digits.format(self.served.saturating_add(1));
                self.write_parts(
                    b"hello, this is request ",
                    number.as_bytes(),
                    b" of this connection\n",
                    out,
                )
            }
            _ => self.write_parts(self.status.reason(), b"", b"\n", out),
        }
    }
}
