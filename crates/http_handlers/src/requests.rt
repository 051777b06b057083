ghost use Rattle.std.specs.Prelude.{◌≡◌, length, All, map};
ghost use Rattle.httparse.specs.Spans.{IsHeaderWithin, IsWithin, header_bytes, span_bytes};
ghost use Rattle.http1.specs.Fields.{known_fields};
ghost use Rattle.http_handlers.specs.Requests.{IsAnswer, answer_parts, has_one_host, is_got, keeps, refusal_of, status_of};

use crate::answer::{Answer, Status};
use http1::fields::KnownFields;
use http1::framing::{Framing, FramingError, MethodKind, request_framing};
use httparse::Status as Parsed;
use httparse::spans::{EMPTY_HEADER_SPAN, HeaderSpan, RequestSpans, parse_request};

/// A head has at most so many fields.
pub const MOST_FIELDS: usize = 64;

/// Whether a request is refused for its content: this server takes none.
fn refusal_of(framing: Result<Framing, FramingError>) -> Option<Status>
    ensures { result ≡ refusal_of framing }
{
    match framing {
        Ok(Framing::NoBody) | Ok(Framing::Length(0)) => None,
        Ok(Framing::Length(_)) => Some(Status::ContentTooLarge),
        Ok(Framing::Chunked) => Some(Status::NotImplemented),
        Ok(Framing::UntilClose) | Err(_) => Some(Status::BadRequest),
    }
}

/// Whether it names one host, as HTTP/1.1 wants it.
fn has_one_host(minor: u8, hosts: u8) -> bool
    ensures { result ≡ has_one_host minor hosts }
{
    hosts == 1 || (hosts == 0 && minor == 0)
}

/// Whether the client wants the connection kept.
fn keeps(minor: u8, close: bool, keep_alive: bool) -> bool
    ensures { result ≡ keeps minor close keep_alive }
{
    !close && (minor == 1 || keep_alive)
}

fn is_got(method: &[u8]) -> bool
    ensures { result ≡ is_got method.now }
{
    method == b"GET".as_slice() || method == b"HEAD".as_slice()
}

/// The status of a request without content.
fn status_of(method: &[u8], target: &[u8]) -> Status
    ensures { result ≡ status_of method.now target.now }
{
    if target != b"/".as_slice() {
        Status::NotFound
    } else if is_got(method) {
        Status::Ok
    } else {
        Status::MethodNotAllowed
    }
}

/// What a request with these parts is answered.
fn answer_parts(served: u64, method: &[u8], target: &[u8], minor: u8, known: &KnownFields) -> Answer
    ensures { result ≡ answer_parts served method.now target.now minor known.now }
{
    if !has_one_host(minor, known.hosts) {
        return Answer::refusal(Status::BadRequest);
    }
    match refusal_of(request_framing(MethodKind::of(method), minor, known)) {
        Some(status) => Answer::refusal(status),
        None => Answer {
            status: status_of(method, target),
            keeps: keeps(minor, known.close, known.keep_alive),
            bodiless: method == b"HEAD".as_slice(),
            served,
        },
    }
}

/// What a request is answered, whose parts are there in its head.
fn answer_request(
    served: u64,
    head: &[u8],
    request: &RequestSpans,
    headers: &[HeaderSpan],
) -> Answer
    requires method { IsWithin (length head.now) request.now.method }
    requires path { IsWithin (length head.now) request.now.path }
    requires headers { All (IsHeaderWithin (length head.now)) headers.now }
    ensures { result ≡ answer_parts served (span_bytes head.now request.now.method)
        (span_bytes head.now request.now.path) request.now.version
        (known_fields (map (header_bytes head.now) headers.now)) }
{
    let known = KnownFields::from_spans(head, headers);
    answer_parts(
        served,
        request.method.of(head),
        request.path.of(head),
        request.version,
        &known,
    )
}

/// What a head is answered, where so many requests were answered before.
pub(crate) fn answer_of(served: u64, head: &[u8]) -> Answer
    ensures { IsAnswer served head.now result }
{
    let mut headers = [EMPTY_HEADER_SPAN; MOST_FIELDS];
    match parse_request(head, &mut headers) {
        Ok(Parsed::Complete(request)) if request.len == head.len() => answer_request(
            served,
            head,
            &request,
            &headers[..request.headers],
        ),
        _ => Answer::refusal(Status::BadRequest),
    }
}
