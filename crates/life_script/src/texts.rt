//! The exact texts of answers and events.
ghost use Rattle.std.specs.Prelude.{◌≡◌, ◌<◌, [], ◌∷◌, ◌++◌, codes, decimal, flat_map, IsTrue, OnOk, IfOk};
ghost use Rattle.std.specs.Fmt.{signed_decimal};
ghost use Rattle.life_core.specs.Texts.{last_digits, fraction_text, latency_text, level_name};
ghost use Rattle.life_script.specs.Texts.{hex_digit, escaped, shown, end_text, joined, value_text, values_text, entry_text, fields_text, chunk_text, trailers_text, seen_text, inner_text, fault_text, answer_text, kind_text, dropped_text, said_text, panic_text, handed_text, pair_text, told_headers_text, span_text, status_text, started_text, finished_text, ended_text, failed_text, passed_text, event_text, act_text};

use crate::answer::{Answer, Seen};
use crate::scenario::Act;
use itoa::Buffer;
use life_core::{
    BodyError, DropKind, Event, Field, Fields, Fraction, Got, Handed, Latency, LatencyUnit, Level,
    Octets, PanicText, Shown, Span, Text,
};
use std::alloc::Global;
use std::marker::Model;

/// A text that grows at its end. After an error it is some beginning of what was asked for.
#[derive(Debug, Drop)]
pub struct TextBuilder {
    bytes: Vec<u8>,
}

impl Model for TextBuilder {
    ghost use Rattle.std.specs.Prelude.{List, ℕ};

    ghost Value = { List ℕ };

    ghost view = { λ builder. builder.bytes.items };
}

/// The lower-case hexadecimal digit of a number below sixteen.
fn hex_digit(n: u8) -> u8
    requires { n < 16 }
    ensures { result ≡ hex_digit n }
{
    if n < 10 { b'0' + n } else { b'a' - 10 + n }
}

/// Whether a byte is put as itself.
fn is_plain(byte: u8) -> bool
    ensures { IsTrue result → escaped byte ≡ byte ∷ [] }
{
    match byte {
        b'"' | b'\\' => false,
        _ => matches!(byte, 32..=126),
    }
}

impl TextBuilder {
    /// The empty text. It takes no memory.
    pub fn new(alloc: Global) -> TextBuilder
        ensures { result ≡ [] }
    {
        TextBuilder {
            bytes: Vec::new(alloc),
        }
    }

    /// The text. It takes no memory.
    pub fn finish(self) -> Octets
        ensures { result ≡ self }
    {
        let TextBuilder { bytes } = self;
        Octets::from_vec(bytes)
    }

    /// Puts one byte at the end.
    fn byte(&mut self, byte: u8) -> Got<()>
        ensures { OnOk result (self.new ≡ self.old ++ byte ∷ []) }
    {
        self.bytes.push(byte)?;
        Ok(())
    }

    /// Puts bytes at the end.
    fn bytes(&mut self, bytes: &[u8]) -> Got<()>
        ensures { OnOk result (self.new ≡ self.old ++ bytes.now) }
    {
        self.bytes.extend_from_slice(bytes)?;
        Ok(())
    }

    /// Puts a text at the end.
    pub fn text(&mut self, text: &str) -> Got<()>
        ensures { OnOk result (self.new ≡ self.old ++ text.now) }
    {
        self.bytes(text.as_bytes())
    }

    /// Puts a number in decimal at the end.
    pub fn number(&mut self, number: u64) -> Got<()>
        ensures { OnOk result (self.new ≡ self.old ++ decimal number) }
    {
        let mut buffer = Buffer::new();
        self.text(buffer.format(number))
    }

    /// Puts a number in decimal at the end, after a minus where it is negative.
    fn signed_number(&mut self, number: i32) -> Got<()>
        ensures { OnOk result (self.new ≡ self.old ++ signed_decimal number) }
    {
        let mut buffer = Buffer::new();
        self.text(buffer.format(number))
    }

    /// Puts so many of a number's last decimal digits at the end, with zeros in front where it has fewer.
    fn last_digits(&mut self, width: usize, number: u64) -> Got<()>
        ensures { OnOk result (self.new ≡ self.old ++ last_digits width number) }
    {
        if width == 0 {
            return Ok(());
        }
        self.last_digits(width - 1, number / 10)?;
        self.byte(b'0' + (number % 10) as u8)
    }

    /// Puts a byte at the end, escaped where it is no printed one.
    fn escaped(&mut self, byte: u8) -> Got<()>
        ensures { OnOk result (self.new ≡ self.old ++ escaped byte) }
    {
        match byte {
            b'"' => self.bytes(b"\\\""),
            b'\\' => self.bytes(b"\\\\"),
            32..=126 => self.byte(byte),
            _ => self.bytes(&[b'\\', b'x', hex_digit(byte / 16), hex_digit(byte % 16)]),
        }
    }

    /// Puts bytes at the end, each escaped where it is no printed one. Those between two escapes are put at
    /// once.
    fn escapes(&mut self, bytes: &[u8]) -> Got<()>
        ensures { OnOk result (self.new ≡ self.old ++ flat_map escaped bytes.now) }
    {
        // how many bytes were put
        let mut done = 0;
        for (i, byte) in bytes.iter().enumerate() {
            if !is_plain(*byte) {
                self.bytes(&bytes[done..i])?;
                self.escaped(*byte)?;
                done = i + 1;
            }
        }
        self.bytes(&bytes[done..])
    }

    /// Puts bytes between quotes at the end, each escaped where it is no printed one.
    fn shown(&mut self, bytes: &[u8]) -> Got<()>
        ensures { OnOk result (self.new ≡ self.old ++ shown bytes.now) }
    {
        self.byte(b'"')?;
        self.escapes(bytes)?;
        self.byte(b'"')
    }

    /// Puts a text between quotes at the end, as bytes.
    fn shown_text(&mut self, text: &Text) -> Got<()>
        ensures { OnOk result (self.new ≡ self.old ++ shown text.now) }
    {
        self.shown(text.as_str().as_bytes())
    }

    /// Puts at the end whether a body has ended.
    fn end(&mut self, ended: bool) -> Got<()>
        ensures { OnOk result (self.new ≡ self.old ++ end_text ended) }
    {
        self.text(if ended { "ended" } else { "open" })
    }

    /// Puts a header's value at the end.
    fn value(&mut self, value: &Shown) -> Got<()>
        ensures { OnOk result (self.new ≡ self.old ++ value_text value.now) }
    {
        match value {
            Shown::Plain(bytes) => self.shown(bytes.as_slice()),
            Shown::Sensitive => self.text("Sensitive"),
        }
    }

    /// Puts a header's values at the end, with commas between them.
    fn values(&mut self, values: &[Shown]) -> Got<()>
        ensures { OnOk result (self.new ≡ self.old ++ values_text values.now) }
    {
        let [first, others @ ..] = values else {
            return Ok(());
        };
        self.value(first)?;
        for value in others {
            self.text(", ")?;
            self.value(value)?;
        }
        Ok(())
    }

    /// Puts a header's name with its values at the end.
    fn entry(&mut self, field: &Field) -> Got<()>
        ensures { OnOk result (self.new ≡ self.old ++ entry_text field.now) }
    {
        self.bytes(field.name())?;
        self.text(": [")?;
        self.values(field.values())?;
        self.text("]")
    }

    /// Puts headers at the end, with commas between them.
    fn entries(&mut self, entries: &[Field]) -> Got<()>
        ensures { OnOk result (self.new ≡ self.old ++ joined (codes ", ") entry_text entries.now) }
    {
        let [first, others @ ..] = entries else {
            return Ok(());
        };
        self.entry(first)?;
        for field in others {
            self.text(", ")?;
            self.entry(field)?;
        }
        Ok(())
    }

    /// Puts headers at the end, in braces.
    fn fields(&mut self, fields: &Fields) -> Got<()>
        ensures { OnOk result (self.new ≡ self.old ++ fields_text fields.now) }
    {
        self.text("{")?;
        self.entries(fields.as_slice())?;
        self.text("}")
    }

    /// Puts a chunk at the end.
    fn chunk(&mut self, chunk: &Octets) -> Got<()>
        ensures { OnOk result (self.new ≡ self.old ++ chunk_text chunk.now) }
    {
        self.text("data ")?;
        self.shown(chunk.as_slice())
    }

    /// Puts trailers at the end.
    fn trailers(&mut self, trailers: &Fields) -> Got<()>
        ensures { OnOk result (self.new ≡ self.old ++ trailers_text trailers.now) }
    {
        self.text("trailers ")?;
        self.fields(trailers)
    }

    /// Puts what a frame held at the end.
    fn seen(&mut self, seen: &Seen) -> Got<()>
        ensures { OnOk result (self.new ≡ self.old ++ seen_text seen.now) }
    {
        match seen {
            Seen::Chunk(chunk) => self.chunk(chunk),
            Seen::Trailers(trailers) => self.trailers(trailers),
        }
    }

    /// Puts the fault of a wrapped body at the end.
    fn inner_fault(&mut self, fault: &Text) -> Got<()>
        ensures { OnOk result (self.new ≡ self.old ++ inner_text fault.now) }
    {
        self.text("fault inner ")?;
        self.shown_text(fault)
    }

    /// Puts a fault of a body at the end.
    fn fault(&mut self, fault: &BodyError<Text>) -> Got<()>
        ensures { OnOk result (self.new ≡ self.old ++ fault_text fault.now) }
    {
        match fault {
            BodyError::Elapsed => self.text("fault elapsed"),
            BodyError::LengthLimit => self.text("fault length-limit"),
            BodyError::Inner(inner) => self.inner_fault(inner),
        }
    }

    /// Puts an answer at the end.
    pub fn answer(&mut self, answer: &Answer) -> Got<()>
        ensures { OnOk result (self.new ≡ self.old ++ answer_text answer.now) }
    {
        match answer {
            Answer::Called => self.text("called"),
            Answer::Idle => self.text("idle"),
            Answer::Pending => self.text("pending"),
            Answer::Response {
                status,
                headers,
                ended,
            } => {
                self.text("response ")?;
                self.number(status.as_u16() as u64)?;
                self.text(" ")?;
                self.end(*ended)?;
                self.text(" ")?;
                self.fields(headers)
            }
            Answer::ServiceError(error) => {
                self.text("error ")?;
                self.shown_text(error)
            }
            Answer::Frame { frame, ended } => {
                self.seen(frame)?;
                self.text(" ")?;
                self.end(*ended)
            }
            Answer::End => self.text("end"),
            Answer::Fault(fault) => self.fault(fault),
            Answer::Dropped => self.text("dropped"),
        }
    }

    /// Puts at the end what was dropped before its end.
    fn kind(&mut self, kind: &DropKind) -> Got<()>
        ensures { OnOk result (self.new ≡ self.old ++ kind_text kind.now) }
    {
        match kind {
            DropKind::Future => self.text("future"),
            DropKind::Body(status) => {
                self.text("body ")?;
                self.number(status.as_u16() as u64)
            }
        }
    }

    /// Puts at the end what nanoseconds are more than whole seconds, after a point.
    fn fraction(&mut self, nanos: u64) -> Got<()>
        ensures { OnOk result (self.new ≡ self.old ++ fraction_text nanos) }
    {
        match Fraction::of_second(nanos) {
            None => Ok(()),
            Some(Fraction { number, width }) => {
                self.text(".")?;
                self.last_digits(width, number)
            }
        }
    }

    /// Puts a length of time at the end, in its unit.
    fn latency(&mut self, latency: &Latency) -> Got<()>
        ensures { OnOk result (self.new ≡ self.old ++ latency_text latency.now) }
    {
        let nanos = latency.nanos;
        match latency.unit {
            LatencyUnit::Seconds => {
                self.number(nanos / 1_000_000_000)?;
                self.fraction(nanos)?;
                self.text(" s")
            }
            LatencyUnit::Millis => {
                self.number(nanos / 1_000_000)?;
                self.text(" ms")
            }
            LatencyUnit::Micros => {
                self.number(nanos / 1_000)?;
                self.text(" μs")
            }
            LatencyUnit::Nanos => {
                self.number(nanos)?;
                self.text(" ns")
            }
        }
    }

    /// Puts at the end what was dropped early, and how long after its call.
    fn dropped(&mut self, what: &DropKind, latency: &Latency) -> Got<()>
        ensures { OnOk result (self.new ≡ self.old ++ dropped_text what.now latency.now) }
    {
        self.text("dropped ")?;
        self.kind(what)?;
        self.text(" latency ")?;
        self.latency(latency)
    }

    /// Puts what a panic said at the end.
    fn said(&mut self, text: &PanicText) -> Got<()>
        ensures { OnOk result (self.new ≡ self.old ++ said_text text.now) }
    {
        match text {
            PanicText::Known(text) => self.shown_text(text),
            PanicText::Unknown => self.text("unknown"),
        }
    }

    /// Puts a panic at the end.
    fn panicked(&mut self, level: Level, text: &PanicText) -> Got<()>
        ensures { OnOk result (self.new ≡ self.old ++ panic_text level text.now) }
    {
        self.text("panic ")?;
        self.text(level.name())?;
        self.text(" ")?;
        self.said(text)
    }

    /// Puts at the end what a service was handed.
    fn handed(&mut self, got: &Handed) -> Got<()>
        ensures { OnOk result (self.new ≡ self.old ++ handed_text got.now) }
    {
        match got {
            Handed::Chunk(chunk) => self.chunk(chunk),
            Handed::Trailers(trailers) => self.trailers(trailers),
            Handed::Pending => self.text("pending"),
            Handed::End => self.text("end"),
            Handed::LengthLimit => self.fault(&BodyError::LengthLimit),
            Handed::Elapsed => self.fault(&BodyError::Elapsed),
            Handed::Inner(fault) => self.inner_fault(fault),
        }
    }

    /// Puts a key with its value at the end, as they are.
    fn pair(&mut self, pair: &(Text, Text)) -> Got<()>
        ensures { OnOk result (self.new ≡ self.old ++ pair_text pair.now) }
    {
        let (key, value) = pair;
        self.text(key.as_str())?;
        self.text("=")?;
        self.text(value.as_str())
    }

    /// Puts keys with their values at the end, with spaces between them.
    fn pairs(&mut self, pairs: &[(Text, Text)]) -> Got<()>
        ensures { OnOk result (self.new ≡ self.old ++ joined (codes " ") pair_text pairs.now) }
    {
        let [first, others @ ..] = pairs else {
            return Ok(());
        };
        self.pair(first)?;
        for pair in others {
            self.text(" ")?;
            self.pair(pair)?;
        }
        Ok(())
    }

    /// Puts headers at the end after a word, where they are told.
    fn told_headers(&mut self, word: &str, headers: &Option<Fields>) -> Got<()>
        ensures { OnOk result (self.new ≡ self.old ++ told_headers_text word.now headers.now) }
    {
        match headers {
            None => Ok(()),
            Some(headers) => {
                self.text(word)?;
                self.fields(headers)
            }
        }
    }

    /// Puts a span at the end, without its level.
    fn span(&mut self, span: &Span) -> Got<()>
        ensures { OnOk result (self.new ≡ self.old ++ span_text span.now) }
    {
        self.text(span.name.as_str())?;
        self.text("{")?;
        self.pairs(span.fields.as_slice())?;
        self.told_headers(" headers=", &span.headers)?;
        self.text("}")
    }

    /// Puts a status of HTTP or of gRPC at the end, where there is one.
    fn status(&mut self, status: Option<i32>) -> Got<()>
        ensures { OnOk result (self.new ≡ self.old ++ status_text status) }
    {
        match status {
            None => self.text("none"),
            Some(status) => self.signed_number(status),
        }
    }

    /// Puts a request that was called at the end.
    fn started(&mut self, level: Level, span: &Span) -> Got<()>
        ensures { OnOk result (self.new ≡ self.old ++ started_text level span.now) }
    {
        self.text("started ")?;
        self.text(level.name())?;
        self.text(" ")?;
        self.span(span)
    }

    /// Puts a response that came at the end.
    fn finished(
        &mut self,
        level: Level,
        latency: &Latency,
        status: Option<i32>,
        headers: &Option<Fields>,
    ) -> Got<()>
        ensures { OnOk result (self.new
            ≡ self.old ++ finished_text level latency.now status headers.now) }
    {
        self.text("finished ")?;
        self.text(level.name())?;
        self.text(" latency ")?;
        self.latency(latency)?;
        self.text(" status ")?;
        self.status(status)?;
        self.told_headers(" headers ", headers)
    }

    /// Puts a body that ended at the end.
    fn ended(&mut self, level: Level, duration: &Latency, status: Option<i32>) -> Got<()>
        ensures { OnOk result (self.new ≡ self.old ++ ended_text level duration.now status) }
    {
        self.text("eos ")?;
        self.text(level.name())?;
        self.text(" duration ")?;
        self.latency(duration)?;
        self.text(" status ")?;
        self.status(status)
    }

    /// Puts a failure at the end.
    fn failed(&mut self, level: Level, class: &Text, latency: &Latency) -> Got<()>
        ensures { OnOk result (self.new
            ≡ self.old ++ failed_text level class.now latency.now) }
    {
        self.text("failed ")?;
        self.text(level.name())?;
        self.text(" ")?;
        self.shown_text(class)?;
        self.text(" latency ")?;
        self.latency(latency)
    }

    /// Puts a chunk that passed at the end: how many bytes, and after how long.
    fn passed(&mut self, bytes: u64, latency: &Latency) -> Got<()>
        ensures { OnOk result (self.new ≡ self.old ++ passed_text bytes latency.now) }
    {
        self.text("chunk ")?;
        self.number(bytes)?;
        self.text(" latency ")?;
        self.latency(latency)
    }

    /// Puts an event at the end.
    pub fn event(&mut self, event: &Event) -> Got<()>
        ensures { OnOk result (self.new ≡ self.old ++ event_text event.now) }
    {
        match event {
            Event::Started { level, span } => self.started(*level, span),
            Event::Finished {
                level,
                latency,
                status,
                headers,
            } => self.finished(*level, latency, *status, headers),
            Event::Ended {
                level,
                duration,
                status,
            } => self.ended(*level, duration, *status),
            Event::Failed {
                level,
                class,
                latency,
            } => self.failed(*level, class, latency),
            Event::Chunk { bytes, latency } => self.passed(*bytes, latency),
            Event::Panic { level, text } => self.panicked(*level, text),
            Event::Handed { got } => {
                self.text("handed ")?;
                self.handed(got)
            }
            Event::Dropped { what, latency } => self.dropped(what, latency),
        }
    }

    /// Puts an act at the end.
    pub fn act(&mut self, act: Act) -> Got<()>
        ensures { OnOk result (self.new ≡ self.old ++ act_text act) }
    {
        self.text(match act {
            Act::Call => "call",
            Act::Poll => "poll",
            Act::Drop => "drop",
        })
    }
}

/// The text of an answer.
pub fn answer_text(alloc: Global, answer: &Answer) -> Got<Octets>
    ensures { IfOk result (λ octets. octets ≡ answer_text answer.now) }
{
    let mut text = TextBuilder::new(alloc);
    text.answer(answer)?;
    Ok(text.finish())
}

/// The text of an event.
pub fn event_text(alloc: Global, event: &Event) -> Got<Octets>
    ensures { IfOk result (λ octets. octets ≡ event_text event.now) }
{
    let mut text = TextBuilder::new(alloc);
    text.event(event)?;
    Ok(text.finish())
}
