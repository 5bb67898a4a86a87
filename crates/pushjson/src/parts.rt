// Counts what the tree of a text would be made of, before it takes memory.
ghost use Rattle.std.specs.Prelude.{◌≡◌, ◌≤◌, IfOk};
ghost use Rattle.json.specs.Reads.{token_of};
ghost use Rattle.pushjson.specs.Parts.{no_parts, with_value, with_token, is_over, may_have_too_many, has_too_many};

use json::{Reader, Scratch, Token};
use memchr::memchr_iter;
use std::alloc::{AllocError, Global};

// A text of at most so many bytes is not counted: whatever it is made of, its tree takes less than that of a longer one
// may.
const SHORT: usize = 262_144;

// The body, and for each of 10,000 streams an object and its labels, and for each of 10,000 entries its metadata.
const MAX_OBJECTS: usize = 30_001;

// The body itself, 10,000 streams, and for each of 10,000 entries a value, a time, a line and metadata.
const MAX_ELEMENTS: usize = 50_001;

// The objects so far, the values so far that are of no member, and whether a key came last.
#[derive(Clone, Copy, Drop)]
pub(crate) struct Count {
    objects: usize,
    elements: usize,
    after_key: bool,
}

impl Count {
    fn new() -> Count
        ensures { result ≡ no_parts }
    {
        Count {
            objects: 0,
            elements: 0,
            after_key: false,
        }
    }

    fn is_over(self) -> bool
        ensures { result ≡ is_over self }
    {
        self.objects > MAX_OBJECTS || self.elements > MAX_ELEMENTS
    }

    // With the value that begins with a token.
    fn with_value(self, objects: usize) -> Count
        requires { (self.objects ≤ 30001) × (self.elements ≤ 50001) × (objects ≤ 1) }
        ensures { result ≡ with_value self objects }
    {
        Count {
            objects: self.objects + objects,
            elements: if self.after_key {
                self.elements
            } else {
                self.elements + 1
            },
            after_key: false,
        }
    }

    // With one more token.
    fn with(self, token: Token<'_>) -> Count
        requires { (self.objects ≤ 30001) × (self.elements ≤ 50001) }
        ensures { result ≡ with_token self (token_of token.entry) }
    {
        match token {
            Token::BeginObject => self.with_value(1),
            Token::BeginArray
            | Token::String(_)
            | Token::Number(_)
            | Token::Bool(_)
            | Token::Null => { self.with_value(0) }
            Token::Key(_) => Count {
                after_key: true,
                ..self
            },
            Token::EndObject | Token::EndArray | Token::Bad => Count {
                after_key: false,
                ..self
            },
        }
    }
}

// Whether there are so many signs, in texts of it too, that there may be too many objects or elements: in JSON each has a
// sign of its own, but for the first value.
fn may_have_too_many(bytes: &[u8]) -> bool
    ensures { result ≡ may_have_too_many bytes.now }
{
    let objects = memchr_iter(b'{', bytes).count();
    let elements = memchr_iter(b'[', bytes).count() + memchr_iter(b',', bytes).count();
    objects > MAX_OBJECTS || elements >= MAX_ELEMENTS
}

// Whether a text is long and made of too much.
pub(crate) fn has_too_many(alloc: Global, text: &str) -> Result<bool, AllocError>
    ensures { IfOk result (λ many. many ≡ has_too_many text.now) }
{
    if text.len() <= SHORT || !may_have_too_many(text.as_bytes()) {
        return Ok(false);
    }
    let mut scratch = Scratch::new(alloc);
    let mut reader = Reader::new(text, &mut scratch)?;
    let mut count = Count::new();
    while let Some(token) = reader.next() {
        count = count.with(token);
        if count.is_over() {
            return Ok(true);
        }
    }
    Ok(false)
}
