// Replies written field by field.
ghost use Rattle.std.specs.Prelude.{◌≡◌, ℕ, ◌+◌, ◌<◌, ◌≤◌, List, [], ◌∷◌, ◌++◌, length, codes};
ghost use Rattle.std.specs.List.{flat_map};
ghost use Rattle.arrayvec.specs.ArrayString.{array_string_len};
ghost use Rattle.text.specs.Spoken.{fields_of, spoken, told};

use arrayvec::ArrayString;
use itoa::{Buffer, Integer};
use trial::{Answer, Stop};

// The text of one line, its line feed within; none for a line that is taken in silence.
#[derive(Clone, Copy)]
pub struct Reply {
    text: ArrayString<176>,
    ghost fits: { array_string_len text ≤ 176 },
}

impl Reply {
    ghost use Rattle.text.specs.Replies.{size_of, text_of};

    // A reply that says nothing.
    pub fn silent() -> Reply
        ensures text { text_of result ≡ [] }
        ensures size { size_of result ≡ 0 }
    {
        Reply {
            text: ArrayString::new(),
        }
    }

    pub fn as_bytes(&self) -> &[u8]
        ensures text { result.now ≡ text_of self.now }
        ensures fits { length result.now ≤ 176 }
    {
        self.text.as_str().as_bytes()
    }

    // A comma and a number. Room stands in each call's clause: only the caller knows how many fields follow.
    fn push_number<I: Integer>(&mut self, number: I)
        requires room { size_of self.old + 21 ≤ 176 }
        requires short { I.MAX_STR_LEN ≤ 20 }
        ensures text { text_of self.new ≡ text_of self.old ++ (44 ∷ I.text number) }
        ensures size { size_of self.new ≤ size_of self.old + 21 }
    {
        self.text.push(',');
        self.text.push_str(Buffer::new().format(number));
    }

    // A comma and the word for an absent number. Room as in `push_number`.
    fn push_none(&mut self)
        requires { size_of self.old + 21 ≤ 176 }
        ensures text { text_of self.new ≡ text_of self.old ++ (44 ∷ codes "none") }
        ensures size { size_of self.new ≤ size_of self.old + 21 }
    {
        self.text.push_str(",none");
    }

    // A letter, the fields of each item and a line feed.
    pub(crate) fn line<T: Spoken>(letter: char, items: &[T]) -> Reply
        requires ascii { letter < 128 }
        requires few { length items.now ≤ 4 }
        ensures { text_of result ≡ spoken letter (flat_map T.fields items.now) }
    {
        let mut reply = Reply::silent();
        reply.text.push(letter);
        for item in items {
            item.push_to(&mut reply);
        }
        reply.text.push('\n');
        reply
    }
}

// What a reply can say: one field or two.
pub(crate) trait Spoken {
    ghost use Rattle.text.specs.Replies.{size_of, text_of};

    ghost fields: { Self → List ℕ };

    // At most two fields: their room stands here too, since the reply does not know what follows.
    fn push_to(&self, reply: &mut Reply)
        requires { size_of reply.old + 42 ≤ 176 }
        ensures text { text_of reply.new ≡ text_of reply.old ++ fields self.now }
        ensures size { size_of reply.new ≤ size_of reply.old + 42 };
}

impl Spoken for u64 {
    ghost fields = { told };

    fn push_to(&self, reply: &mut Reply) {
        reply.push_number(*self);
    }
}

impl Spoken for Answer {
    ghost fields = { fields_of };

    fn push_to(&self, reply: &mut Reply) {
        match *self {
            Answer::Heated { made, stop } => {
                reply.push_number(made);
                reply.push_number(Stop::code(stop));
            }
            Answer::Done(Ok(())) => reply.push_number(0u32),
            Answer::Done(Err(refusal)) => reply.push_number(refusal.number()),
            Answer::Standing(steps) => reply.push_number(steps),
            Answer::Temperature(Some(temperature)) => reply.push_number(temperature),
            Answer::Hottest(temperature) => reply.push_number(temperature),
            Answer::CriticalTemperature(degree) => reply.push_number(degree),
            Answer::FirstFailing(Some(step)) => reply.push_number(step),
            Answer::Temperature(None) | Answer::FirstFailing(None) => reply.push_none(),
        }
    }
}
